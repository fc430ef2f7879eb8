//! The machine, as its users see it.

use crate::draft::begin_list;
use crate::finish::finish;
use crate::rest::Rest;
use crate::step::step_now;
use crate::told::told;
use sh_grammar::{Draft, Gap, Now, Stack};
use sh_lexer::Token;
use sh_syntax::Script;
use sqlite_items::Items;
use std::alloc::{AllocError, Global};
use std::marker::Model;

/// Where the reading of a script is, after some of its tokens (POSIX.1-2017, XCU 2.10). Contracts see the state of that name
/// of the grammar's machine. The cost of a token is amortised O(1), apart from what it moves.
#[derive(Drop)]
pub struct Machine {
    innermost: Now,
    rest: Rest,
}

impl Model for Machine {
    ghost use Rattle.sh_grammar.specs.Machine.{State, at};
    ghost use Rattle.std.specs.Coded.{codes};
    ghost use Rattle.sh_syntax.specs.contracts.tree.Part as part;
    ghost use Rattle.sh_syntax.specs.contracts.tree.Word as word;

    ghost Value = { State };

    ghost coded = { Prim.hlevel (codes, part.the_row.coded, word.the_row.coded) };

    ghost view = { λ m. at m.innermost m.rest.below m.rest.room m.rest.script };
}

impl Machine {
    ghost use Rattle.std.specs.Prelude.{◌≡◌, ◌^◌, ◌-◌, ℕ, suc, IfOk, IfSome};
    ghost use Rattle.sh_grammar.specs.Machine as spec;
    ghost use Rattle.sh_machine.specs.Numbered.{Numbered, Within};
    ghost use Rattle.sh_machine.specs.Taken.{taken};

    /// The state before the first token, where so many things may be open at once: compound commands, `${`, `$(`, `$((` and
    /// backquotes. The error is want of memory.
    pub fn start(alloc: Global, limit: u32) -> Result<Machine, AllocError>
        ensures state { IfOk result (λ m. m ≡ spec.start_within limit) }
        ensures numbered { IfOk result Numbered }
        ensures counted { IfOk result (Within (suc limit)) }
    {
        let mut script = Draft {
            script: Script {
                lists: Items::new(alloc),
                bodies: Items::new(alloc),
                leaves: Items::new(alloc),
            },
            heres: Items::new(alloc),
            due: Items::new(alloc),
        };
        begin_list(alloc, &mut script)?;
        Ok(Machine {
            innermost: Now::Gap(Gap::Begin(Items::new(alloc))),
            rest: Rest {
                below: Stack::new(alloc),
                room: limit as usize,
                script,
            },
        })
    }

    /// Which of the tokens that a seen one may be is taken here: those of one kind differ in how the next token is read, and
    /// a `)`, `(`, `|` or `in` in what it ends, begins or parts. The error is want of memory.
    pub fn told(&self, token: Token) -> Result<Token, AllocError>
        ensures { IfOk result (λ t. t ≡ taken self.now token) }
    {
        told(
            &self.innermost,
            &self.rest.below,
            &self.rest.script.due,
            token,
        )
    }

    /// The state after the token. None: the tokens before it and this one begin no script. The error is want of memory.
    /// A token begins one list, one pipeline, one function's body and one here-document at most, so that all numbers stay
    /// below 2 ^ 32 as long as the tokens do.
    pub fn step(self, alloc: Global, token: Token) -> Result<Option<Machine>, AllocError>
        requires numbered { Numbered self }
        requires counted { Within (2 ^ 32 - 1) self }
        ensures state { IfOk result (λ next. next ≡ spec.step self token) }
        ensures numbered { IfOk result (λ next. IfSome next Numbered) }
        ensures counted { (k : ℕ) → Within k self → IfOk result (λ next. IfSome next (Within (suc k))) }
    {
        let Machine {
            innermost,
            mut rest,
        } = self;
        let Some(innermost) = step_now(alloc, innermost, &mut rest, token)? else {
            return Ok(None);
        };
        Ok(Some(Machine { innermost, rest }))
    }

    /// The script of the tokens so far. None: they are those of no script. The error is want of memory.
    pub fn finish(self, alloc: Global) -> Result<Option<Script>, AllocError>
        requires { Numbered self }
        ensures { IfOk result (λ script. script ≡ spec.accept self) }
    {
        let Machine { innermost, rest } = self;
        finish(alloc, innermost, rest)
    }
}
