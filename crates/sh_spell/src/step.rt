//! The steps in which a part or a list is written.

ghost use Rattle.std.specs.Prelude.{◌≡◌, [], ◌∷◌, ◌++◌, MatchOption, OnOk};
ghost use Rattle.sh_spell.specs.Seen.{seen};
ghost use Rattle.sh_spell.specs.Steps as spec;

use hs_text::Text;
use sh_lexer::{Bit, End, Mode, Op, Opener, Token};
use sh_syntax::Part;
use sqlite_items::Items;
use std::alloc::{AllocError, Global};
use std::marker::Model;

#[derive(Drop)]
pub enum Step<'a> {
    /// A token as it is.
    Token(Token),
    /// A parameter by its name, with braces where they are needed.
    Value(&'a Text),
    /// A part, by its own steps.
    Part(&'a Part),
    /// The list of a number, by its own steps.
    List(u32),
}

/// Steps one after another.
#[derive(Drop)]
pub struct Steps<'a> {
    items: Items<Step<'a>>,
}

impl<'a> Model for Steps<'a> {
    ghost use Rattle.std.specs.Prelude.{List, map};
    ghost use Rattle.sh_spell.specs.Steps.{Step};
    ghost use Rattle.sh_spell.specs.Seen.{seen};
    ghost use Rattle.std.specs.Coded.{codes};
    ghost use Rattle.sh_syntax.specs.contracts.tree.Part as part;

    ghost Value = { List Step };

    ghost coded = { Prim.hlevel (codes, part.the_row.coded) };

    ghost view = { λ s. map seen s.items };
}

impl<'a> Steps<'a> {
    pub fn new(alloc: Global) -> Steps<'a>
        ensures { result ≡ [] }
    {
        Steps {
            items: Items::new(alloc),
        }
    }

    /// Takes the last one away.
    pub fn pop(&mut self) -> Option<Step<'a>>
        ensures { MatchOption result ((self.old ≡ []) × (self.new ≡ [])) (λ last. self.old ≡ self.new ++ seen last ∷ []) }
    {
        self.items.pop()
    }

    /// Puts one at the end. The error is want of memory.
    pub fn push(&mut self, step: Step<'a>) -> Result<(), AllocError>
        ensures { OnOk result (self.new ≡ self.old ++ seen step.entry ∷ []) }
    {
        self.items.push(step)
    }

    pub fn push_list(&mut self, number: u32) -> Result<(), AllocError>
        ensures { OnOk result (self.new ≡ self.old ++ spec.list_step number ∷ []) }
    {
        self.push(Step::List(number))
    }

    pub fn push_token(&mut self, token: Token) -> Result<(), AllocError>
        ensures { OnOk result (self.new ≡ self.old ++ spec.token_step token ∷ []) }
    {
        self.push(Step::Token(token))
    }

    pub fn push_bit(&mut self, bit: Bit) -> Result<(), AllocError>
        ensures { OnOk result (self.new ≡ self.old ++ spec.token_step (Token.Part bit) ∷ []) }
    {
        self.push_token(Token::Part(bit))
    }

    pub fn push_op(&mut self, op: Op) -> Result<(), AllocError>
        ensures { OnOk result (self.new ≡ self.old ++ spec.op_step op ∷ []) }
    {
        self.push_token(Token::Operator(op))
    }

    pub fn push_opener(&mut self, opener: Opener) -> Result<(), AllocError>
        ensures { OnOk result (self.new ≡ self.old ++ spec.open_step opener ∷ []) }
    {
        self.push_token(Token::Open(opener, Mode::Word))
    }

    pub fn push_end(&mut self, end: End) -> Result<(), AllocError>
        ensures { OnOk result (self.new ≡ self.old ++ spec.end_step end ∷ []) }
    {
        self.push_token(Token::End(end, Mode::Word))
    }
}
