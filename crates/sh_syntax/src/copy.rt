//! Copies of trees. Each takes time linear in the tree, but that a text's bytes are shared. The depth of the calls is that of
//! the words in one another.

ghost use Rattle.std.specs.Prelude.{◌≡◌, IfOk};

use crate::tree::{AndOr, Command, Compound, Join, List, Part, Pipeline, Redir, Script, Word};
use hs_text::Text;
use sqlite_items::Items;
use std::alloc::{AllocError, Global};

/// Types whose values are copied whole.
trait Copied: Drop {
    fn copied(&self, alloc: Global) -> Result<Self, AllocError>
        ensures { IfOk result (λ copy. copy ≡ self.now) };
}

fn copy_items<T: Copied>(alloc: Global, items: &[T]) -> Result<Items<T>, AllocError>
    ensures { IfOk result (λ copy. copy ≡ items.now) }
{
    let mut copies = Items::new(alloc);
    for i in 0..items.len() {
        copies.push(items[i].copied(alloc)?)?;
    }
    Ok(copies)
}

impl Script {
    /// An equal script. The error is want of memory.
    pub fn copy(&self, alloc: Global) -> Result<Script, AllocError>
        ensures { IfOk result (λ copy. copy ≡ self.now) }
    {
        Ok(Script {
            lists: copy_items(alloc, self.lists.as_slice())?,
            bodies: copy_items(alloc, self.bodies.as_slice())?,
            leaves: copy_items(alloc, self.leaves.as_slice())?,
        })
    }
}

impl List {
    /// An equal list. The error is want of memory.
    pub fn copy(&self, alloc: Global) -> Result<List, AllocError>
        ensures { IfOk result (λ copy. copy ≡ self.now) }
    {
        Ok(List {
            items: copy_items(alloc, self.items.as_slice())?,
        })
    }
}

impl AndOr {
    /// An equal AND-OR list. The error is want of memory.
    pub fn copy(&self, alloc: Global) -> Result<AndOr, AllocError>
        ensures { IfOk result (λ copy. copy ≡ self.now) }
    {
        Ok(AndOr {
            first: self.first,
            rest: copy_items(alloc, self.rest.as_slice())?,
        })
    }
}

impl Pipeline {
    /// An equal pipeline. The error is want of memory.
    pub fn copy(&self, alloc: Global) -> Result<Pipeline, AllocError>
        ensures { IfOk result (λ copy. copy ≡ self.now) }
    {
        Ok(Pipeline {
            bang: self.bang,
            stages: copy_items(alloc, self.stages.as_slice())?,
        })
    }
}

impl Command {
    /// An equal command. The error is want of memory.
    pub fn copy(&self, alloc: Global) -> Result<Command, AllocError>
        ensures { IfOk result (λ copy. copy ≡ self.now) }
    {
        match self {
            Command::Simple {
                assigns,
                words,
                redirs,
            } => Ok(Command::Simple {
                assigns: copy_items(alloc, assigns.as_slice())?,
                words: copy_items(alloc, words.as_slice())?,
                redirs: copy_items(alloc, redirs.as_slice())?,
            }),
            Command::Compound { body, redirs } => Ok(Command::Compound {
                body: body.copy(alloc)?,
                redirs: copy_items(alloc, redirs.as_slice())?,
            }),
            Command::Function { name, body } => Ok(Command::Function {
                name: name.clone()?,
                body: *body,
            }),
        }
    }
}

impl Compound {
    /// An equal compound command. The error is want of memory.
    pub fn copy(&self, alloc: Global) -> Result<Compound, AllocError>
        ensures { IfOk result (λ copy. copy ≡ self.now) }
    {
        match self {
            Compound::Group(list) => Ok(Compound::Group(*list)),
            Compound::Subshell(list) => Ok(Compound::Subshell(*list)),
            Compound::If { arms, other } => Ok(Compound::If {
                arms: copy_items(alloc, arms.as_slice())?,
                other: *other,
            }),
            Compound::While { until, test, body } => Ok(Compound::While {
                until: *until,
                test: *test,
                body: *body,
            }),
            Compound::For { name, words, body } => Ok(Compound::For {
                name: name.clone()?,
                words: copy_places(alloc, words)?,
                body: *body,
            }),
            Compound::Case { word, arms } => Ok(Compound::Case {
                word: word.copy(alloc)?,
                arms: copy_items(alloc, arms.as_slice())?,
            }),
        }
    }
}

fn copy_places(
    alloc: Global,
    words: &Option<Items<Word>>,
) -> Result<Option<Items<Word>>, AllocError>
    ensures { IfOk result (λ copy. copy ≡ words.now) }
{
    match words {
        None => Ok(None),
        Some(words) => Ok(Some(copy_items(alloc, words.as_slice())?)),
    }
}

impl Redir {
    /// An equal redirection. The error is want of memory.
    pub fn copy(&self, alloc: Global) -> Result<Redir, AllocError>
        ensures { IfOk result (λ copy. copy ≡ self.now) }
    {
        Ok(Redir {
            fd: self.fd,
            op: self.op,
            word: self.word.copy(alloc)?,
        })
    }
}

impl Word {
    /// An equal word. The error is want of memory.
    pub fn copy(&self, alloc: Global) -> Result<Word, AllocError>
        ensures { IfOk result (λ copy. copy ≡ self.now) }
    {
        copy_word(alloc, self)
    }
}

impl Part {
    /// An equal part. The error is want of memory.
    pub fn copy(&self, alloc: Global) -> Result<Part, AllocError>
        ensures { IfOk result (λ copy. copy ≡ self.now) }
    {
        copy_part(alloc, self)
    }
}

impl Copied for List {
    fn copied(&self, alloc: Global) -> Result<List, AllocError> {
        self.copy(alloc)
    }
}

impl Copied for AndOr {
    fn copied(&self, alloc: Global) -> Result<AndOr, AllocError> {
        self.copy(alloc)
    }
}

impl Copied for (Join, u32) {
    fn copied(&self, _: Global) -> Result<(Join, u32), AllocError> {
        Ok(*self)
    }
}

impl Copied for (u32, u32) {
    fn copied(&self, _: Global) -> Result<(u32, u32), AllocError> {
        Ok(*self)
    }
}

impl Copied for (Text, Word) {
    fn copied(&self, alloc: Global) -> Result<(Text, Word), AllocError> {
        Ok((self.0.clone()?, self.1.copy(alloc)?))
    }
}

impl Copied for (Items<Word>, u32) {
    fn copied(&self, alloc: Global) -> Result<(Items<Word>, u32), AllocError> {
        Ok((copy_items(alloc, self.0.as_slice())?, self.1))
    }
}

impl Copied for Word {
    fn copied(&self, alloc: Global) -> Result<Word, AllocError> {
        self.copy(alloc)
    }
}

impl Copied for Pipeline {
    fn copied(&self, alloc: Global) -> Result<Pipeline, AllocError> {
        self.copy(alloc)
    }
}

impl Copied for Redir {
    fn copied(&self, alloc: Global) -> Result<Redir, AllocError> {
        self.copy(alloc)
    }
}

impl Copied for Command {
    fn copied(&self, alloc: Global) -> Result<Command, AllocError> {
        self.copy(alloc)
    }
}

#[cycle(copies)]
fn copy_word(alloc: Global, word: &Word) -> Result<Word, AllocError>
    ensures { IfOk result (λ copy. copy ≡ word.now) }
{
    Ok(Word {
        parts: copy_parts(alloc, word.parts.as_slice())?,
    })
}

#[cycle(copies)]
fn copy_parts(alloc: Global, parts: &[Part]) -> Result<Items<Part>, AllocError>
    ensures { IfOk result (λ copy. copy ≡ parts.now) }
{
    let mut copies = Items::new(alloc);
    for i in 0..parts.len() {
        copies.push(copy_part(alloc, &parts[i])?)?;
    }
    Ok(copies)
}

#[cycle(copies)]
fn copy_part(alloc: Global, part: &Part) -> Result<Part, AllocError>
    ensures { IfOk result (λ copy. copy ≡ part.now) }
{
    match part {
        Part::Plain(text) => Ok(Part::Plain(text.clone()?)),
        Part::Single(text) => Ok(Part::Single(text.clone()?)),
        Part::Escaped(byte) => Ok(Part::Escaped(*byte)),
        Part::Double(parts) => Ok(Part::Double(copy_parts(alloc, parts.as_slice())?)),
        Part::Param {
            name,
            op,
            colon,
            word,
        } => Ok(Part::Param {
            name: name.clone()?,
            op: *op,
            colon: *colon,
            word: copy_operand(alloc, word)?,
        }),
        Part::Command(list) => Ok(Part::Command(*list)),
        Part::Arith(word) => Ok(Part::Arith(copy_word(alloc, word)?)),
    }
}

#[cycle(copies)]
fn copy_operand(alloc: Global, word: &Option<Word>) -> Result<Option<Word>, AllocError>
    ensures { IfOk result (λ copy. copy ≡ word.now) }
{
    match word {
        None => Ok(None),
        Some(word) => Ok(Some(copy_word(alloc, word)?)),
    }
}
