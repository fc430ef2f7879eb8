//! Whether two scripts are the same tree. It takes no memory, and time linear in the smaller of the two at most. The
//! depth of its calls is that of the words in one another.
ghost use Rattle.std.specs.Prelude.{◌≡◌, ◌↔◌, IsTrue};

use crate::tree::{AndOr, Command, Compound, Join, List, Part, Pipeline, Redir, Script, Word};
use hs_text::Text;
use sqlite_items::Items;

/// Whether `a` and `b` are the same in each part.
pub fn same(a: &Script, b: &Script) -> bool
    ensures { IsTrue result ↔ (a.now ≡ b.now) }
{
    same_items(a.lists.as_slice(), b.lists.as_slice())
        && same_items(a.bodies.as_slice(), b.bodies.as_slice())
        && same_items(a.leaves.as_slice(), b.leaves.as_slice())
}

/// Types whose values are compared whole.
trait Alike {
    fn is_same(&self, other: &Self) -> bool
        ensures { IsTrue result ↔ (self.now ≡ other.now) };
}

fn same_items<T: Alike>(a: &[T], b: &[T]) -> bool
    ensures { IsTrue result ↔ (a.now ≡ b.now) }
{
    if a.len() != b.len() {
        return false;
    }
    for i in 0..a.len() {
        if !a[i].is_same(&b[i]) {
            return false;
        }
    }
    true
}

fn same_text(a: &Text, b: &Text) -> bool
    ensures { IsTrue result ↔ (a.now ≡ b.now) }
{
    a == b
}

impl Alike for List {
    fn is_same(&self, other: &List) -> bool {
        same_items(self.items.as_slice(), other.items.as_slice())
    }
}

impl Alike for AndOr {
    fn is_same(&self, other: &AndOr) -> bool {
        self.first == other.first && same_items(self.rest.as_slice(), other.rest.as_slice())
    }
}

impl Alike for (Join, u32) {
    fn is_same(&self, other: &(Join, u32)) -> bool {
        let (join, leaf) = *self;
        let (join2, leaf2) = *other;
        join == join2 && leaf == leaf2
    }
}

impl Alike for (u32, u32) {
    fn is_same(&self, other: &(u32, u32)) -> bool {
        self.0 == other.0 && self.1 == other.1
    }
}

impl Alike for (Text, Word) {
    fn is_same(&self, other: &(Text, Word)) -> bool {
        same_text(&self.0, &other.0) && same_word(&self.1, &other.1)
    }
}

impl Alike for (Items<Word>, u32) {
    fn is_same(&self, other: &(Items<Word>, u32)) -> bool {
        same_items(self.0.as_slice(), other.0.as_slice()) && self.1 == other.1
    }
}

impl Alike for Word {
    fn is_same(&self, other: &Word) -> bool {
        same_word(self, other)
    }
}

impl Alike for Pipeline {
    fn is_same(&self, other: &Pipeline) -> bool {
        self.bang == other.bang && same_items(self.stages.as_slice(), other.stages.as_slice())
    }
}

impl Alike for Redir {
    fn is_same(&self, other: &Redir) -> bool {
        self.fd == other.fd && self.op == other.op && same_word(&self.word, &other.word)
    }
}

impl Alike for Command {
    fn is_same(&self, other: &Command) -> bool {
        match (self, other) {
            (
                Command::Simple {
                    assigns,
                    words,
                    redirs,
                },
                Command::Simple {
                    assigns: assigns2,
                    words: words2,
                    redirs: redirs2,
                },
            ) => {
                same_items(assigns.as_slice(), assigns2.as_slice())
                    && same_items(words.as_slice(), words2.as_slice())
                    && same_items(redirs.as_slice(), redirs2.as_slice())
            }
            (
                Command::Compound { body, redirs },
                Command::Compound {
                    body: body2,
                    redirs: redirs2,
                },
            ) => same_compound(body, body2) && same_items(redirs.as_slice(), redirs2.as_slice()),
            (
                Command::Function { name, body },
                Command::Function {
                    name: name2,
                    body: body2,
                },
            ) => same_text(name, name2) && *body == *body2,
            _ => false,
        }
    }
}

fn same_compound(a: &Compound, b: &Compound) -> bool
    ensures { IsTrue result ↔ (a.now ≡ b.now) }
{
    match (a, b) {
        (Compound::Group(list), Compound::Group(list2)) => *list == *list2,
        (Compound::Subshell(list), Compound::Subshell(list2)) => *list == *list2,
        (
            Compound::If { arms, other },
            Compound::If {
                arms: arms2,
                other: other2,
            },
        ) => same_items(arms.as_slice(), arms2.as_slice()) && *other == *other2,
        (
            Compound::While { until, test, body },
            Compound::While {
                until: until2,
                test: test2,
                body: body2,
            },
        ) => *until == *until2 && *test == *test2 && *body == *body2,
        (
            Compound::For { name, words, body },
            Compound::For {
                name: name2,
                words: words2,
                body: body2,
            },
        ) => same_text(name, name2) && same_places(words, words2) && *body == *body2,
        (
            Compound::Case { word, arms },
            Compound::Case {
                word: word2,
                arms: arms2,
            },
        ) => same_word(word, word2) && same_items(arms.as_slice(), arms2.as_slice()),
        _ => false,
    }
}

fn same_places(a: &Option<Items<Word>>, b: &Option<Items<Word>>) -> bool
    ensures { IsTrue result ↔ (a.now ≡ b.now) }
{
    match (a, b) {
        (None, None) => true,
        (Some(words), Some(words2)) => same_items(words.as_slice(), words2.as_slice()),
        _ => false,
    }
}

#[cycle(parts)]
fn same_word(a: &Word, b: &Word) -> bool
    ensures { IsTrue result ↔ (a.now ≡ b.now) }
{
    same_parts(a.parts.as_slice(), b.parts.as_slice())
}

#[cycle(parts)]
fn same_parts(a: &[Part], b: &[Part]) -> bool
    ensures { IsTrue result ↔ (a.now ≡ b.now) }
{
    if a.len() != b.len() {
        return false;
    }
    for i in 0..a.len() {
        if !same_part(&a[i], &b[i]) {
            return false;
        }
    }
    true
}

#[cycle(parts)]
fn same_part(a: &Part, b: &Part) -> bool
    ensures { IsTrue result ↔ (a.now ≡ b.now) }
{
    match (a, b) {
        (Part::Plain(text), Part::Plain(text2)) => same_text(text, text2),
        (Part::Single(text), Part::Single(text2)) => same_text(text, text2),
        (Part::Escaped(byte), Part::Escaped(byte2)) => *byte == *byte2,
        (Part::Double(parts), Part::Double(parts2)) => {
            same_parts(parts.as_slice(), parts2.as_slice())
        }
        (
            Part::Param {
                name,
                op,
                colon,
                word,
            },
            Part::Param {
                name: name2,
                op: op2,
                colon: colon2,
                word: word2,
            },
        ) => {
            same_text(name, name2) && *op == *op2 && *colon == *colon2 && same_operand(word, word2)
        }
        (Part::Command(list), Part::Command(list2)) => *list == *list2,
        (Part::Arith(word), Part::Arith(word2)) => same_word(word, word2),
        _ => false,
    }
}

#[cycle(parts)]
fn same_operand(a: &Option<Word>, b: &Option<Word>) -> bool
    ensures { IsTrue result ↔ (a.now ≡ b.now) }
{
    match (a, b) {
        (None, None) => true,
        (Some(word), Some(word2)) => same_word(word, word2),
        _ => false,
    }
}
