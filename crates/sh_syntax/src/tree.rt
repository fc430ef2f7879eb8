//! Scripts as trees (POSIX.1-2017, XCU 2.9 and 2.10). Lists, pipelines and function bodies are numbered from 0 in the order
//! in which they begin in the text, each kind by itself, and the trees name them by these numbers.

use hs_text::Text;
use sqlite_items::Items;

/// A whole script. List 0 is the script itself. A leaf is a pipeline: what runs as one.
#[derive(Drop)]
pub struct Script {
    pub lists: Items<List>,
    /// What functions run.
    pub bodies: Items<Command>,
    pub leaves: Items<Pipeline>,
}

/// AND-OR lists one after another (XCU 2.9.3).
#[derive(Drop)]
pub struct List {
    pub items: Items<AndOr>,
}

/// Pipelines by their numbers, joined by `&&` and `||` to the left (XCU 2.9.3).
#[derive(Drop)]
pub struct AndOr {
    pub first: u32,
    pub rest: Items<(Join, u32)>,
}

#[derive(Clone, Copy, Debug, PartialEq, Eq, Drop)]
pub enum Join {
    And,
    Or,
}

/// Commands joined by `|`, with `!` before them or without (XCU 2.9.2).
#[derive(Drop)]
pub struct Pipeline {
    pub bang: bool,
    pub stages: Items<Command>,
}

#[derive(Drop)]
pub enum Command {
    /// XCU 2.9.1.
    Simple {
        assigns: Items<(Text, Word)>,
        words: Items<Word>,
        redirs: Items<Redir>,
    },
    /// XCU 2.9.4.
    Compound {
        body: Compound,
        redirs: Items<Redir>,
    },
    /// A function definition (XCU 2.9.5).
    Function {
        name: Text,
        body: u32,
    },
}

/// A compound command, whose lists are named by their numbers (XCU 2.9.4).
#[derive(Drop)]
pub enum Compound {
    Group(u32),
    Subshell(u32),
    /// Each arm is the list after `if` or `elif` and the one after its `then`.
    If {
        arms: Items<(u32, u32)>,
        other: Option<u32>,
    },
    While {
        until: bool,
        test: u32,
        body: u32,
    },
    /// Without words it goes through the positional parameters.
    For {
        name: Text,
        words: Option<Items<Word>>,
        body: u32,
    },
    /// Each arm is its patterns and its list.
    Case {
        word: Word,
        arms: Items<(Items<Word>, u32)>,
    },
}

/// A redirection of a descriptor (XCU 2.7). The word of a here-document is its body: one Single part where its delimiter
/// was quoted, else one Double part.
#[derive(Drop)]
pub struct Redir {
    pub fd: u8,
    pub op: RedirOp,
    pub word: Word,
}

#[derive(Clone, Copy, Debug, PartialEq, Eq, Drop)]
pub enum RedirOp {
    /// `<`
    Read,
    /// `>`
    Write,
    /// `>|`
    Clobber,
    /// `>>`
    Append,
    /// `<&`
    DupIn,
    /// `>&`
    DupOut,
    /// `<<` or `<<-`
    Here,
}

/// A word with its quoting (XCU 2.2 and 2.3).
#[derive(Drop)]
#[cycle(words)]
pub struct Word {
    pub parts: Items<Part>,
}

#[derive(Drop)]
#[cycle(words)]
pub enum Part {
    /// Bytes that stand for themselves.
    Plain(Text),
    /// What stands between two single quotes.
    Single(Text),
    /// A byte behind a backslash.
    Escaped(u8),
    /// What stands between two double quotes.
    Double(Items<Part>),
    /// A parameter, with what its operator takes (XCU 2.6.2). `colon` tells `:-` from `-`.
    Param {
        name: Text,
        op: ParamOp,
        colon: bool,
        word: Option<Word>,
    },
    /// The list of a command substitution, by its number.
    Command(u32),
    /// An arithmetic expansion.
    Arith(Word),
}

#[derive(Clone, Copy, Debug, PartialEq, Eq, Drop)]
pub enum ParamOp {
    /// `$x` and `${x}`
    Value,
    /// `${#x}`
    Length,
    /// `-`
    Default,
    /// `=`
    Assign,
    /// `?`
    Error,
    /// `+`
    Alternative,
    /// `%`
    SmallSuffix,
    /// `%%`
    LargeSuffix,
    /// `#`
    SmallPrefix,
    /// `##`
    LargePrefix,
}
