//! Tokens (POSIX.1-2017, XCU 2.3 and 2.10). They are small: an operator, a piece of a word, what begins or ends a quote. Some
//! bytes may be one of several tokens, as a `)` may end a subshell or a substitution; the grammar takes the one it wants.

use hs_text::Text;
use sh_syntax::{ParamOp, RedirOp};

/// Control operators and reserved words (XCU 2.4, 2.10.2).
#[derive(Clone, Copy, Debug, PartialEq, Eq, Drop)]
pub enum Op {
    AndIf,
    OrIf,
    Semi,
    DoubleSemi,
    Pipe,
    /// A `|` between the patterns of a `case` arm.
    PipePattern,
    Open,
    /// A `(` before the patterns of a `case` arm.
    OpenPattern,
    /// A `)` that ends no substitution.
    Close,
    Bang,
    LeftBrace,
    RightBrace,
    Case,
    Do,
    Done,
    Elif,
    Else,
    Esac,
    Fi,
    For,
    If,
    /// The `in` of `for`.
    In,
    /// The `in` of `case`.
    CaseIn,
    Then,
    Until,
    While,
}

/// A part of a word that is one token.
#[derive(Drop)]
pub enum Bit {
    /// Bytes that stand for themselves.
    Piece(Text),
    /// Bytes of an arithmetic expression, and how many brackets are open after them.
    Sum(Text, u32),
    /// A byte behind a backslash.
    Escaped(u8),
    /// What stands between single quotes.
    Single(Text),
    /// A parameter without braces.
    Value(Text),
}

/// What begins a part of a word that has parts or a list in it.
#[derive(Drop)]
pub enum Opener {
    /// `"`
    Double,
    /// `${x-` and its like. `quoted`: the word in it is read as in double quotes (XCU 2.2.3).
    Braces {
        name: Text,
        op: ParamOp,
        colon: bool,
        quoted: bool,
    },
    /// `$(`
    Command,
    /// `$((`
    Arith,
    /// A backquote, whose text is read next.
    Backquote,
}

/// What ends, where the grammar says how to go on.
#[derive(Clone, Copy, Debug, PartialEq, Eq, Drop)]
pub enum End {
    /// Of a word. It takes no bytes.
    Word,
    /// The `"` at the end of double quotes.
    Quote,
    /// The `}` of `${`.
    Brace,
    /// The `))` of `$((`.
    Arith,
    /// The `)` of `$(`.
    List,
    /// Of a text that was cut out: what stands in backquotes, or a here-document's body.
    Text,
    Newline,
}

/// What a here-document's body ends with and how it is read (XCU 2.7.4).
#[derive(Drop)]
pub struct Here {
    pub delimiter: Text,
    /// `<<-`: tabs at the front of its lines are dropped.
    pub strip: bool,
    pub quoted: bool,
}

#[derive(Drop)]
pub enum Token {
    Operator(Op),
    Part(Bit),
    /// `${x}`; true: `${#x}`.
    Param(Text, bool),
    /// With how the word round it is read.
    Open(Opener, Mode),
    /// With how the next token is read.
    End(End, Mode),
    /// The name and `=` of an assignment (XCU 2.9.1).
    Assign(Text),
    /// A redirection's descriptor and operator.
    Redirect(u8, RedirOp),
    /// The same for `<<` and `<<-`; true: `<<-`.
    Here(u8, bool),
    /// A here-document's delimiter without its quotes, whether any part was quoted, and how the next token is read.
    Delimiter(Text, bool, Mode),
    /// Before the body of a here-document that is expanded, whose text is read next.
    Body,
    /// The body of a here-document whose delimiter was quoted, and how the next token is read.
    Verbatim(Text, Mode),
    /// The name of a function that is defined (XCU 2.9.5).
    Function(Text),
}

/// How a token is read.
#[derive(Drop)]
pub enum Mode {
    /// Between words: a command may begin, and reserved words are recognised.
    Command,
    /// Between words of a command that has no word yet: assignments are recognised.
    Prefix,
    /// Between other words.
    Arguments,
    /// Where the first pattern of a `case` arm may stand: `esac` is recognised.
    Pattern,
    /// In a word.
    Word,
    /// In double quotes.
    Quotes,
    /// In the word of `${x-`; true: as in double quotes.
    Braces(bool),
    /// In an arithmetic expression, with so many brackets open.
    Arith(u32),
    /// In the body of a here-document that is expanded.
    Body,
    /// After `<<` or `<<-`.
    Delimiter,
    /// At the first line of a here-document's body.
    Cut(Here),
}
