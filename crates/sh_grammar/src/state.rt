//! What has been read of a script.

use crate::stack::Stack;
use hs_text::Text;
use sh_lexer::{Here, Mode};
use sh_syntax::{AndOr, Command, Compound, Join, ParamOp, Part, Redir, RedirOp, Script, Word};
use sqlite_items::Items;

/// A here-document whose body comes later: the number of its body.
#[derive(Drop)]
pub struct Due {
    pub number: u32,
    pub here: Here,
}

/// The script so far. A body of a here-document comes when the command may be complete that it belongs to. So bodies are
/// numbered here, and until the script ends the word of such a redirection is the number: that of a Command part.
#[derive(Drop)]
pub struct Draft {
    pub script: Script,
    pub heres: Items<Word>,
    /// Those whose bodies come after the next newline.
    pub due: Items<Due>,
}

/// A simple command so far.
#[derive(Drop)]
pub struct Simple {
    pub assigns: Items<(Text, Word)>,
    pub words: Items<Word>,
    pub redirs: Items<Redir>,
}

/// A pipeline in which a command has to come or is being read, and the list round it.
#[derive(Drop)]
pub struct Pipe {
    /// The list's complete items.
    pub items: Items<AndOr>,
    /// What stands before the pipeline in its AND-OR list, and how it is joined.
    pub before: Option<(AndOr, Join)>,
    pub leaf: u32,
    pub bang: bool,
    /// Its complete commands.
    pub stages: Items<Command>,
}

/// A `case` command so far.
#[derive(Drop)]
pub struct Case {
    pub word: Word,
    pub arms: Items<(Items<Word>, u32)>,
}

/// What a redirection belongs to.
#[derive(Drop)]
pub enum Host {
    Simple(Simple),
    Compound(Compound, Items<Redir>),
}

/// A place where newlines may stand.
#[derive(Drop)]
pub enum Gap {
    /// A command may begin, or the list may end.
    Begin(Items<AndOr>),
    /// After `&&` or `||`.
    Join(Items<AndOr>, AndOr, Join),
    /// After `|`.
    Stage,
    /// After `name()`.
    Function(Text),
    /// After the word of a `case`.
    In(Word),
    /// Before an arm of a `case`.
    Arms(Case),
    /// After the name of a `for` and a newline.
    For(Text),
    /// Before the `do` of a `for`.
    Do(Text, Option<Items<Word>>),
}

/// The innermost thing that is being read.
#[derive(Drop)]
pub enum Now {
    Gap(Gap),
    /// The bodies of these here-documents come next, and then newlines may go on.
    Due(Due, Stack<Due>, Gap),
    /// Parts of a word, or of what is in it.
    Parts(Items<Part>),
    /// A simple command, between words.
    Elements(Simple),
    /// After a compound command.
    Redirs(Compound, Items<Redir>),
    /// After `!`.
    Bang,
    /// After `<<` or `<<-`: descriptor, and whether tabs are dropped.
    Delimiter(u8, bool, Host),
    /// After the name of a function that is defined.
    Name(Text),
    /// After `name(`.
    Named(Text),
    /// After `for`.
    For,
    /// In the name of a `for`.
    ForName(Text),
    /// After it.
    ForNamed(Text),
    /// After the `in` of a `for`.
    ForWords(Text, Items<Word>),
    /// After a pattern.
    Patterns(Case, Items<Word>),
}

/// What is open round it, and what goes on when it ends. A number that comes last is that of the list that is being read.
#[derive(Drop)]
pub enum Below {
    Pipe(Pipe),
    /// The body of a function.
    Function(Text, u32),
    /// A word of a simple command.
    Argument(Simple),
    /// The value of an assignment.
    Assign(Text, Simple),
    /// The word of a redirection.
    Redirect(u8, RedirOp, Host),
    Group(u32),
    Subshell(u32),
    /// After `if` or `elif`, with the arms before.
    Test(Items<(u32, u32)>, u32),
    /// After `then`.
    Then(Items<(u32, u32)>, u32, u32),
    Else(Items<(u32, u32)>, u32),
    /// After `while`, or `until`.
    While(bool, u32),
    WhileDo(bool, u32, u32),
    ForDo(Text, Option<Items<Word>>, u32),
    ForWord(Text, Items<Word>),
    CaseWord,
    Pattern(Case, Items<Word>),
    /// The list of an arm.
    Arm(Case, Items<Word>, u32),
    Double(Items<Part>, Mode),
    Braces(Items<Part>, Text, ParamOp, bool, Mode),
    Arith(Items<Part>, Mode),
    Command(Items<Part>, Mode, u32),
    Backquote(Items<Part>, Mode, u32),
    /// The body of a here-document: its number, and what follows it.
    Body(u32, Stack<Due>, Gap),
}
