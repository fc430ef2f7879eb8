//! Which tokens begin or end a text in backquotes.

ghost use Rattle.std.specs.Prelude.{◌≡◌};
ghost use Rattle.sh_spell.specs.Turns.{turn_of, opener_turn_of, end_turn_of};

use sh_lexer::{End, Opener, Token};

/// What a token does to the text that is written.
#[derive(Clone, Copy, Debug, PartialEq, Eq, Drop)]
pub enum Turn {
    /// It stands in it.
    Stands,
    /// It ends a text in backquotes.
    Ends,
    /// It begins one.
    Begins,
}

pub fn token_turn(token: &Token) -> Turn
    ensures { result ≡ turn_of token.now }
{
    match token {
        Token::Operator(_) => Turn::Stands,
        Token::Part(_) => Turn::Stands,
        Token::Param(_, _) => Turn::Stands,
        Token::Open(opener, _) => opener_turn(opener),
        Token::End(end, _) => end_turn(*end),
        Token::Assign(_) => Turn::Stands,
        Token::Redirect(_, _) => Turn::Stands,
        Token::Here(_, _) => Turn::Stands,
        Token::Delimiter(_, _, _) => Turn::Stands,
        Token::Body => Turn::Stands,
        Token::Verbatim(_, _) => Turn::Stands,
        Token::Function(_) => Turn::Stands,
    }
}

fn opener_turn(opener: &Opener) -> Turn
    ensures { result ≡ opener_turn_of opener.now }
{
    match opener {
        Opener::Double => Turn::Stands,
        Opener::Braces { .. } => Turn::Stands,
        Opener::Command => Turn::Stands,
        Opener::Arith => Turn::Stands,
        Opener::Backquote => Turn::Begins,
    }
}

fn end_turn(end: End) -> Turn
    ensures { result ≡ end_turn_of end }
{
    match end {
        End::Word => Turn::Stands,
        End::Quote => Turn::Stands,
        End::Brace => Turn::Stands,
        End::Arith => Turn::Stands,
        End::List => Turn::Stands,
        End::Text => Turn::Ends,
        End::Newline => Turn::Stands,
    }
}
