//! The variables that a script finds (POSIX.1-2017, XCU 2.5.3 and XBD 8.1).

ghost use Rattle.std.specs.Prelude.{◌≡◌, [], ◌∷◌, ◌++◌, IfOk, OnOk, false};
ghost use Rattle.sh_lexer.specs.Bytes as name;
ghost use Rattle.hs_main.specs.Start as spec;

use hs_text::Text;
use hs_world::Var;
use std::alloc::{AllocError, Global};

fn begins_name(byte: u8) -> bool
    ensures { result ≡ name.begins_name byte }
{
    byte.is_ascii_alphabetic() || byte == b'_'
}

fn all_in_name(bytes: &[u8]) -> bool
    ensures { result ≡ name.all_in_name bytes.now }
{
    let mut left = bytes;
    while let [byte, after @ ..] = left {
        if !(begins_name(*byte) || byte.is_ascii_digit()) {
            return false;
        }
        left = after;
    }
    true
}

/// Whether the bytes are a name (XBD 3.235).
fn is_name(bytes: &[u8]) -> bool
    ensures { result ≡ name.is_name bytes.now }
{
    let [first, rest @ ..] = bytes else {
        return false;
    };
    begins_name(*first) && all_in_name(rest)
}

fn valued(exported: bool, text: Text) -> Var
    ensures { result ≡ spec.valued exported text }
{
    Var {
        value: Some(text),
        exported,
        readonly: false,
    }
}

/// A variable that the program sets itself.
fn own_var(alloc: Global, name: &[u8], value: &[u8]) -> Result<(Text, Var), AllocError>
    ensures { IfOk result (λ var. var ≡ (name.now, spec.valued false value.now)) }
{
    let name = Text::from_slice(alloc, name)?;
    let value = Text::from_slice(alloc, value)?;
    Ok((name, valued(false, value)))
}

/// Puts an entry of the environment behind the variables, where its name is one.
fn inherit(vars: &mut Vec<(Text, Var)>, entry: &(Text, Text)) -> Result<(), AllocError>
    ensures { OnOk result (vars.new.items ≡ vars.old.items ++ spec.inherited (entry.now ∷ [])) }
{
    if !is_name(entry.0.as_slice()) {
        return Ok(());
    }
    let name = entry.0.clone()?;
    let value = entry.1.clone()?;
    vars.push((name, valued(true, value)))?;
    Ok(())
}

/// The variables of a state in which a script begins. Of a name that stands twice the first counts.
pub fn first_vars(alloc: Global, env: &[(Text, Text)]) -> Result<Vec<(Text, Var)>, AllocError>
    ensures { IfOk result (λ vars. vars.items ≡ spec.first_vars env.now) }
{
    let mut vars = Vec::new(alloc);
    vars.push(own_var(alloc, b"IFS", b" \t\n")?)?;
    vars.push(own_var(alloc, b"PWD", b"/")?)?;
    for entry in env {
        inherit(&mut vars, entry)?;
    }
    Ok(vars)
}
