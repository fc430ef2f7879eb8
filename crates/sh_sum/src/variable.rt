//! Variables as the names of an expression.

ghost use Rattle.std.specs.Prelude.{◌≡◌, IfOk};
ghost use Rattle.std.specs.Fmt.{signed_decimal};
ghost use Rattle.sh_arith.specs.Number.{value_of};
ghost use Rattle.sh_sum.specs.Sums as spec;

use hs_text::Text;
use hs_world::Var;
use sh_arith::value_of;
use std::alloc::{AllocError, Global};

/// The number of a variable. One without a value is 0, and one whose value is no number has none.
pub fn number_of(var: Option<Var>) -> Option<i64>
    ensures { result ≡ value_of (spec.value_in var) }
{
    match var {
        Some(var) => value_of(&var.value),
        None => Some(0),
    }
}

fn is_exported(var: &Option<Var>) -> bool
    ensures { result ≡ spec.is_exported var.now }
{
    match var {
        Some(var) => var.exported,
        None => false,
    }
}

pub fn is_readonly(var: &Option<Var>) -> bool
    ensures { result ≡ spec.is_readonly var.now }
{
    match var {
        Some(var) => var.readonly,
        None => false,
    }
}

fn decimal(alloc: Global, number: i64) -> Result<Text, AllocError>
    ensures { IfOk result (λ digits. digits ≡ signed_decimal number) }
{
    let digits = format!(in alloc; "{number}")?;
    Text::from_slice(alloc, digits.as_bytes())
}

/// A variable with a number as its value. Its marks stay.
pub fn assigned(alloc: Global, var: &Option<Var>, number: i64) -> Result<Var, AllocError>
    ensures { IfOk result (λ new. new ≡ spec.assigned_var var.now number) }
{
    let digits = decimal(alloc, number)?;
    Ok(Var {
        value: Some(digits),
        exported: is_exported(var),
        readonly: is_readonly(var),
    })
}
