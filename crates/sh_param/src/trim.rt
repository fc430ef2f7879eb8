//! Prefixes and suffixes that are removed from values (POSIX.1-2017, XCU 2.6.2).

ghost use Rattle.std.specs.Prelude.{◌≡◌, ◌≤◌, ◌++◌, length, IfOk, IfSome};
ghost use Rattle.sh_param.specs.Trims as spec;

use crate::value::ParamValue;
use hs_text::{Field, Text, TextList};
use sh_pattern::{
    Pattern, compile, largest_prefix, largest_suffix, smallest_prefix, smallest_suffix,
};
use sh_syntax::ParamOp;
use std::alloc::{AllocError, Global};

/// How long the part is that is removed, where one matches.
fn part_of(op: ParamOp, pattern: &Pattern, text: &[u8]) -> Option<usize>
    ensures part { result ≡ spec.part_of op pattern.now text.now }
    ensures within { IfSome result (λ size. size ≤ length text.now) }
{
    match op {
        ParamOp::SmallPrefix => smallest_prefix(pattern, text),
        ParamOp::LargePrefix => largest_prefix(pattern, text),
        ParamOp::SmallSuffix => smallest_suffix(pattern, text),
        ParamOp::LargeSuffix => largest_suffix(pattern, text),
        ParamOp::Value => None,
        ParamOp::Length => None,
        ParamOp::Default => None,
        ParamOp::Assign => None,
        ParamOp::Error => None,
        ParamOp::Alternative => None,
    }
}

fn is_prefix(op: ParamOp) -> bool
    ensures { result ≡ spec.is_prefix op }
{
    op == ParamOp::SmallPrefix || op == ParamOp::LargePrefix
}

/// A text without a prefix or a suffix of this length.
fn without(text: &Text, front: bool, size: Option<usize>) -> Result<Text, AllocError>
    requires { IfSome size (λ n. n ≤ length text.now) }
    ensures { IfOk result (λ rest. rest ≡ spec.without front size text.now) }
{
    match size {
        None => text.clone(),
        Some(size) => {
            if front {
                text.part(size, text.len())
            } else {
                text.part(0, text.len() - size)
            }
        }
    }
}

/// A text without the part that the pattern matches.
fn trim(op: ParamOp, pattern: &Pattern, text: &Text) -> Result<Text, AllocError>
    ensures { IfOk result (λ rest. rest ≡ spec.trim op pattern.now text.now) }
{
    let size = part_of(op, pattern, text.as_slice());
    without(text, is_prefix(op), size)
}

fn trim_all(
    alloc: Global,
    op: ParamOp,
    pattern: &Pattern,
    texts: &[Text],
) -> Result<TextList, AllocError>
    ensures { IfOk result (λ rests. rests ≡ spec.trim_all op pattern.now texts.now) }
{
    let mut rests = TextList::new(alloc);
    for text in texts {
        rests.push(trim(op, pattern, text)?)?;
    }
    Ok(rests)
}

fn trim_value(
    alloc: Global,
    op: ParamOp,
    pattern: &Pattern,
    value: &ParamValue,
) -> Result<ParamValue, AllocError>
    ensures { IfOk result (λ rest. rest ≡ spec.trim_value op pattern.now value.now) }
{
    match value {
        ParamValue::Unset => Ok(ParamValue::Unset),
        ParamValue::One(text) => {
            let text = trim(op, pattern, text)?;
            Ok(ParamValue::One(text))
        }
        ParamValue::Each { star, texts } => {
            let texts = trim_all(alloc, op, pattern, texts.as_slice())?;
            Ok(ParamValue::Each { star: *star, texts })
        }
    }
}

/// A value without the part that the field matches as a pattern: of `%` the smallest suffix, of `%%` the largest one, and
/// of `#` and `##` a prefix. Of `$@` and `$*` it is each parameter without it. The rest shares the bytes of the value.
pub fn trimmed(
    alloc: Global,
    op: ParamOp,
    field: &Field,
    value: &ParamValue,
) -> Result<ParamValue, AllocError>
    ensures { IfOk result (λ rest. rest ≡ spec.trimmed op field.now value.now) }
{
    let pattern = compile(alloc, field)?;
    trim_value(alloc, op, &pattern, value)
}
