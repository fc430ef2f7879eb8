//! Numbers from bytes (ISO C, 6.4.4.1).

ghost use Rattle.std.specs.Prelude.{◌≡◌, ◌≤◌, ◌<◌, ◌^◌, length, IfSome};
ghost use Rattle.std.specs.List.{list_all, prefix_len};
ghost use Rattle.sh_arith.specs.Number as spec;

use hs_text::Text;

/// The greatest number of a constant.
const GREATEST: u64 = 0x7fff_ffff_ffff_ffff;

/// One more: without its sign the least number that a name may have.
const LEAST: u64 = 0x8000_0000_0000_0000;

pub fn blank(b: u8) -> bool
    ensures { result ≡ spec.blank b }
{
    matches!(b, b' ' | b'\t')
}

pub fn decimal(b: u8) -> bool
    ensures { result ≡ spec.decimal b }
{
    b.is_ascii_digit()
}

pub fn word_byte(b: u8) -> bool
    ensures { result ≡ spec.word_byte b }
{
    b.is_ascii_lowercase() || b.is_ascii_uppercase() || b.is_ascii_digit() || b == b'_'
}

/// How many bytes of a run come first.
pub fn run_len(text: &[u8]) -> usize
    ensures count { result ≡ prefix_len spec.word_byte text.now }
    ensures within { result ≤ length text.now }
{
    text.iter().take_while(|b| word_byte(**b)).count()
}

fn blanks(text: &[u8]) -> usize
    ensures count { result ≡ prefix_len spec.blank text.now }
    ensures within { result ≤ length text.now }
{
    text.iter().take_while(|b| blank(**b)).count()
}

fn worth(b: u8) -> u64
    ensures { result ≡ spec.worth b }
{
    if b.is_ascii_digit() {
        (b - b'0') as u64
    } else if b.is_ascii_lowercase() {
        (b - b'a' + 10) as u64
    } else if b.is_ascii_uppercase() {
        (b - b'A' + 10) as u64
    } else {
        36
    }
}

/// The number with one digit more, where it stays within the limit.
fn with_digit(base: u64, limit: u64, sofar: u64, b: u8) -> Option<u64>
    ensures { result ≡ spec.one_digit base limit sofar b }
{
    let digit = worth(b);
    if digit >= base {
        return None;
    }
    let number = sofar.checked_mul(base)?.checked_add(digit)?;
    if number <= limit { Some(number) } else { None }
}

fn digits(base: u64, limit: u64, bytes: &[u8]) -> Option<u64>
    requires { 0 < base }
    ensures { result ≡ spec.within limit (spec.digits base 0 bytes.now) }
{
    let mut number = 0;
    for b in bytes {
        match with_digit(base, limit, number, *b) {
            Some(more) => number = more,
            None => return None,
        }
    }
    Some(number)
}

fn hexadecimal(limit: u64, bytes: &[u8]) -> Option<u64>
    ensures { result ≡ spec.within limit (spec.hexadecimal bytes.now) }
{
    if bytes.is_empty() {
        return None;
    }
    digits(16, limit, bytes)
}

fn after_zero(limit: u64, bytes: &[u8]) -> Option<u64>
    ensures { result ≡ spec.within limit (spec.after_zero bytes.now) }
{
    match bytes {
        [b'x' | b'X', rest @ ..] => hexadecimal(limit, rest),
        _ => digits(8, limit, bytes),
    }
}

/// The number that a constant writes, up to the limit.
pub fn constant(limit: u64, bytes: &[u8]) -> Option<u64>
    ensures { result ≡ spec.within limit (spec.constant bytes.now) }
{
    match bytes {
        [] => None,
        [b'0', rest @ ..] => after_zero(limit, rest),
        _ => digits(10, limit, bytes),
    }
}

fn all_blank(text: &[u8]) -> bool
    ensures { result ≡ list_all spec.blank text.now }
{
    text.iter().all(|b| blank(*b))
}

/// A constant and blanks after it.
fn unsigned(limit: u64, text: &[u8]) -> Option<u64>
    ensures { result ≡ spec.within limit (spec.unsigned text.now) }
{
    let (run, rest) = text.split_at(run_len(text));
    if !all_blank(rest) {
        return None;
    }
    constant(limit, run)
}

fn positive(number: Option<u64>) -> Option<i64>
    requires { IfSome number (λ n. n < 2 ^ 63) }
    ensures { result ≡ spec.positive number }
{
    match number {
        Some(n) => Some(n as i64),
        None => None,
    }
}

fn negative(number: Option<u64>) -> Option<i64>
    requires { IfSome number (λ n. n ≤ 2 ^ 63) }
    ensures { result ≡ spec.negative number }
{
    match number {
        Some(LEAST) => Some(i64::MIN),
        Some(n) => Some(-(n as i64)),
        None => None,
    }
}

fn signed(text: &[u8]) -> Option<i64>
    ensures { result ≡ spec.signed text.now }
{
    match text {
        [] => None,
        [b'-', rest @ ..] => negative(unsigned(LEAST, rest)),
        [b'+', rest @ ..] => positive(unsigned(GREATEST, rest)),
        _ => positive(unsigned(GREATEST, text)),
    }
}

/// The number that the value of a name writes.
fn number_of(text: &[u8]) -> Option<i64>
    ensures { result ≡ spec.number_of text.now }
{
    signed(text.split_at(blanks(text)).1)
}

/// The number of a name by its value, if it has one.
pub fn value_of(value: &Option<Text>) -> Option<i64>
    ensures { result ≡ spec.value_of value.now }
{
    match value {
        None => Some(0),
        Some(text) => {
            if text.is_empty() {
                return Some(0);
            }
            number_of(text.as_slice())
        }
    }
}

/// The number of a constant in an expression.
pub fn literal(run: &[u8]) -> Option<i64>
    ensures { result ≡ spec.positive (spec.within spec.greatest (spec.constant run.now)) }
{
    positive(constant(GREATEST, run))
}
