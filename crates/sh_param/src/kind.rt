//! Which parameter a name names (POSIX.1-2017, XCU 2.5).

ghost use Rattle.std.specs.Prelude.{◌≡◌, ◌+◌, ◌*◌, ◌-◌, ◌^◌, min};
ghost use Rattle.sh_param.specs.Kinds as spec;

/// What a name names.
#[derive(Clone, Copy, Debug, PartialEq, Eq)]
pub enum Kind {
    /// `@`
    At,
    /// `*`
    Star,
    /// `#`
    Count,
    /// `?`
    Status,
    /// A positional parameter, or `0`.
    Position,
    Variable,
}

fn is_digit(byte: u8) -> bool
    ensures { result ≡ spec.is_digit byte }
{
    byte >= b'0' && byte <= b'9'
}

fn special(byte: u8) -> Kind
    ensures { result ≡ spec.special byte }
{
    match byte {
        b'@' => Kind::At,
        b'*' => Kind::Star,
        b'#' => Kind::Count,
        b'?' => Kind::Status,
        _ => Kind::Variable,
    }
}

/// What the name names: digits are a positional parameter.
pub fn kind_of(name: &[u8]) -> Kind
    ensures { result ≡ spec.kind_of name.now }
{
    match name {
        [] => Kind::Variable,
        [first, rest @ ..] => {
            if is_digit(*first) {
                Kind::Position
            } else if rest.is_empty() {
                special(*first)
            } else {
                Kind::Variable
            }
        }
    }
}

/// The number with one digit more, or the greatest number where it is greater.
fn more(number: u128, digit: u8) -> u128
    ensures { result ≡ min (min (number * 10) (2 ^ 128 - 1) + (digit - 48)) (2 ^ 128 - 1) }
{
    number
        .saturating_mul(10)
        .saturating_add(u128::from(digit.saturating_sub(b'0')))
}

/// The number of a positional parameter, or the greatest number where it is greater.
pub fn position(name: &[u8]) -> u128
    ensures { result ≡ min (spec.number 0 name.now) (2 ^ 128 - 1) }
{
    let mut number: u128 = 0;
    for byte in name {
        number = more(number, *byte);
    }
    number
}
