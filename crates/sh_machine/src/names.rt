//! Names (POSIX.1-2017, XBD 3.235).

ghost use Rattle.std.specs.Prelude.{◌≡◌};
ghost use Rattle.sh_lexer.specs.Bytes as spec;

fn begins_name(byte: u8) -> bool
    ensures { result ≡ spec.begins_name byte }
{
    byte.is_ascii_alphabetic() || byte == b'_'
}

fn all_in_name(bytes: &[u8]) -> bool
    ensures { result ≡ spec.all_in_name bytes.now }
{
    let mut left = bytes;
    while let [byte, after @ ..] = left {
        if !(begins_name(*byte) || byte.is_ascii_digit()) {
            return false;
        }
        left = after;
    }
    true
}

/// Whether the bytes are a name. Each is looked at once.
pub fn is_name(bytes: &[u8]) -> bool
    ensures { result ≡ spec.is_name bytes.now }
{
    let [first, rest @ ..] = bytes else {
        return false;
    };
    begins_name(*first) && all_in_name(rest)
}
