//! The counts of `wc` (POSIX.1-2017, XCU, `wc`).

ghost use Rattle.std.specs.Prelude.{◌≡◌, ◌≤◌, length};
ghost use Rattle.util_text.specs.Counting as spec;

/// Newlines, words and bytes of a text, or of several: they are wide enough for any number of texts.
#[derive(Clone, Copy, Debug, PartialEq, Eq)]
pub struct Counts {
    pub lines: u128,
    pub words: u128,
    pub bytes: u128,
}

/// Both together. A count past the greatest one is that.
pub fn sum(a: &Counts, b: &Counts) -> Counts
    ensures { result ≡ spec.capped (spec.plus a.now b.now) }
{
    Counts {
        lines: a.lines.saturating_add(b.lines),
        words: a.words.saturating_add(b.words),
        bytes: a.bytes.saturating_add(b.bytes),
    }
}

/// 1 for a newline, else 0.
fn newline(byte: u8) -> usize
    ensures { result ≡ spec.newline byte }
{
    usize::from(byte == b'\n')
}

/// Whether the byte stands between words.
fn is_space(byte: u8) -> bool
    ensures { result ≡ spec.is_space byte }
{
    byte == b' ' || (9 <= byte && byte <= 13)
}

/// The counts of a text, in one pass.
pub fn count(text: &[u8]) -> Counts
    ensures { result ≡ spec.counts text.now }
{
    let mut lines: usize = 0;
    let mut words: usize = 0;
    let mut inside = false;
    'bytes: for byte in text {
        let space = is_space(*byte);
        lines += newline(*byte);
        if !inside && !space {
            words += 1;
        }
        inside = !space;
    }
    Counts {
        lines: lines as u128,
        words: words as u128,
        bytes: text.len() as u128,
    }
}

/// So many bytes are counted at a time in 8 bits, and so many of them at once by one machine instruction.
const PIECE: usize = 224;

/// How many newlines a piece has.
fn newlines_in(piece: &[u8]) -> u8
    requires { length piece.now ≤ 255 }
    ensures { result ≡ spec.newlines piece.now }
{
    let mut lines: u8 = 0;
    'bytes: for byte in piece {
        lines += u8::from(*byte == b'\n');
    }
    lines
}

/// How many newlines a text has.
fn count_newlines(text: &[u8]) -> usize
    ensures { result ≡ spec.newlines text.now }
{
    let mut lines: usize = 0;
    'pieces: for piece in text.chunks(PIECE) {
        lines += newlines_in(piece) as usize;
    }
    lines
}

/// The newlines and bytes of a text, whose words are not counted: it takes a fraction of the time of all counts.
pub fn count_lines(text: &[u8]) -> Counts
    ensures { result ≡ spec.without_words (spec.counts text.now) }
{
    Counts {
        lines: count_newlines(text) as u128,
        words: 0,
        bytes: text.len() as u128,
    }
}
