//! Tables with an entry for each byte.

ghost use Rattle.std.specs.Prelude.{◌≡◌, ◌≢◌, ◌<◌, ℕ, Some, None, false, true, slice_index_or, unwrap_or};
ghost use Rattle.util_lines.specs.ByteSet.{has};
ghost use Rattle.util_lines.specs.Transliterate as spec;

/// Which bytes are in a set.
pub type Members = [bool; 256];

/// What each byte becomes; a byte without an entry stays.
pub type Images = [Option<u8>; 256];

/// The set without a byte.
fn no_members() -> Members
    ensures { (b : ℕ) → b < 256 → slice_index_or result b false ≡ false }
{
    [false; 256]
}

/// Whether a byte is in the set.
pub fn is_member(table: &Members, byte: u8) -> bool
    ensures { result ≡ slice_index_or table.now byte false }
{
    table[usize::from(byte)]
}

/// Puts a byte into the set.
fn add_member(table: &mut Members, byte: u8)
    ensures here { slice_index_or table.new byte false ≡ true }
    ensures others { (b : ℕ) → b ≢ byte → slice_index_or table.new b false ≡ slice_index_or table.old b false }
{
    table[usize::from(byte)] = true;
}

/// Which bytes are in a set: all of a list.
pub fn member_table(set: &[u8]) -> Members
    ensures { (b : ℕ) → b < 256 → slice_index_or result b false ≡ has set.now b }
{
    let mut table = no_members();
    'bytes: for byte in set {
        add_member(&mut table, *byte);
    }
    table
}

/// No byte has an image.
fn no_images() -> Images
    ensures { (b : ℕ) → b < 256 → slice_index_or result b None ≡ None }
{
    [None; 256]
}

/// The image of a byte, or the byte where it has none.
pub fn image_in(table: &Images, byte: u8) -> u8
    ensures { result ≡ unwrap_or (slice_index_or table.now byte None) byte }
{
    table[usize::from(byte)].unwrap_or(byte)
}

/// Gives a byte the first of these images, where there is one and it has none yet.
fn add_image(table: &mut Images, byte: u8, images: &[u8])
    ensures here { slice_index_or table.new byte None ≡ spec.first_or (slice_index_or table.old byte None) images.now }
    ensures others { (b : ℕ) → b ≢ byte → slice_index_or table.new b None ≡ slice_index_or table.old b None }
{
    if let [image, ..] = images {
        let at = usize::from(byte);
        table[at] = Some(table[at].unwrap_or(*image));
    }
}

/// What is left of a list behind its first byte, where the last byte is repeated.
fn behind_first(bytes: &[u8]) -> &[u8]
    ensures { result.now ≡ spec.behind_first bytes.now }
{
    match bytes {
        [_, rest @ ..] if !rest.is_empty() => rest,
        _ => bytes,
    }
}

/// What each byte becomes, where each of a first list becomes the one at its place in a second list, whose last byte is repeated.
/// The first place of a byte counts.
pub fn image_table(from: &[u8], to: &[u8]) -> Images
    ensures { (b : ℕ) → b < 256 → unwrap_or (slice_index_or result b None) b ≡ spec.image from.now to.now b }
{
    let mut table = no_images();
    let mut left = to;
    'bytes: for byte in from {
        add_image(&mut table, *byte, left);
        left = behind_first(left);
    }
    table
}
