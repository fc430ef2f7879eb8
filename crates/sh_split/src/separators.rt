//! The bytes of IFS.

ghost use Rattle.std.specs.Prelude.{◌≡◌, ◌≢◌, ◌<◌, ℕ, true, false, option_copied, slice_index_or};
ghost use Rattle.sh_split.specs.Fields as spec;

/// Which bytes are in IFS: a field is split in time linear in its bytes, however long IFS is.
pub type Separators = [bool; 256];

/// The bytes of IFS. Where it is unset, they are space, tab and newline.
fn bytes_of(ifs: Option<&[u8]>) -> &[u8]
    ensures { result.now ≡ spec.ifs_bytes (option_copied ifs.entry) }
{
    match ifs {
        Some(bytes) => bytes,
        None => b" \t\n",
    }
}

fn no_separators() -> Separators
    ensures { (b : ℕ) → b < 256 → slice_index_or result b false ≡ false }
{
    [false; 256]
}

fn add(table: &mut Separators, byte: u8)
    ensures here { slice_index_or table.new byte false ≡ true }
    ensures others { (b : ℕ) → b ≢ byte → slice_index_or table.new b false ≡ slice_index_or table.old b false }
{
    table[usize::from(byte)] = true;
}

fn table_of(bytes: &[u8]) -> Separators
    ensures { (b : ℕ) → b < 256 → slice_index_or result b false ≡ spec.delimits bytes.now b }
{
    let mut table = no_separators();
    'bytes: for byte in bytes {
        add(&mut table, *byte);
    }
    table
}

pub fn separators(ifs: Option<&[u8]>) -> Separators
    ensures { (b : ℕ) → b < 256 → slice_index_or result b false ≡ spec.delimits (spec.ifs_bytes (option_copied ifs.entry)) b }
{
    table_of(bytes_of(ifs))
}

pub fn delimits(table: &Separators, byte: u8) -> bool
    ensures { result ≡ slice_index_or table.now byte false }
{
    table[usize::from(byte)]
}

/// Space, tab and newline.
pub fn is_white(byte: u8) -> bool
    ensures { result ≡ spec.is_white byte }
{
    byte == b' ' || byte == b'\t' || byte == b'\n'
}
