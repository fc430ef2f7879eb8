//! The parts of a path that is written (POSIX.1-2017, XCU, `basename` and `dirname`).

ghost use Rattle.std.specs.Prelude.{◌≡◌};
ghost use Rattle.util_print.specs.Naming as spec;

use memchr::memrchr;

/// A text without the slashes at its end.
fn without_slashes(text: &[u8]) -> &[u8]
    ensures { result.now ≡ spec.without_slashes text.now }
{
    let mut rest = text;
    'slashes: while let Some((last, front)) = rest.split_last() {
        if *last != b'/' {
            return rest;
        }
        rest = front;
    }
    rest
}

/// What stands behind the last slash.
fn behind_slash(text: &[u8]) -> &[u8]
    ensures { result.now ≡ spec.behind_slash text.now }
{
    match memrchr(b'/', text) {
        Some(at) => text.split_at(at + 1).1,
        None => text,
    }
}

/// The text, or a slash where it is empty.
fn or_slash(text: &[u8]) -> &[u8]
    ensures { result.now ≡ spec.or_slash text.now }
{
    if text.is_empty() { b"/" } else { text }
}

/// The last component of a path that is written. It is empty where the path is.
pub fn name_of(path: &[u8]) -> &[u8]
    ensures { result.now ≡ spec.name_of path.now }
{
    if path.is_empty() {
        return path;
    }
    or_slash(behind_slash(without_slashes(path)))
}

/// A name without this suffix, unless that is all of it.
pub fn without_suffix<'a>(name: &'a [u8], suffix: &[u8]) -> &'a [u8]
    ensures { result.now ≡ spec.without_suffix suffix.now name.now }
{
    match name.strip_suffix(suffix) {
        Some(stem) if !stem.is_empty() => stem,
        _ => name,
    }
}

/// The folder of a path without slashes at its end.
fn folder_in(path: &[u8]) -> &[u8]
    ensures { result.now ≡ spec.folder_in path.now }
{
    if path.is_empty() {
        return b"/";
    }
    match memrchr(b'/', path) {
        Some(at) => or_slash(without_slashes(path.split_at(at).0)),
        None => b".",
    }
}

/// The folder that a path which is written names: what stands before the last component, without slashes at its end.
pub fn folder_of(path: &[u8]) -> &[u8]
    ensures { result.now ≡ spec.folder_of path.now }
{
    if path.is_empty() {
        return b".";
    }
    folder_in(without_slashes(path))
}
