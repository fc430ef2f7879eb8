//! How a text is read as a path.

use hs_world::PathName;
use std::alloc::{AllocError, Global};
use std::process::Abort;
use std::test::Fail;

/// A path as it is written from the root.
fn written(alloc: Global, path: &PathName) -> Result<Vec<u8>, AllocError> {
    let mut bytes = Vec::new(alloc);
    for name in path.names() {
        bytes.push(b'/')?;
        bytes.extend_from_slice(name.as_slice())?;
    }
    Ok(bytes)
}

/// The path that a text names from a folder, as it is written from the root.
fn named(alloc: Global, cwd: &[u8], text: &[u8]) -> Result<Option<Vec<u8>>, AllocError> {
    let root = PathName::root(alloc);
    let Some(cwd) = PathName::resolve(alloc, &root, cwd)? else {
        return Ok(None);
    };
    match PathName::resolve(alloc, &cwd, text)? {
        Some(path) => Ok(Some(written(alloc, &path)?)),
        None => Ok(None),
    }
}

/// A folder, a text, and the path that the text names there.
type Row = (&'static str, &'static str, &'static str);

const NAMED: [Row; 14] = [
    ("/", "a", "/a"),
    ("/", "/", ""),
    ("/", "//", ""),
    ("/d", "a/b", "/d/a/b"),
    ("/d", "a//b/", "/d/a/b"),
    ("/d", "/a", "/a"),
    ("/d", ".", "/d"),
    ("/d", "./.", "/d"),
    ("/d", "..", ""),
    ("/d", "..//./e/", "/e"),
    ("/d", "/..", ""),
    ("/d/e", "../../../x", "/x"),
    ("/d", "a/./b/../c", "/d/a/c"),
    ("/d", "...", "/d/..."),
];

fn compare(rt: &impl Abort, alloc: Global, rows: &[Row]) -> Result<(), Fail> {
    for (cwd, text, whole) in rows {
        let path = named(alloc, cwd.as_bytes(), text.as_bytes())?;
        assert!(rt;
            path.is_some_and(|path| path.as_slice() == whole.as_bytes()),
            "{cwd} {text}"
        );
    }
    Ok(())
}

#[test]
fn texts_name_paths(rt: HostRuntime) -> Result<(), Fail> {
    compare(&rt, rt.alloc(), &NAMED)
}

/// Whether a text of so many bytes `a`, with a byte before it, names a path from the root.
fn is_long_named(alloc: Global, first: u8, count: usize) -> Result<bool, AllocError> {
    let mut bytes = vec![in alloc; b'a'; count]?;
    bytes.push(first)?;
    Ok(named(alloc, b"/", &bytes)?.is_some())
}

#[test]
fn texts_that_name_no_path(rt: HostRuntime) -> Result<(), Fail> {
    let alloc = rt.alloc();
    assert!(rt; named(alloc, b"/", b"")?.is_none());
    assert!(rt; named(alloc, b"/", b"a\0b")?.is_none());
    assert!(rt; named(alloc, b"/", b"\xff")?.is_none());
    assert!(rt; is_long_named(alloc, b'a', 254)?);
    assert!(rt; !is_long_named(alloc, b'a', 255)?);
    Ok(())
}

/// Whether a text of so many slashes names a path.
fn is_named_by_slashes(alloc: Global, count: usize) -> Result<bool, AllocError> {
    let bytes = vec![in alloc; b'/'; count]?;
    Ok(named(alloc, b"/", &bytes)?.is_some())
}

#[test]
fn a_text_of_4096_bytes_is_the_longest_path(rt: HostRuntime) -> Result<(), Fail> {
    let alloc = rt.alloc();
    assert!(rt; is_named_by_slashes(alloc, 4096)?);
    assert!(rt; !is_named_by_slashes(alloc, 4097)?);
    Ok(())
}
