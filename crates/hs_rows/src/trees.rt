//! What a tree of entries takes.

use hs_world::{Entry, PathName, Text, Tree, TreeErr};
use std::alloc::{AllocError, Global};
use std::test::Fail;

fn path(alloc: Global, text: &str) -> Result<PathName, AllocError> {
    let root = PathName::root(alloc);
    match PathName::resolve(alloc, &root, text.as_bytes())? {
        Some(path) => Ok(path),
        None => Ok(root),
    }
}

/// What comes of an entry at the path that a text names.
fn insert(alloc: Global, tree: &mut Tree, text: &str, entry: Entry) -> Result<(), TreeErr> {
    match path(alloc, text) {
        Ok(path) => tree.insert(path, entry),
        Err(_) => Err(TreeErr::NoMemory),
    }
}

/// Whether a path in no folder is refused, and then a path that is taken, and else an entry comes.
fn takes_in_order(alloc: Global, tree: &mut Tree, file: Entry) -> bool {
    insert(alloc, tree, "/a/b", Entry::Dir) == Err(TreeErr::NoParent)
        && insert(alloc, tree, "/a", Entry::Dir) == Ok(())
        && insert(alloc, tree, "/a", Entry::Other) == Err(TreeErr::Taken)
        && insert(alloc, tree, "/a/b", file) == Ok(())
        && insert(alloc, tree, "/a/b/c", Entry::Dir) == Err(TreeErr::NoParent)
        && insert(alloc, tree, "/", Entry::Dir) == Err(TreeErr::Taken)
}

#[test]
fn an_entry_needs_a_folder_and_a_free_path(rt: HostRuntime) -> Result<(), Fail> {
    let alloc = rt.alloc();
    let file = Entry::File(Text::from_slice(alloc, b"xyz")?);
    let mut tree = Tree::new(alloc);
    assert!(rt; takes_in_order(alloc, &mut tree, file));
    assert_eq!(rt; tree.len(), 2);
    assert_eq!(rt; tree.bytes(), 3);
    Ok(())
}
