use crate::{Failed, Host, HostErr, MemoryHost, MemorySink, MemorySource, Source, send};
use hs_text::Text;
use hs_world::{Entry, PathName, Tree};
use std::alloc::{AllocError, Global};
use std::test::Fail;

#[test]
fn a_piece_goes_out_in_parts(rt: HostRuntime) -> Result<(), Fail> {
    let alloc = rt.alloc();
    let mut whole = MemorySink::new(alloc, 2, Vec::new(alloc))?;
    send(&mut whole, b"abcde")?;
    assert!(rt; whole.written() == b"abcde".as_slice());
    let mut cut = MemorySink::new(alloc, 2, vec![in alloc; 2]?)?;
    assert_eq!(rt; send(&mut cut, b"abcde"), Err(Failed::Fault));
    assert!(rt; cut.written() == b"ab".as_slice());
    assert_eq!(rt; send(&mut cut, b"f"), Ok(()));
    assert!(rt; cut.written() == b"abf".as_slice());
    Ok(())
}

#[test]
fn a_source_gives_in_steps_and_ends(rt: HostRuntime) -> Result<(), Fail> {
    let alloc = rt.alloc();
    let bytes = Text::from_slice(alloc, b"abc")?;
    let mut source = MemorySource::new(bytes, 2, vec![in alloc; 2]?)?;
    let front = source.take(alloc, 9)?.ok_or("nothing was given")?;
    assert!(rt; front.as_slice() == b"ab".as_slice());
    assert!(rt; source.take(alloc, 9).is_err());
    let rest = source.take(alloc, 9)?.ok_or("nothing was given")?;
    assert!(rt; rest.as_slice() == b"c".as_slice());
    assert!(rt; source.take(alloc, 9)?.is_none());
    Ok(())
}

/// A tree of one folder.
fn one_folder(alloc: Global) -> Result<Tree, AllocError> {
    let root = PathName::root(alloc);
    let mut tree = Tree::new(alloc);
    if let Some(path) = PathName::resolve(alloc, &root, b"/d")? {
        let _ = tree.insert(path, Entry::Dir);
    }
    Ok(tree)
}

fn loads_one(alloc: Global, host: &mut MemoryHost) -> bool {
    match host.load(alloc) {
        Ok(tree) => tree.len() == 1,
        Err(_) => false,
    }
}

fn fails(alloc: Global, host: &mut MemoryHost) -> bool {
    match host.load(alloc) {
        Ok(_) => false,
        Err(error) => error == HostErr::Fault,
    }
}

#[test]
fn files_are_loaded_once_a_call_does_not_fail(rt: HostRuntime) -> Result<(), Fail> {
    let alloc = rt.alloc();
    let mut host = MemoryHost::new(one_folder(alloc)?, vec![in alloc; 1]?)?;
    assert!(rt; fails(alloc, &mut host));
    assert!(rt; loads_one(alloc, &mut host));
    Ok(())
}
