use crate::{
    AndOr, Command, Compound, Join, List, Part, Pipeline, Redir, RedirOp, Script, Word, same,
};
use hs_text::Text;
use sqlite_items::Items;
use std::alloc::{AllocError, Global};
use std::test::Fail;

/// `"TEXT"`.
fn quoted(alloc: Global, text: &[u8]) -> Result<Word, AllocError> {
    let mut inner = Items::new(alloc);
    inner.push(Part::Plain(Text::from_slice(alloc, text)?))?;
    let mut parts = Items::new(alloc);
    parts.push(Part::Double(inner))?;
    Ok(Word { parts })
}

/// `"TEXT" >"FILE"`.
fn pipeline(alloc: Global, text: &[u8], file: &[u8]) -> Result<Pipeline, AllocError> {
    let mut words = Items::new(alloc);
    words.push(quoted(alloc, text)?)?;
    let mut redirs = Items::new(alloc);
    redirs.push(Redir {
        fd: 1,
        op: RedirOp::Write,
        word: quoted(alloc, file)?,
    })?;
    let mut stages = Items::new(alloc);
    stages.push(Command::Simple {
        assigns: Items::new(alloc),
        words,
        redirs,
    })?;
    Ok(Pipeline {
        bang: false,
        stages,
    })
}

/// `"echo" >"f" && "TEXT" >"FILE"`, or the same with `||`.
fn script(alloc: Global, join: Join, text: &[u8], file: &[u8]) -> Result<Script, AllocError> {
    let mut leaves = Items::new(alloc);
    leaves.push(pipeline(alloc, b"echo", b"f")?)?;
    leaves.push(pipeline(alloc, text, file)?)?;
    let mut rest = Items::new(alloc);
    rest.push((join, 1))?;
    let mut items = Items::new(alloc);
    items.push(AndOr { first: 0, rest })?;
    let mut lists = Items::new(alloc);
    lists.push(List { items })?;
    Ok(Script {
        lists,
        bodies: Items::new(alloc),
        leaves,
    })
}

#[test]
fn scripts_are_the_same_in_each_part(rt: HostRuntime) -> Result<(), Fail> {
    let alloc = rt.alloc();
    let first = script(alloc, Join::And, b"pwd", b"g")?;
    for (join, text, file, wanted) in [
        (Join::And, "pwd", "g", true),
        (Join::And, "pwx", "g", false),
        (Join::And, "pw", "g", false),
        (Join::And, "", "g", false),
        (Join::And, "pwd", "h", false),
        (Join::Or, "pwd", "g", false),
    ] {
        let second = script(alloc, join, text.as_bytes(), file.as_bytes())?;
        assert_eq!(rt; same(&first, &second), wanted);
        assert_eq!(rt; same(&second, &first), wanted);
    }
    Ok(())
}

#[test]
fn copies_are_the_same(rt: HostRuntime) -> Result<(), Fail> {
    let alloc = rt.alloc();
    let first = script(alloc, Join::And, b"pwd", b"g")?;
    assert!(rt; same(&first, &first.copy(alloc)?));
    assert!(rt; matches!(Part::Escaped(1).copy(alloc)?, Part::Escaped(1)));
    assert!(rt; matches!(Compound::Group(1).copy(alloc)?, Compound::Group(1)));
    Ok(())
}
