use crate::{Field, Fields, Text, TextList};
use std::test::Fail;

#[test]
fn texts_hold_a_few_bytes_and_many(rt: HostRuntime) -> Result<(), Fail> {
    let alloc = rt.alloc();
    let mut text = Text::new(alloc);
    assert!(rt; text.is_empty());
    for _ in 0..10 {
        text.extend(b"0123456789")?;
    }
    let copy = text.clone()?;
    text.extend(b"!")?;
    assert_eq!(rt; copy.len(), 100);
    assert_eq!(rt; text.len(), 101);
    assert!(rt; copy < text);
    assert!(rt; Text::from_vec(alloc, copy.as_slice().to_vec(alloc)?)? == copy);
    assert!(rt; Text::from_slice(alloc, b"ab")?.as_slice() == b"ab".as_slice());
    Ok(())
}

#[test]
fn lists_grow_at_the_end(rt: HostRuntime) -> Result<(), Fail> {
    let alloc = rt.alloc();
    let mut texts = TextList::new(alloc);
    texts.push(Text::from_slice(alloc, b"a")?)?;
    assert_eq!(rt; texts.clone()?.as_slice().len(), 1);
    let mut field = Field::new(alloc);
    field.push(b'*', true)?;
    let mut fields = Fields::new(alloc);
    fields.push(field.clone()?)?;
    assert_eq!(rt; fields.clone()?.as_slice().len(), 1);
    assert_eq!(rt; field.as_slice().len(), 1);
    Ok(())
}

#[test]
fn parts_are_the_bytes_between_two_places(rt: HostRuntime) -> Result<(), Fail> {
    let alloc = rt.alloc();
    let mut text = Text::new(alloc);
    for _ in 0..10 {
        text.extend(b"0123456789")?;
    }
    assert_eq!(rt; text.len(), 100);
    let mut part = text.part(41, 100)?;
    assert_eq!(rt; part.len(), 59);
    assert!(rt; part.clone()?.part(2, 5)?.as_slice() == b"345".as_slice());
    assert!(rt; part.part(9, 59)?.as_slice() == text.part(50, 100)?.as_slice());
    part.extend(b"!")?;
    assert_eq!(rt; part.len(), 60);
    Ok(())
}
