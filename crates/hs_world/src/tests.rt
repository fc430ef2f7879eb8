use crate::{Effect, Effects, Loc, Reads, Value};
use std::test::Fail;

#[test]
fn effects_are_listed_in_order(rt: HostRuntime) -> Result<(), Fail> {
    let mut effects = Effects::new(rt.alloc());
    effects.push(Effect::SetStatus(3))?;
    assert_eq!(rt; effects.as_slice().len(), 1);
    Ok(())
}

#[test]
fn reads_are_found_by_their_locations(rt: HostRuntime) -> Result<(), Fail> {
    let mut reads = Reads::new(rt.alloc());
    reads.record(Loc::Status, Value::Status(3))?;
    assert!(rt; reads.find(&Loc::Status).is_some());
    Ok(())
}
