use crate::Overlay;
use hs_text::Text;
use hs_world::{Effect, Fd, Loc, Value};
use std::alloc::{AllocError, Global};
use std::test::Fail;

/// Whether standard input is shown to have these bytes.
fn has_input(overlay: &Overlay, bytes: &[u8]) -> bool {
    match overlay.own(&Loc::Input) {
        Ok(Some(Value::Input(text))) => text.as_slice() == bytes,
        _ => false,
    }
}

/// Whether nothing is known of standard input.
fn has_base_input(overlay: &Overlay) -> bool {
    match overlay.own(&Loc::Input) {
        Ok(None) => true,
        _ => false,
    }
}

fn pushed(alloc: Global, bytes: &[u8]) -> Result<Effect, AllocError> {
    Ok(Effect::PushInput(Text::from_slice(alloc, bytes)?))
}

/// Standard input as it is pushed, and after it is popped again.
fn inputs(overlay: &mut Overlay, effect: &Effect) -> Result<(bool, bool), AllocError> {
    overlay.step(effect)?;
    let shown = has_input(overlay, b"in");
    overlay.step(&Effect::PopInput)?;
    Ok((shown, has_base_input(overlay)))
}

#[test]
fn a_pushed_text_is_shown_until_it_is_popped(rt: HostRuntime) -> Result<(), Fail> {
    let effect = pushed(rt.alloc(), b"in")?;
    let mut overlay = Overlay::new(rt.alloc(), None, None);
    let seen = inputs(&mut overlay, &effect);
    assert!(rt; seen == Ok((true, true)));
    Ok(())
}

/// Whether bytes to the base leave open what is captured, and the status.
fn lacking(overlay: &mut Overlay, effect: &Effect) -> Result<(bool, bool), AllocError> {
    overlay.step(effect)?;
    Ok((overlay.lacks(&Loc::Captured)?, overlay.lacks(&Loc::Status)?))
}

#[test]
fn bytes_to_the_base_are_not_looked_after(rt: HostRuntime) -> Result<(), Fail> {
    let effect = Effect::Emit(Fd::One, Text::from_slice(rt.alloc(), b"a")?);
    let mut overlay = Overlay::new(rt.alloc(), None, None);
    let lacking = lacking(&mut overlay, &effect);
    assert!(rt; lacking == Ok((true, false)));
    Ok(())
}
