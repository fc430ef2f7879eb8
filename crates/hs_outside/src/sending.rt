//! A whole piece into a sink.

ghost use Rattle.std.specs.Prelude.{◌≡◌, OnErr, OnOk};
ghost use Rattle.hs_outside.specs.Causes.{HasCause};
ghost use Rattle.hs_outside.specs.Streams.{IsCut, appended};

use crate::outside::{Failed, Sink};

/// Writes all of a piece, by as many calls as the sink needs. An empty piece makes no call.
#[tactic(auto, using(crate::proofs::Fronts::sent_more, crate::proofs::Fronts::sent_front))]
pub fn send<S: Sink>(sink: &mut S, piece: &[u8]) -> Result<(), Failed>
    ensures ok { OnOk result (S.written sink.new ≡ appended (S.written sink.old) piece.now) }
    ensures err { OnErr result (IsCut (S.written sink.old) (S.written sink.new) piece.now) }
    ensures cause { HasCause (S.faults sink.old) (S.faults sink.new) result }
{
    let mut sent = 0;
    while sent < piece.len() {
        match sink.write(piece.split_at(sent).1) {
            Ok(count) => sent += count as usize,
            Err(failed) => return Err(failed),
        }
    }
    Ok(())
}
