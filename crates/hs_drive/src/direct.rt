//! The committed state with the program's streams, as a base that writes.

ghost use Rattle.std.specs.Prelude.{◌≡◌, ◌≤◌};
ghost use Rattle.hs_outside.specs.Causes.{Rose};
ghost use Rattle.hs_drive.specs.Commit.{Streams};
ghost use Rattle.hs_drive.specs.Through.{Writes, target_of, text_of};

use crate::stop::kind_of;
use hs_outside::{Failed, Sink, send};
use hs_text::TextList;
use hs_view::{Base, Halt};
use hs_world::{Effect, Fd, Loc, Reply, Value, World, WorldErr};

/// A state, told, that has each effect at once. What an effect writes goes to its stream before the next effect comes. It runs no
/// programs.
pub struct Direct<O: Sink, E: Sink> {
    pub world: World,
    pub out: O,
    pub err: E,
    /// How many writes failed. The count stays at the last number of 64 bits.
    pub faults: u64,
}

/// The stream that an effect writes to.
fn target_of(world: &World, effect: &Effect) -> Option<Fd>
    ensures { result ≡ target_of effect.now world.now }
{
    match effect {
        Effect::Emit(fd, _) => world.stream(*fd),
        _ => None,
    }
}

/// What an effect writes there.
fn text_of(effect: &Effect) -> &[u8]
    ensures { result.now ≡ text_of effect.now }
{
    match effect {
        Effect::Emit(_, text) => text.as_slice(),
        _ => &[],
    }
}

/// Writes a text to this one of the streams.
fn write_through<O: Sink, E: Sink>(
    to: Option<Fd>,
    text: &[u8],
    out: &mut O,
    err: &mut E,
) -> Result<(), Failed>
    ensures writes { Writes (Rose (O.faults out.old) (O.faults out.new)) (Rose (E.faults err.old) (E.faults err.new)) to text.now
        (record { out = O.written out.old; err = E.written err.old }) (record { out = O.written out.new; err = E.written err.new }) result }
    ensures out_later { O.faults out.old ≤ O.faults out.new }
    ensures err_later { E.faults err.old ≤ E.faults err.new }
{
    match to {
        Some(Fd::One) => send(out, text),
        Some(Fd::Two) => send(err, text),
        None => Ok(()),
    }
}

impl<O: Sink, E: Sink> Base for Direct<O, E> {
    ghost use Rattle.hs_drive.specs.Direct.{shows_direct, told};

    ghost seen = { shows_direct (told O.written O.faults) (told E.written E.faults) };

    fn writes(&self) -> bool {
        true
    }

    fn get(&mut self, loc: &Loc) -> Result<Value, Halt> {
        Ok(self.world.at(loc)?)
    }

    fn push(&mut self, effect: &Effect) -> Result<(), Halt> {
        let to = target_of(&self.world, effect);
        match self.world.apply(effect) {
            Ok(()) => {}
            Err(WorldErr::Full(limit)) => return Err(Halt::Spent(kind_of(limit))),
            Err(WorldErr::NoMemory) => return Err(Halt::NoMemory),
        }
        match write_through(to, text_of(effect), &mut self.out, &mut self.err) {
            Ok(()) => Ok(()),
            Err(Failed::NoMemory) => Err(Halt::NoMemory),
            Err(Failed::Fault) => {
                self.faults = self.faults.saturating_add(1);
                Err(Halt::Fault)
            }
        }
    }

    fn ask(&mut self, _argv: &TextList) -> Result<Reply, Halt> {
        Err(Halt::Outside)
    }
}
