//! `true` and `false` (POSIX.1-2017, XCU, `true` and `false`).

ghost use Rattle.hs_view.specs.Acts.{Acts};
ghost use Rattle.util_test.specs.Constant as spec;

use hs_text::TextList;
use hs_view::{Base, Halt, View};
use std::alloc::Global;

/// Answers 0, whatever its words.
pub fn true_<B: Base>(_alloc: Global, _args: &TextList, _view: &mut View<B>) -> Result<u8, Halt>
    ensures { Acts B.seen (spec.true_ _args.now) _view.old _view.new result }
{
    Ok(0)
}

/// Answers 1, whatever its words.
pub fn false_<B: Base>(_alloc: Global, _args: &TextList, _view: &mut View<B>) -> Result<u8, Halt>
    ensures { Acts B.seen (spec.false_ _args.now) _view.old _view.new result }
{
    Ok(1)
}
