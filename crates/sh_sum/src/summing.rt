//! The number of an expression.

ghost use Rattle.std.specs.Prelude.{◌≡◌, []};
ghost use Rattle.hs_view.specs.Acts.{Acts};
ghost use Rattle.sh_arith.specs.Exec.{going};
ghost use Rattle.sh_sum.specs.Sums as spec;
ghost use Rattle.sh_sum.specs.Turns.{rest_done};

use crate::sum::Sum;
use crate::turn::Turn;
use crate::turning::turn;
use hs_view::{Base, Halt, View};
use sh_arith::{Instr, ReadErr, Stack, read, take};
use std::alloc::Global;

/// Does all instructions, each of which is met once.
fn run_all<B: Base>(alloc: Global, code: &[Instr], view: &mut View<B>) -> Result<Sum, Halt>
    ensures { Acts B.seen (rest_done code.now (going [])) view.old view.new result }
{
    let mut values = Stack::new(alloc);
    let mut skipped = None;
    'code: for instr in code {
        let turned = turn(alloc, instr, skipped, values, view)?;
        match turned {
            Turn::On(then, left) => {
                skipped = then;
                values = left;
            }
            Turn::Ended(sum) => return Ok(sum),
        }
    }
    Ok(Sum::Number(take(&mut values)))
}

/// Arithmetic expansion (POSIX.1-2017, XCU 2.6.4): what an expression, after the expansions in it, comes to.
///
/// A variable is read where the evaluation meets it, and an assignment is put where it is made: it gives the variable the number
/// in decimal, and keeps its marks. What `&&`, `||` and `?:` do not need reads and assigns nothing. What is assigned before an
/// error stays assigned. A text that is no expression reads and assigns nothing.
///
/// The text is read in time linear in its bytes, and each of its operators and names is met once. It comes to a halt where a
/// read or an effect of the view does, or for want of memory.
pub fn sum_in<B: Base>(alloc: Global, text: &[u8], view: &mut View<B>) -> Result<Sum, Halt>
    ensures acts { Acts B.seen (spec.sum_done text.now) view.old view.new result }
    ensures trees { spec.AreTrees }
{
    match read(alloc, text) {
        Ok(code) => run_all(alloc, code.as_slice(), view),
        Err(ReadErr::Bad(_)) => Ok(Sum::Bad),
        Err(ReadErr::Memory) => Err(Halt::NoMemory),
    }
}
