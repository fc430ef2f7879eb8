//! Arithmetic expansion (POSIX.1-2017, XCU 2.6.4).

ghost use Rattle.std.specs.Prelude.{◌≡◌, IfOk};
ghost use Rattle.hs_view.specs.Acts.{Acts};
ghost use Rattle.sh_expand.specs.Sums as spec;

use hs_text::Text;
use hs_view::{Base, Halt, View};
use itoa::Buffer;
use sh_param::bare_message;
use sh_sum::{Sum, sum_in};
use std::alloc::{AllocError, Global};

/// The number in decimal digits, or the message on what has no number.
fn shown(alloc: Global, sum: Sum) -> Result<Result<Text, Text>, AllocError>
    ensures { IfOk result (λ text. text ≡ spec.shown sum) }
{
    match sum {
        Sum::Number(number) => {
            let mut buffer = Buffer::new();
            Ok(Ok(Text::from_slice(alloc, buffer.format(number).as_bytes())?))
        },
        Sum::Bad => Ok(Err(bare_message(alloc, b"bad arithmetic")?)),
        Sum::DivisionByZero => Ok(Err(bare_message(alloc, b"division by zero")?)),
        Sum::BadShift => Ok(Err(bare_message(alloc, b"bad shift")?)),
    }
}

/// The number of an expression, or the message on what has none.
pub fn summed<B: Base>(
    alloc: Global,
    text: &[u8],
    view: &mut View<B>,
) -> Result<Result<Text, Text>, Halt>
    ensures { Acts B.seen (spec.sums text.now) view.old view.new result }
{
    let sum = sum_in(alloc, text, view)?;
    let shown = shown(alloc, sum)?;
    Ok(shown)
}
