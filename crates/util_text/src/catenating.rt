//! `cat` (POSIX.1-2017, XCU, `cat`).

ghost use Rattle.std.specs.Prelude.{◌≡◌, Err};
ghost use Rattle.hs_view.specs.Acts.{Acts};
ghost use Rattle.util_text.specs.Cat as spec;

use hs_text::{Text, TextList};
use hs_view::{Base, Halt, View};
use std::alloc::{AllocError, Global};
use util_common::{Filter, filter_files, read_words, refuse_words};
use util_opts::Options;

/// Each content as it is.
#[derive(Drop)]
struct Unchanged;

impl Filter for Unchanged {
    ghost use Rattle.std.specs.Prelude.{◌≡◌};
    ghost use Rattle.util_text.specs.Cat.{unchanged};

    ghost writes = { λ _ text before. text ≡ unchanged };

    fn filter(&mut self, _word: &Text, content: Text) -> Result<Text, AllocError> {
        Ok(content)
    }
}

/// Writes the contents, one after another, of which each is read after the ones before it are written.
fn copy_files<B: Base>(alloc: Global, operands: TextList, view: &mut View<B>) -> Result<u8, Halt>
    ensures { Acts B.seen (spec.files_written operands) view.old view.new result }
{
    filter_files(alloc, b"cat", operands, &mut Unchanged, view)
}

/// Writes the contents of its operands, in order. `-` is standard input, which is read too where there is no operand. The status
/// is 1 where an operand is no file, and 2 where the words are refused.
pub fn cat<B: Base>(alloc: Global, args: &TextList, view: &mut View<B>) -> Result<u8, Halt>
    ensures { Acts B.seen (spec.cat args.now) view.old view.new result }
{
    match read_words(alloc, &[(b'u', false)], args) {
        Ok(words) => {
            let Options { given: _, operands } = words;
            copy_files(alloc, operands, view)
        }
        Err(err) => refuse_words(alloc, b"cat", err, view),
    }
}
