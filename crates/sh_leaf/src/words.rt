//! What the words of a simple command become (POSIX.1-2017, XCU 2.6).

ghost use Rattle.std.specs.Prelude.{◌≡◌};
ghost use Rattle.hs_view.specs.Acts.{Acts};
ghost use Rattle.sh_leaf.specs.Expanding as spec;

use hs_text::{Fields, Text, TextList};
use hs_view::{Base, Halt, View};
use sh_expand::{Expanded, Expansion, expand};
use sh_glob::paths;
use sh_param::Context;
use sh_syntax::Word;
use std::alloc::Global;

fn told(alloc: Global, expanded: Expanded) -> Result<Fields, Text>
    ensures { result ≡ spec.fields_told expanded }
{
    match expanded {
        Expanded::Fields(fields) => Ok(fields),
        Expanded::Wants(_) => Err(Text::new(alloc)),
        Expanded::Error(why) => Err(why),
    }
}

/// The fields of words, or the message that says why there are none. `$?` gives the status.
pub fn fields_of<B: Base>(
    alloc: Global,
    words: &[Word],
    context: Context,
    status: u8,
    view: &mut View<B>,
) -> Result<Result<Fields, Text>, Halt>
    ensures { Acts B.seen (spec.fields_of words.now context status) view.old view.new result }
{
    let mut going = Expansion::new(words, context, Some(status));
    let expanded = expand(alloc, &mut going, None, view)?;
    Ok(told(alloc, expanded))
}

fn paths_come<B: Base>(
    alloc: Global,
    fields: &Fields,
    view: &mut View<B>,
) -> Result<Result<TextList, Text>, Halt>
    ensures { Acts B.seen (spec.paths_come fields.now) view.old view.new result }
{
    let texts = paths(alloc, fields, view)?;
    Ok(Ok(texts))
}

/// The texts of a command's words: expanded, split, with pathnames, and without quotes.
pub fn texts_of<B: Base>(
    alloc: Global,
    words: &[Word],
    status: u8,
    view: &mut View<B>,
) -> Result<Result<TextList, Text>, Halt>
    ensures { Acts B.seen (spec.texts_of words.now status) view.old view.new result }
{
    let came = fields_of(alloc, words, Context::Command, status, view)?;
    match came {
        Ok(fields) => paths_come(alloc, &fields, view),
        Err(why) => Ok(Err(why)),
    }
}
