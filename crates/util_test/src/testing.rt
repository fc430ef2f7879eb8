//! `test` and `[` (POSIX.1-2017, XCU, `test`).

ghost use Rattle.std.specs.Prelude.{◌≡◌, option_copied};
ghost use Rattle.hs_view.specs.Acts.{Acts};
ghost use Rattle.hs_view.specs.Steps.{nothing};
ghost use Rattle.hs_world.specs.Files.{bytes_of, entry_at};
ghost use Rattle.util_test.specs.Testing as spec;

use crate::expression::{Asked, Property, Sort, read_expression};
use crate::operator::is;
use hs_text::{Text, TextList};
use hs_view::{Base, Halt, View};
use hs_world::{Kind, PathName};
use std::alloc::Global;
use util_common::{Why, refuse};

/// Whether entries of a kind are of this sort.
fn is_sort(sort: Sort, kind: Kind) -> bool
    ensures { result ≡ spec.is_sort sort kind }
{
    match sort {
        Sort::Any => !matches!(kind, Kind::Absent),
        Sort::File => matches!(kind, Kind::File),
        Sort::Folder => matches!(kind, Kind::Dir),
    }
}

/// Whether there are bytes.
fn has_bytes(bytes: Option<Text>) -> bool
    ensures { result ≡ spec.has_bytes bytes }
{
    match bytes {
        Some(bytes) => !bytes.is_empty(),
        None => false,
    }
}

/// Whether a path has a file that is not empty.
fn has_bytes_at<B: Base>(path: &PathName, view: &mut View<B>) -> Result<bool, Halt>
    ensures { Acts B.seen (λ w. nothing (spec.has_bytes (bytes_of (entry_at w.tree path.now))) w) view.old view.new result }
{
    let bytes = view.bytes(path)?;
    Ok(has_bytes(bytes))
}

/// Whether a path has an entry of this sort.
fn is_sort_at<B: Base>(sort: Sort, path: &PathName, view: &mut View<B>) -> Result<bool, Halt>
    ensures { Acts B.seen (λ w. nothing (spec.has (Property.Is sort) (entry_at w.tree path.now)) w) view.old view.new result }
{
    let kind = view.kind(path)?;
    Ok(is_sort(sort, kind))
}

fn has_at<B: Base>(property: Property, path: &PathName, view: &mut View<B>) -> Result<bool, Halt>
    ensures { Acts B.seen (λ w. nothing (spec.has property (entry_at w.tree path.now)) w) view.old view.new result }
{
    match property {
        Property::Is(sort) => is_sort_at(sort, path, view),
        Property::HasBytes => has_bytes_at(path, view),
    }
}

/// The same, if there is a path.
fn has_in<B: Base>(
    property: Property,
    path: Option<PathName>,
    view: &mut View<B>,
) -> Result<bool, Halt>
    ensures { Acts B.seen (λ w. nothing (spec.has property (spec.entry_in w.tree path)) w) view.old view.new result }
{
    match path {
        Some(path) => has_at(property, &path, view),
        None => Ok(false),
    }
}

/// Whether the path that a word names, seen from the current folder, has the property.
fn has_named<B: Base>(
    alloc: Global,
    property: Property,
    word: &Text,
    view: &mut View<B>,
) -> Result<bool, Halt>
    ensures { Acts B.seen (λ w. nothing (spec.has_named property word.now w) w) view.old view.new result }
{
    let cwd = view.cwd()?;
    let path = PathName::resolve(alloc, &cwd, word.as_slice())?;
    has_in(property, path, view)
}

/// Whether what is asked holds.
fn holds<B: Base>(alloc: Global, asked: &Asked, view: &mut View<B>) -> Result<bool, Halt>
    ensures { Acts B.seen (λ w. nothing (spec.holds asked.now w) w) view.old view.new result }
{
    match asked {
        Asked::Known(answer) => Ok(*answer),
        Asked::Has(property, word) => has_named(alloc, *property, word, view),
        Asked::Lacks(property, word) => Ok(!has_named(alloc, *property, word, view)?),
    }
}

/// The status that tells an answer.
fn status_of(answer: bool) -> u8
    ensures { result ≡ spec.status_of answer }
{
    if answer { 0 } else { 1 }
}

/// The status that tells whether what is asked holds.
fn tell<B: Base>(alloc: Global, asked: &Asked, view: &mut View<B>) -> Result<u8, Halt>
    ensures { Acts B.seen (λ w. nothing (spec.status_of (spec.holds asked.now w)) w) view.old view.new result }
{
    let answer = holds(alloc, asked, view)?;
    Ok(status_of(answer))
}

/// The status of an expression.
fn tested<B: Base>(
    alloc: Global,
    utility: &[u8],
    words: &[Text],
    view: &mut View<B>,
) -> Result<u8, Halt>
    ensures { Acts B.seen (spec.tested utility.now words.now) view.old view.new result }
{
    let asked = read_expression(words)?;
    match asked {
        Some(asked) => tell(alloc, &asked, view),
        None => refuse(alloc, utility, Why::BadExpression, view),
    }
}

/// Answers 0 where the expression that its words are holds, and 1 where it does not. Words that are no expression, and words in
/// the place of numbers that write none of 64 bits, are refused with status 2.
pub fn test_<B: Base>(alloc: Global, args: &TextList, view: &mut View<B>) -> Result<u8, Halt>
    ensures { Acts B.seen (spec.test_ args.now) view.old view.new result }
{
    tested(alloc, b"test", args.as_slice(), view)
}

/// The words before the last one, where that is `]`.
fn closed<'a>(last: &Text, front: &'a [Text]) -> Option<&'a [Text]>
    ensures { option_copied result ≡ spec.closed last.now front.now }
{
    if is(last.as_slice(), b"]") {
        Some(front)
    } else {
        None
    }
}

/// The words before a last `]`.
fn bracketed(words: &[Text]) -> Option<&[Text]>
    ensures { option_copied result ≡ spec.bracketed words.now }
{
    match words.split_last() {
        Some((last, front)) => closed(last, front),
        None => None,
    }
}

/// The same as `test` of the words before its last one, which must be `]`.
pub fn bracket<B: Base>(alloc: Global, args: &TextList, view: &mut View<B>) -> Result<u8, Halt>
    ensures { Acts B.seen (spec.bracket args.now) view.old view.new result }
{
    match bracketed(args.as_slice()) {
        Some(words) => tested(alloc, b"[", words, view),
        None => refuse(alloc, b"[", Why::BadExpression, view),
    }
}
