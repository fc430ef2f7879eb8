//! Lists of places in the words of `cut` (POSIX.1-2017, XCU, `cut`).

ghost use Rattle.std.specs.Prelude.{◌≡◌, ◌<◌, ℕ, List, true, Some, IfOk, IfErr, map, option_map};
ghost use Rattle.util_text.specs.Count.{number};
ghost use Rattle.util_text.specs.Places as spec;
ghost use Rattle.util_text.specs.Places.{Range};
ghost use Rattle.util_text.specs.Refusals.{Refuses};
ghost use Rattle.util_text.specs.Selected.{Selects};
ghost use Rattle.util_text.specs.Spans.{Ascend, is_apart, in_spans, span_of};

use crate::fault::TextErr;
use crate::number::{is_greater, read_count};
use crate::part::split_item;
use crate::places::{Selection, Span};
use memchr::memchr;
use std::alloc::{AllocError, Global};

/// The range between two numbers, where it has a place and is no falling one.
fn bounded(low: &[u8], high: &[u8]) -> Option<Span>
    ensures { result ≡ option_map span_of (spec.bounded (number low.now) (number high.now)) }
{
    let first = read_count(low).ok()?;
    let last = read_count(high).ok()?;
    if first == 0 || is_greater(low, high) {
        return None;
    }
    Some(Span {
        low: first,
        high: last,
    })
}

/// The range from a number on, where it has a place.
fn unbounded(low: &[u8]) -> Option<Span>
    ensures { result ≡ option_map span_of (spec.unbounded (number low.now)) }
{
    let first = read_count(low).ok()?;
    if first == 0 {
        return None;
    }
    Some(Span {
        low: first,
        high: usize::MAX,
    })
}

/// The range that is written by what stands before and behind a `-`.
fn range_with(low: &[u8], high: &[u8]) -> Option<Span>
    ensures { result ≡ option_map span_of (spec.range_with low.now (Some high.now)) }
{
    if low.is_empty() {
        bounded(b"1", high)
    } else if high.is_empty() {
        unbounded(low)
    } else {
        bounded(low, high)
    }
}

/// The range that an item writes: `N`, `N-M`, `N-` or `-M`.
fn read_range(item: &[u8]) -> Option<Span>
    ensures { result ≡ option_map span_of (spec.range_of item.now) }
{
    match memchr(b'-', item) {
        Some(at) => range_with(item.split_at(at).0, item.split_at(at + 1).1),
        None => bounded(item, item),
    }
}

/// The ranges of a list, in its order.
fn read_spans(alloc: Global, word: &[u8]) -> Result<Vec<Span>, TextErr>
    ensures ok { IfOk result (λ spans. option_map (λ ranges. map span_of ranges) (spec.list_of word.now) ≡ Some spans.items) }
    ensures fault { IfErr result (λ e. Refuses e (spec.list_of word.now)) }
{
    let mut spans = Vec::new(alloc);
    let mut rest = Some(word);
    'items: while let Some(list) = rest {
        let (item, behind) = split_item(list);
        match read_range(item) {
            Some(span) => spans.push(span).map_err(AllocError::from)?,
            None => return Err(TextErr::BadList),
        }
        rest = behind;
    }
    Ok(spans)
}

/// The places of these spans, which stand in the order of their first places, without those that an earlier span has.
fn trimmed(alloc: Global, spans: &[Span]) -> Result<Vec<Span>, AllocError>
    requires { Ascend 0 spans.now }
    ensures apart { IfOk result (λ kept. is_apart 0 kept.items ≡ true) }
    ensures same { IfOk result (λ kept. (place : ℕ) → 0 < place → in_spans kept.items place ≡ in_spans spans.now place) }
{
    let mut kept = Vec::new(alloc);
    let mut end = 0;
    'spans: for span in spans {
        if end < span.high && span.low <= span.high {
            let low = span.low.max(end + 1);
            let high = span.high;
            kept.push(Span { low, high })?;
            end = high;
        }
    }
    Ok(kept)
}

/// The spans in the order of their first places.
fn sort(spans: &mut Vec<Span>)
    ensures order { Ascend 0 spans.new.items }
    ensures same { (place : ℕ) → in_spans spans.new.items place ≡ in_spans spans.old.items place }
{
    spans.sort_unstable_by_key(|span| span.low);
}

/// The selection that a list writes: numbers of any length, from 1, alone or as ranges, parted by commas or blanks. An empty item,
/// a falling range, the number 0 and any other byte make a bad list. Its time is that of a sort of the ranges.
pub fn read_list(alloc: Global, word: &[u8]) -> Result<Selection, TextErr>
    ensures ok { IfOk result (λ selection. (ranges : List Range) × (spec.list_of word.now ≡ Some ranges) × Selects selection ranges) }
    ensures fault { IfErr result (λ e. Refuses e (spec.list_of word.now)) }
{
    let mut spans = read_spans(alloc, word)?;
    sort(&mut spans);
    let spans = trimmed(alloc, spans.as_slice())?;
    Ok(Selection::new(spans))
}
