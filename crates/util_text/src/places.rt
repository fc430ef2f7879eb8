//! The places that a list selects (POSIX.1-2017, XCU, `cut`).

ghost use Rattle.std.specs.Prelude.{◌≡◌, true};
ghost use Rattle.util_text.specs.Spans.{is_apart};

/// The places from `low` to `high`, both among them. The greatest count as `high` is no end.
#[derive(Clone, Copy)]
pub struct Span {
    pub low: usize,
    pub high: usize,
}

/// The places of a list, as spans in order, of which no two have a place in common.
#[derive(Drop)]
pub struct Selection {
    spans: Vec<Span>,
    ghost apart: { is_apart 0 spans.items ≡ true },
}

impl Selection {
    ghost use Rattle.util_text.specs.Selected.{shown};

    pub fn new(spans: Vec<Span>) -> Selection
        requires { is_apart 0 spans.items ≡ true }
        ensures { shown result ≡ spans.items }
    {
        Selection { spans }
    }

    pub fn spans(&self) -> &[Span]
        ensures spans { result.now ≡ shown self.now }
        ensures apart { is_apart 0 result.now ≡ true }
    {
        self.spans.as_slice()
    }
}
