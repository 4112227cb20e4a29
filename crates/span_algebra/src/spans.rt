// Normal lists of spans.
ghost use Rattle.std.specs.Prelude.{◌≡◌, ◌↔◌, ◌+◌, ◌<◌, ◌++◌, ◌∷◌, ℕ, [], length, take, IsTrue};
ghost use Rattle.std.specs.Prelude.{OnOk, OnErr, IfOk, IfSome, IfNone, IsOkUnless};
ghost use Rattle.span_algebra.specs.Normal.{IsNormal, IsFirstBad, covers};

use crate::{ListRefused, Point};
use rt_base::OutOfMemory;
use std::alloc::Global;
use std::marker::Model;

/// The span `(after, until]`: the points after `after`, up to and with `until`. It is empty unless
/// `after` is below `until`.
#[derive(Clone, Copy, Debug, PartialEq, Eq)]
pub struct Span {
    /// The point before its first.
    pub after: Point,
    /// Its last point.
    pub until: Point,
}

/// A normal list of spans: they rise, none is empty, and no two touch or overlap.
#[derive(Debug, Drop)]
pub struct Spans {
    alloc: Global,
    spans: Vec<Span>,
}

impl Model for Spans {
    ghost use Rattle.std.specs.Prelude.{List};
    ghost use Rattle.span_algebra.specs.declared.spans.Span.{Span};
    ghost use Rattle.span_algebra.specs.Normal.{IsNormal};

    ghost Value = { List Span };

    ghost view = { λ s. s.spans.items };

    ghost invariant = { λ s. IsNormal s.spans.items };
}

// Whether the list is normal up to and with this place, where it is normal before it.
fn is_normal_with(list: &[Span], place: usize) -> bool
    requires within { place < length list.now }
    requires before { IsNormal (take place list.now) }
    ensures { IsTrue result ↔ IsNormal (take (place + 1) list.now) }
{
    let span = list[place];
    span.after < span.until && (place == 0 || list[place - 1].until < span.after)
}

// The place of the first span that is empty, or that touches or overlaps the one before it.
fn first_not_normal(list: &[Span]) -> Option<usize>
    ensures bad { IfSome result (IsFirstBad IsNormal list.now) }
    ensures normal { IfNone result (IsNormal list.now) }
{
    for place in 0..list.len() {
        if !is_normal_with(list, place) {
            return Some(place);
        }
    }
    None
}

impl Spans {
    /// No span. It keeps the allocator for copies, and takes no memory.
    pub fn new(alloc: Global) -> Spans
        ensures { result ≡ [] }
    {
        Spans {
            alloc,
            spans: Vec::new(alloc),
        }
    }

    /// A copy of a list, if it is normal. Another is refused as `NotNormal`, at its first span that
    /// is empty, or that touches or overlaps the one before it. A normal one is refused only as
    /// `OutOfMemory`.
    pub fn from_list(alloc: Global, list: &[Span]) -> Result<Spans, ListRefused>
        ensures ok { IfOk result (λ spans. spans ≡ list.now) }
        ensures normal { OnOk result (IsNormal list.now) }
        ensures taken { IsNormal list.now → IsOkUnless result ListRefused.OutOfMemory }
        ensures not_normal { (place : ℕ) → (result ≡ Err (ListRefused.NotNormal place))
            ↔ IsFirstBad IsNormal list.now place }
    {
        if let Some(place) = first_not_normal(list) {
            return Err(ListRefused::NotNormal { place });
        }
        match Vec::from_slice(alloc, list) {
            Ok(spans) => Ok(Spans { alloc, spans }),
            Err(_) => Err(ListRefused::OutOfMemory),
        }
    }

    /// The spans of a vector, which have to be a normal list. Nothing is copied: it takes no
    /// memory.
    pub fn of(alloc: Global, spans: Vec<Span>) -> Spans
        requires { IsNormal spans.items }
        ensures { result ≡ spans.items }
    {
        Spans { alloc, spans }
    }

    /// Puts a span after the others. `OutOfMemory` leaves the spans as they were.
    pub fn push(&mut self, span: Span) -> Result<(), OutOfMemory>
        requires { IsNormal (self.old ++ span ∷ []) }
        ensures pushed { OnOk result (self.new ≡ self.old ++ span ∷ []) }
        ensures refused { OnErr result (self.new ≡ self.old) }
    {
        self.spans.push(span)?;
        Ok(())
    }

    /// The same spans again, or `OutOfMemory`.
    pub fn copy(&self) -> Result<Spans, OutOfMemory>
        ensures { IfOk result (λ spans. spans ≡ self.now) }
    {
        let spans = Vec::from_slice(self.alloc, self.spans.as_slice())?;
        Ok(Spans {
            alloc: self.alloc,
            spans,
        })
    }

    /// The spans, in rising order. It takes no memory.
    pub fn as_slice(&self) -> &[Span]
        ensures list { result.now ≡ self.now }
        ensures normal { IsNormal self.now }
    {
        self.spans.as_slice()
    }

    /// Whether some span has the point: it lies after the span's `after`, up to and with its
    /// `until`. The search goes by halves, and takes no memory.
    pub fn holds(&self, at: Point) -> bool
        ensures { result ≡ covers self.now at }
    {
        let place = self.spans.partition_point(|span| span.until < at);
        self.spans.get(place).is_some_and(|span| span.after < at)
    }
}
