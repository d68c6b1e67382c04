//! A walk over parts of an image.
ghost use Rattle.std.specs.Prelude.{◌≡◌, ◌+◌, ◌<◌, ◌≤◌, ◌↔◌, length, take, drop, IsTrue, ℕ, List, slice_index};
ghost use Rattle.std.specs.Borrow.{sem};
ghost use Rattle.process_image.specs.Spans.{AreWithin, IsWalk};
ghost use Rattle.process_image.specs.Walked.{walked, FitSpans, StandIn, IsOutside};
ghost use Rattle.process_image.specs.declared.span.Span.{Span};

use crate::image::Image;
use crate::span::Span;

/// Parts of an image, lent for writing one after the other.
#[derive(Drop)]
pub struct Parts<'a> {
    pub image: &'a mut Image,
    pub spans: &'a [Span],
    pub place: usize,
    ghost within: { AreWithin spans.now (length image.now) },
}

impl<'a> Parts<'a> {
    ghost use Rattle.process_image.specs.Walk.{LendsNext, next_span};

    /// A walk before its first part.
    pub(crate) fn new(image: &'a mut Image, spans: &'a [Span]) -> Parts<'a>
        requires { IsWalk spans.now 0 (length image.old) }
        ensures image { result.image.ghost_name ≡ image.entry.ghost_name }
        ensures now { result.image.now ≡ image.old }
        ensures spans { result.spans.now ≡ spans.now }
        ensures place { result.place ≡ 0 }
    {
        Parts {
            image,
            spans,
            place: 0,
        }
    }

    /// Whether the last part was handed out.
    pub fn is_over(&self) -> bool
        ensures { IsTrue result ↔ (length self.now.spans.now ≤ self.now.place) }
    {
        self.spans.len() <= self.place
    }

    /// The next part. What stands in it at its end is the image's new content there, and all else stays.
    pub fn next(&mut self) -> &mut [u8]
        requires { self.old.place < length self.old.spans.now }
        ensures* lends { sem 𝓛 (LendsNext self.entry result) }
        ensures value { result.now
            ≡ take (next_span self.old).len (drop (next_span self.old).at self.old.image.now) }
    {
        let span = self.spans[self.place];
        self.place += 1;
        self.image.part_mut(span)
    }
}

/// After a whole walk each part stands at its span, whatever was written behind it.
pub fn each_part_stands()
    ensures { (bytes : List ℕ) (spans : List Span) (parts : List (List ℕ))
        → IsWalk spans 0 (length bytes) → FitSpans parts spans
        → StandIn (walked bytes spans parts) parts spans }
{}

/// After a whole walk every byte outside its spans is as it was.
pub fn all_else_stays()
    ensures { (bytes : List ℕ) (spans : List Span) (parts : List (List ℕ)) (k : ℕ)
        → IsWalk spans 0 (length bytes) → FitSpans parts spans → IsOutside k spans
        → slice_index (walked bytes spans parts) k ≡ slice_index bytes k }
{}
