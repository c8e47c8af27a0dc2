// The free spans of a map as an iterator: the walk along the chains, a span at a time.
ghost use Rattle.std.specs.Prelude.{IfSome};
ghost use Rattle.chain.specs.FreeAhead.{StandsFree};

use crate::{FreeWalk, step};
use geometry::{DiscBit, Geometry};

// A free fragment, by its first disc bit and its length.
#[derive(Clone, Copy, Debug, PartialEq, Eq)]
pub struct Span {
    pub start: DiscBit,
    pub len: u32,
}

// The free spans that are left, ascending: a walk stands at the first of them, if there is one. Clauses tell of a `Spans` by `spans_left`, the list of
// these spans. Its ghost field is truncated, so that a caller's proof does not take all that it says of the map along.
#[derive(Clone, Copy)]
pub struct Spans<'a> {
    pub(crate) map: &'a [u8],
    pub(crate) geometry: Geometry,
    pub(crate) at: Option<FreeWalk>,
    ghost stands: { ∥ IfSome at (StandsFree map.now geometry) ∥₁ },
}

impl<'a> Iterator for Spans<'a> {
    ghost use Rattle.std.specs.Iterator.{YieldsFirstBy, item_count};
    ghost use Rattle.chain.specs.SpansLeft.{span_pair, spans_left};

    type Item = Span;

    ghost next_gives = { YieldsFirstBy span_pair spans_left };

    ghost remaining = { item_count spans_left };

    #[tactic(auto, unfolding(crate::specs::SpansLeft::spans_left, crate::specs::FreeAhead::free_ahead))]
    fn next(&mut self) -> Option<Span> {
        let (span, after) = step(self.map, self.geometry, self.at?);
        self.at = after;
        Some(span)
    }
}
