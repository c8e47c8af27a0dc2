// The iterators over the pairs of a list and over its parts. They stand in a file of their own, since a struct with ghost fields imports what its
// file's clauses name, and the clauses of `lib.rt` speak of what is left of them.

ghost use Rattle.geometry.specs.Accepted.{AcceptedGeometry};
ghost use Rattle.writer.specs.Parts.{PassAt};

use crate::{Pair, leading};
use geometry::{DiscBit, Geometry};

// The pairs that are left of a list: an odd number at its end is none.
#[derive(Clone, Copy)]
pub struct Pairs<'a>(pub(crate) &'a [u32]);

impl<'a> Iterator for Pairs<'a> {
    ghost use Rattle.std.specs.Iterator.{YieldsFirstBy, item_count};
    ghost use Rattle.edits.specs.Judge.{pairs_from};
    ghost use Rattle.writer.specs.Listed.{as_pair};

    type Item = Pair;

    ghost next_gives = { YieldsFirstBy as_pair (λ s. pairs_from s.0.now) };

    ghost remaining = { item_count (λ s. pairs_from s.0.now) };

    fn next(&mut self) -> Option<Pair> {
        let [start, len, rest @ ..] = self.0 else {
            return None;
        };
        self.0 = rest;
        Some(Pair {
            start: DiscBit(*start),
            len: *len,
        })
    }
}

// The parts of a list in object order that are left, up to the last zone: the pairs of each zone from `zone` on. Clauses tell of a `Parts` by
// `parts_left`, the list of these parts.
//
// `rest` is what stands behind the part of the zone before. The zones before the start zone, in which the list's first pair lies, have their
// pairs at the list's end.
#[derive(Clone, Copy)]
pub struct Parts<'a> {
    pub(crate) geometry: Geometry,
    pub(crate) list: &'a [u32],
    pub(crate) start: usize,
    pub(crate) zone: usize,
    pub(crate) rest: &'a [u32],
    ghost numbers: { AcceptedGeometry geometry },
    ghost pass: { ∥ PassAt geometry list.now start zone rest.now ∥₁ },
}

impl<'a> Iterator for Parts<'a> {
    ghost use Rattle.std.specs.Iterator.{YieldsFirstRef, item_count};
    ghost use Rattle.writer.specs.PartsLeft.{parts_left};

    type Item = &'a [u32];

    ghost next_gives = { YieldsFirstRef parts_left };

    ghost remaining = { item_count parts_left };

    fn next(&mut self) -> Option<&'a [u32]> {
        let z = self.zone;
        if self.geometry.zones <= z {
            return None;
        }
        // At the start zone the pass goes back to the first pair.
        let from = if z == self.start {
            self.list
        } else {
            self.rest
        };
        let low = self.geometry.first_disc_bit(z);
        let high = self.geometry.first_disc_bit(z + 1);
        let (part, rest) = from.split_at(leading(from, low, high));
        self.rest = rest;
        self.zone = z + 1;
        Some(part)
    }
}
