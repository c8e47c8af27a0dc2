// The iterator over lines. It stands in a file of its own, since a struct with ghost fields imports what its file's clauses name, and the clauses of
// `lib.rt` speak of what is left of it.

ghost use Rattle.std.specs.Prelude.{◌≤◌};
ghost use Rattle.walk.specs.Remaining.{Stands};
ghost use Rattle.walk.specs.OneProof.{props};

use crate::{Line, Walk, next};
use geometry::Geometry;

// The lines that are left, up to zone `to`. A walk stands at the first of them. Clauses tell of a `Lines` by `lines_left`, the list of these lines.
#[derive(Clone, Copy)]
pub struct Lines<'a> {
    pub(crate) map: &'a [u8],
    pub(crate) geometry: Geometry,
    pub(crate) to: usize,
    pub(crate) at: Walk,
    ghost within: { to ≤ geometry.zones },
    ghost stands: { Stands map.now geometry at } by { Prim.hlevel props },
}

impl<'a> Iterator for Lines<'a> {
    ghost use Rattle.std.specs.Iterator.{YieldsFirst, item_count};
    ghost use Rattle.walk.specs.LinesLeft.{lines_left};

    type Item = Line;

    ghost next_gives = { YieldsFirst lines_left };

    ghost remaining = { item_count lines_left };

    fn next(&mut self) -> Option<Line> {
        if self.to <= self.at.zone {
            return None;
        }
        let step = next(self.map, self.geometry, self.at);
        self.at = step.after;
        Some(step.line)
    }
}
