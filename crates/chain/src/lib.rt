// The free fragments of a map whose zones can be read, as spans of disc bits, one at a time: `spans` and `spans_from` are the iterators that callers
// go over. Below them is the walk along each zone's chain: fragments that are owned are not read at all, so what it costs grows with the free
// fragments, not with all of them.
#![tactic(auto)]

ghost use Rattle.std.specs.Prelude.{◌≡◌, ◌≢◌, ◌+◌, ◌^◌, ◌<◌, ◌≤◌, MatchOption};
ghost use Rattle.geometry.specs.Places.{zone_of, disc_bits};
ghost use Rattle.model.specs.Chain.{onward};
ghost use Rattle.map.specs.Accepted.{ReadableFrom};
ghost use Rattle.walk.specs.HeldBy.{held_from, held_between};
ghost use Rattle.chain.specs.SpansLeft.{spans_left, LeftFrom};
ghost use Rattle.chain.specs.FreeAhead.{StandsFree, FreeStarts, FreeAdvances, PassesTo};

mod iter;

pub use crate::iter::{Span, Spans};
use fragment::link_from;
use geometry::{BlockBit, DiscBit, Geometry};

// Where a walk stands: at the free fragment that starts at `at` in a zone.
#[derive(Clone, Copy)]
struct FreeWalk {
    zone: usize,
    at: BlockBit,
}

// The free spans of the zones from z on, ascending.
#[tactic(auto, unfolding(crate::specs::SpansLeft::spans_left))]
pub fn spans<'a>(map: &'a [u8], g: Geometry, z: usize) -> Spans<'a>
    requires { ReadableFrom map.now g z }
    ensures from_zone { spans_left result ≡ held_between g 0 map.now z g.zones }
    ensures all { z ≡ 0 → spans_left result ≡ held_from g 0 map.now 0 g.zones }
{
    Spans {
        map,
        geometry: g,
        at: from_zone(map, g, z),
    }
}

// The free spans of a disc bit's zone and of the zones after it, ascending, but for some that end at the bit or before it.
#[tactic(auto, unfolding(crate::specs::SpansLeft::spans_left))]
pub fn spans_from<'a>(map: &'a [u8], g: Geometry, d: DiscBit) -> Spans<'a>
    requires { ReadableFrom map.now g (zone_of g d.0) × (d.0 ≤ disc_bits g) }
    ensures { LeftFrom map.now g d.0 result }
{
    let first = from_zone(map, g, g.zone_of(d));
    Spans {
        map,
        geometry: g,
        at: first.map(|walk| pass_to(map, g, walk, d)),
    }
}

// A walk that stands at the first free fragment of the zones from z on, if there is one. Its loop counts by hand since
// must-fail/every_other_zone turns the step.
fn from_zone(map: &[u8], g: Geometry, z: usize) -> Option<FreeWalk>
    requires { ReadableFrom map.now g z }
    ensures { FreeStarts map.now g z result }
{
    let mut zone = z;
    while zone < g.zones {
        let at = zone::first_free(walk::block(map, g, zone));
        if at.0 != 0 {
            return Some(FreeWalk { zone, at });
        }
        zone += 1;
    }
    None
}

// The free fragment at which a walk stands, and where the walk stands after it: the link leads to the next one, or on to the zones after this one.
fn step(map: &[u8], g: Geometry, w: FreeWalk) -> (Span, Option<FreeWalk>)
    requires { StandsFree map.now g w }
    ensures { FreeAdvances map.now g w result.0 result.1 }
{
    let FreeWalk { zone, at } = w;
    let end = g.zone_end();
    let fragment = fragment::whole_fragment(walk::block(map, g, zone), at, end, g.idlen);
    let span = Span {
        start: g.disc_bit(zone, at),
        len: fragment.len as u32,
    };
    match linked_from(at, fragment.id) {
        Some(at) => (span, Some(FreeWalk { zone, at })),
        None => (span, from_zone(map, g, zone + 1)),
    }
}

// A walk that has passed over free fragments of its zone which end at disc bit d or before it: while the next one starts there or before. Only
// links are read, no lengths.
fn pass_to(map: &[u8], g: Geometry, w: FreeWalk, d: DiscBit) -> FreeWalk
    requires { StandsFree map.now g w }
    ensures { PassesTo map.now g d.0 w result }
{
    let FreeWalk { zone, mut at } = w;
    let block = walk::block(map, g, zone);
    while let Some(linked) = linked_from(at, bits::number(block, at.0, g.idlen)) {
        if d < g.disc_bit(zone, linked) {
            break;
        }
        at = linked;
    }
    FreeWalk { zone, at }
}

// Where the id of the free fragment at `at` leads.
fn linked_from(at: BlockBit, id: u32) -> Option<BlockBit>
    requires { at.0 + id < 2 ^ 64 }
    ensures { MatchOption result (onward at.0 id ≡ 0) (λ next. (next.0 ≡ onward at.0 id) × (next.0 ≢ 0)) }
{
    let linked = link_from(at, id as usize);
    (linked.0 != 0).then_some(linked)
}
