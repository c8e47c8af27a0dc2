// The fragments of a map whose zones can be read, as lines, one at a time and zone by zone: `lines` is the iterator that callers go over. Below it
// is the one walk over a map, by value: a place among the fragments, and a step from one to the next; a zone's end leads on to the next zone.
#![tactic(auto)]

ghost use Rattle.std.specs.Prelude.{◌≡◌, cond, ◌-◌, ◌*◌, ◌<◌, ◌≤◌, length};
ghost use Rattle.model.specs.Chain.{touching};
ghost use Rattle.model.specs.Rules.{zone_block};
ghost use Rattle.model.specs.Shown.{zones_of};
ghost use Rattle.map.specs.Accepted.{ReadableFrom, AcceptedMap};
ghost use Rattle.walk.specs.Touching.{touching_of};
ghost use Rattle.walk.specs.LinesLeft.{lines_left};
ghost use Rattle.walk.specs.Remaining.{lines_from, Stands, Passing, Starts, Advances, Settles};

use fragment::next_after;
use geometry::{BlockBit, DiscBit, Geometry};
pub use iter::Lines;

mod iter;

// Where a walk stands: at the fragment that starts at `at` in a zone, where the free chain leads next to `chain`, or past the last zone.
#[derive(Clone, Copy)]
pub struct Walk {
    pub zone: usize,
    pub at: BlockBit,
    pub chain: BlockBit,
}

// A fragment: its zone, its holder (0 for a free one), its first disc bit, its length.
#[derive(Clone, Copy)]
pub struct Line {
    pub zone: usize,
    pub holder: u32,
    pub start: DiscBit,
    pub len: u32,
}

// The fragment at which a walk stood, and where it stands after it.
#[derive(Clone, Copy)]
pub struct Step {
    pub line: Line,
    pub after: Walk,
}

// A walk that stands at the first fragment of zone z, or past the last zone.
pub fn from_zone(map: &[u8], g: Geometry, z: usize) -> Walk
    requires { ReadableFrom map.now g z }
    ensures { Starts map.now g z result }
{
    if g.zones <= z {
        return Walk {
            zone: z,
            at: BlockBit(0),
            chain: BlockBit(0),
        };
    }
    Walk {
        zone: z,
        at: g.zone_first(z),
        chain: zone::first_free(block(map, g, z)),
    }
}

// The block of zone z.
pub fn block(map: &[u8], g: Geometry, z: usize) -> &[u8]
    requires { (length map.now ≡ g.zones * g.sector) × (z < g.zones) }
    ensures { result.now ≡ zone_block g map.now z }
{
    let start = z * g.sector;
    &map[start..start + g.sector]
}

// The fragment at which a walk stands, and the place after it.
pub fn next(map: &[u8], g: Geometry, w: Walk) -> Step
    requires { (w.zone < g.zones) × Stands map.now g w }
    ensures { Advances map.now g w result }
{
    let Walk { zone, at, chain } = w;
    let f = fragment::whole_fragment(block(map, g, zone), at, g.zone_end(), g.idlen);
    let line = Line {
        zone,
        holder: holder(at.0 == chain.0, f.id),
        start: g.disc_bit(zone, at),
        len: f.len as u32,
    };
    let past = Walk {
        zone,
        at: BlockBit(at.0 + f.len),
        chain: next_after(at, chain, f.id as usize),
    };
    Step {
        line,
        after: settled(map, g, past),
    }
}

// A place after a fragment as one at a fragment: at the zone's end the walk goes on to the next zone.
fn settled(map: &[u8], g: Geometry, w: Walk) -> Walk
    requires { ReadableFrom map.now g w.zone × (w.zone < g.zones) × Passing map.now g w }
    ensures { Settles map.now g w result }
{
    if w.at.0 < g.zone_end().0 {
        w
    } else {
        from_zone(map, g, w.zone + 1)
    }
}

// The owner's number, 0 for a free fragment.
fn holder(free: bool, id: u32) -> u32
    ensures { result ≡ cond free 0 id }
{
    if free { 0 } else { id }
}

// The lines of the zones `from` to `to`, ascending.
pub fn lines<'a>(map: &'a [u8], g: Geometry, from: usize, to: usize) -> Lines<'a>
    requires { ReadableFrom map.now g from × (to ≤ g.zones) }
    ensures { lines_left result ≡ lines_from g map.now from (to - from) }
{
    Lines {
        map,
        geometry: g,
        to,
        at: from_zone(map, g, from),
    }
}

// The lowest zone in which two free fragments touch (refusal 9).
pub fn first_touching(map: &[u8], g: Geometry) -> Option<u32>
    requires { AcceptedMap map.now g }
    ensures { result ≡ touching_of (touching 0 (zones_of map.now)) }
{
    let mut zone = 0;
    let mut free = false;
    for line in lines(map, g, 0, g.zones) {
        let now_free = line.holder == 0;
        if free && now_free && line.zone == zone {
            return Some(line.zone as u32);
        }
        zone = line.zone;
        free = now_free;
    }
    None
}
