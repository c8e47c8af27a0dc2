// The holes of a map as a claim in several pieces takes them (document 02, R-8). Each function is a pass along the chains, or so many of them: the
// holes are neither sorted nor kept. The threshold parts them: longer holes go whole, of those just as long the first ones, and shorter ones
// are left (`split/Threshold`).
#![tactic(auto)]

ghost use Rattle.std.specs.Prelude.{◌≡◌, ℕ, suc, ◌+◌, ◌*◌, ◌<◌, ◌≤◌, length};
ghost use Rattle.std.proofs.lemmas.List.Edits.{sets};
ghost use Rattle.geometry.specs.Accepted.{AcceptedGeometry};
ghost use Rattle.geometry.specs.Places.{disc_bits};
ghost use Rattle.model.specs.Chain.{pair, numbers_of};
ghost use Rattle.model.specs.Pieces.{keep};
ghost use Rattle.map.specs.Accepted.{AcceptedMap};
ghost use Rattle.split.specs.Taken.{total, cut_bits};
ghost use Rattle.split.specs.Threshold.{at_least};
ghost use Rattle.holes.specs.Passes.{holes_on, pieces_by, Surveyed, ThresholdFound, Gives, on_side};

use chain::Span;
use geometry::{DiscBit, Geometry};

// All holes: their bits together, and the first one of the longest, which has no bits where there is no hole.
#[derive(Clone, Copy, Debug, PartialEq, Eq)]
pub struct AllHoles {
    pub bits: usize,
    pub start: DiscBit,
    pub len: u32,
}

// The threshold: holes longer than `len` go whole, and those of `len` bits are to give `rest` bits.
#[derive(Clone, Copy, Debug, PartialEq, Eq)]
pub struct Threshold {
    pub len: usize,
    pub rest: usize,
}

// The bits of all holes, and the first of the longest ones.
#[tactic(auto, using(crate::proofs::HoleBits::total_small))]
pub fn survey(map: &[u8], g: Geometry) -> AllHoles
    requires { AcceptedMap map.now g }
    ensures { Surveyed (holes_on g map.now) result }
{
    let mut bits = 0;
    let mut longest = Span {
        start: DiscBit(0),
        len: 0,
    };
    for hole in chain::spans(map, g, 0) {
        bits += hole.len as usize;
        if longest.len < hole.len {
            longest = hole;
        }
    }
    AllHoles {
        bits,
        start: longest.start,
        len: longest.len,
    }
}

// The bits of the holes of at least so many bits.
#[tactic(auto, using(crate::proofs::HoleBits::total_small, crate::proofs::HoleBits::at_least_some))]
fn bits_from(map: &[u8], g: Geometry, least: usize) -> usize
    requires { AcceptedMap map.now g }
    ensures { result ≡ at_least least (holes_on g map.now) }
{
    let mut bits = 0;
    for hole in chain::spans(map, g, 0) {
        let len = hole.len as usize;
        if least <= len {
            bits += len;
        }
    }
    bits
}

// The threshold for `need` bits, where no hole is longer than `longest`: found by halving, so in at most as many passes as `longest` has binary
// digits, 13.
#[tactic(auto, using(crate::proofs::HoleBits::at_least_zero))]
pub fn find_threshold(map: &[u8], g: Geometry, need: usize, longest: u32) -> Threshold
    requires { AcceptedMap map.now g × (0 < need) × (need ≤ total (holes_on g map.now))
        × (at_least (suc longest) (holes_on g map.now) ≡ 0) }
    ensures { ThresholdFound need (holes_on g map.now) result }
{
    let mut low = 0;
    let mut high = longest as usize + 1;
    let mut above = 0;
    // No `for`: the two bounds close in on each other.
    while low + 1 < high {
        let middle = (low + high) / 2;
        let bits = bits_from(map, g, middle);
        if need <= bits {
            low = middle;
        } else {
            high = middle;
            above = bits;
        }
    }
    Threshold {
        len: low,
        rest: need - above,
    }
}

// What is taken of a hole of `len` bits when so many remain: those, but at least m, or all of it where 1 to m - 1 bits would be left.
pub fn cut_of(g: Geometry, remains: usize, len: u32) -> u32
    requires { AcceptedGeometry g × (remains < 4294967296) }
    ensures { result ≡ cut_bits g.shortest remains len }
{
    let shortest = g.shortest_fragment();
    let taken = remains.max(shortest);
    if (len as usize) < taken + shortest {
        len
    } else {
        taken as u32
    }
}

// What a hole gives: its first so many bits, or nothing; and what the holes of the threshold's length that follow are still to give.
#[derive(Clone, Copy)]
struct Given {
    piece: Option<u32>,
    rest: usize,
}

// What a hole of `len` bits gives, where the holes of `least` bits from it on are to give `rest` bits. Both passes below go by this.
fn gives(g: Geometry, least: usize, rest: usize, len: u32) -> Given
    requires { AcceptedGeometry g × (rest < 4294967296) }
    ensures { Gives g.shortest least rest len result }
{
    let bits = len as usize;
    if least < bits {
        Given {
            piece: Some(len),
            rest,
        }
    } else if bits == least && 0 < rest {
        Given {
            piece: Some(cut_of(g, rest, len)),
            rest: rest.saturating_sub(least),
        }
    } else {
        Given { piece: None, rest }
    }
}

// How many pieces are taken.
#[tactic(auto, using(crate::proofs::Picked::counting))]
pub fn count_pieces(map: &[u8], g: Geometry, threshold: Threshold) -> usize
    requires { AcceptedMap map.now g × (threshold.rest < 4294967296) }
    ensures { result ≡ length (pieces_by g map.now threshold) }
{
    let mut count = 0;
    let mut rest = threshold.rest;
    for hole in chain::spans(map, g, 0) {
        let given = gives(g, threshold.len, rest, hole.len);
        count += usize::from(given.piece.is_some());
        rest = given.rest;
    }
    count
}

// Writes the pairs of the pieces on one side of a zone, ascending, from entry `at` on; answers the entry after them. Pieces of the other side are
// passed over, but what they give counts all the same.
pub fn write_pieces(
    map: &[u8],
    g: Geometry,
    threshold: Threshold,
    zone: usize,
    late: bool,
    pairs: &mut [u32],
    at: usize,
) -> usize
    requires { AcceptedMap map.now g × (threshold.rest < 4294967296)
        × (at + 2 * length (keep (on_side g zone late) (pieces_by g map.now threshold)) ≤ length pairs.old) }
    ensures list { pairs.new ≡ sets pairs.old at (numbers_of (keep (on_side g zone late) (pieces_by g map.now threshold))) }
    ensures next { result ≡ at + 2 * length (keep (on_side g zone late) (pieces_by g map.now threshold)) }
{
    let mut next = at;
    let mut rest = threshold.rest;
    for hole in chain::spans(map, g, 0) {
        let given = gives(g, threshold.len, rest, hole.len);
        rest = given.rest;
        if let Some(len) = given.piece {
            let here = on_side(g, zone, late, hole.start);
            next = listing::put_if(here, hole.start, len, pairs, next);
        }
    }
    next
}

// Whether a piece that starts at a disc bit lies on one side of a zone: from it on where `late`, else before it.
fn on_side(g: Geometry, zone: usize, late: bool, start: DiscBit) -> bool
    requires { AcceptedGeometry g × (start.0 ≤ disc_bits g) }
    ensures { (n : ℕ) → result ≡ on_side g zone late (pair start.0 n) }
{
    let after = zone <= g.zone_of(start);
    after == late
}
