// Place (document 01): gives the listed pieces to an absent id, as separate fragments, even where two touch. The whole list is
// judged (12), then the room for it in every zone (13), and only then is anything written.
#![tactic(auto)]

ghost use Rattle.std.specs.Prelude.{◌≡◌, ◌+◌, ◌<◌, ◌≤◌, length};
ghost use Rattle.geometry.specs.Accepted.{AcceptedGeometry};
ghost use Rattle.geometry.specs.Places.{disc_bits};
ghost use Rattle.model.specs.Rules.{zone_block};
ghost use Rattle.model.specs.Shown.{pieces_on};
ghost use Rattle.edits.specs.Edits.{give};
ghost use Rattle.edits.specs.Holes.{gap_fits, apart, all_apart};
ghost use Rattle.edits.specs.Judge.{pairs_from, in_one_zone, pair_fits};
ghost use Rattle.writer.specs.Parts.{order_place, list_fits_from};
ghost use Rattle.writer.specs.Listed.{as_pair, as_pieces};
ghost use Rattle.writer.specs.Edited.{PartAsks};
ghost use Rattle.place.specs.Placed.{Places};
ghost use Rattle.place.specs.Asked.{PlaceAsks, zone_fits};

use geometry::{DiscBit, Geometry, Reason, Refusal};
use writer::{MOST_PIECES, Pair, Piece};

// Places a list under an id. Refused: 1 to 7 as `map::check`, 8, 9, 11, 12, 13; a refusal changes no byte of the map.
pub fn place(map: &mut [u8], id: u32, list: &[u32]) -> Result<(), Refusal>
    ensures { Places map.old id list.now result map.new }
{
    let g = map::check(map)?;
    let start = g.start_zone(3, id)?;
    if let Some(zone) = walk::first_touching(map, g) {
        return Err(Refusal {
            reason: Reason::FreeTouching,
            zone,
        });
    }
    if listing::count_held(map, g, id) != 0 {
        return Err(Reason::IdPresent.into());
    }
    if !list_fits(g, start, list) {
        return Err(Reason::Argument.into());
    }
    let mut buffer = [Piece::NONE; MOST_PIECES];
    if !zones_fit(map, g, id, list, &mut buffer) {
        return Err(Reason::NotFree.into());
    }
    writer::edit_map(map, g, 0, list, id, &mut buffer);
    Ok(())
}

// 12: whether a list has pairs, each keeps the rules of a pair, and they come in object order without overlap. `from` is the
// place in object order where the pair before ended.
fn list_fits(g: Geometry, start: usize, list: &[u32]) -> bool
    requires { AcceptedGeometry g }
    ensures { result ≡ list_fits_from g start list.now }
{
    if list.is_empty() || list.len() % 2 != 0 {
        return false;
    }
    let mut from = 0;
    for pair in writer::pairs(list) {
        if !pair_fits(g, pair) {
            return false;
        }
        let at = order_place(g, start, pair.start);
        if at < from {
            return false;
        }
        from = at + pair.len as usize;
    }
    true
}

// The rules of one pair: long enough, whole clusters, within the disc map and one zone.
fn pair_fits(g: Geometry, pair: Pair) -> bool
    requires { AcceptedGeometry g }
    ensures { result ≡ pair_fits g (as_pair pair) }
{
    let start = pair.start.0 as usize;
    let len = pair.len as usize;
    let whole = start % g.cluster == 0 && len % g.cluster == 0;
    g.shortest_fragment() <= len && whole && in_one_zone(g, pair)
}

// Whether the bits of a pair lie on the disc map and in one zone.
fn in_one_zone(g: Geometry, pair: Pair) -> bool
    requires { AcceptedGeometry g }
    ensures { result ≡ in_one_zone g pair.start.0 (pair.start.0 + pair.len) }
{
    let end = pair.start.0 as usize + pair.len as usize;
    end <= g.disc_bits() && end <= g.first_disc_bit(g.zone_of(pair.start) + 1).0 as usize
}

// A disc bit's place in object order: bits before the start zone count on round the end of the disc.
fn order_place(g: Geometry, start: usize, bit: DiscBit) -> usize
    requires { AcceptedGeometry g × (bit.0 ≤ disc_bits g) }
    ensures { (result ≡ order_place g start bit.0) × (result < 4294967296) }
{
    let at = bit.0 as usize;
    if start <= g.zone_of(bit) {
        at
    } else {
        g.disc_bits() + at
    }
}

// 13, zone by zone, with nothing written.
fn zones_fit(map: &[u8], g: Geometry, id: u32, list: &[u32], buffer: &mut [Piece]) -> bool
    requires { PlaceAsks map.now g id list.now × (MOST_PIECES ≤ length buffer.old) }
    ensures { result ≡ all_apart g 0 g.zones (give id (pairs_from list.now) (pieces_on g map.now)) }
{
    for (z, part) in writer::parts(g, list).enumerate() {
        if !zone_fits(map, g, z, part, id, buffer) {
            return false;
        }
    }
    true
}

// Whether the pieces of zone z lie apart with the listed pairs put in. Without such pairs they do.
fn zone_fits(map: &[u8], g: Geometry, z: usize, list: &[u32], id: u32, buffer: &mut [Piece]) -> bool
    requires { PartAsks map.now g z list.now id (length buffer.old) }
    ensures { result ≡ zone_fits g z id (zone_block g map.now z) list.now }
{
    if list.is_empty() {
        return true;
    }
    let n = writer::pieces_after(map, g, z, 0, list, id, buffer);
    let low = g.first_disc_bit(z);
    let high = g.first_disc_bit(z + 1);
    pieces_apart(&buffer[..n], g.shortest_fragment(), low, high)
}

// Whether `pieces` lie apart from `from` to `to`, with no gap of 1 to m - 1 bits. `at` is where the piece before ends: the sum of
// its start and its length, which need not be a disc bit.
fn pieces_apart(pieces: &[Piece], m: usize, from: DiscBit, to: DiscBit) -> bool
    requires { m < 4294967296 }
    ensures { result ≡ apart m from.0 to.0 (as_pieces pieces.now) }
{
    let mut at = from.0 as usize;
    for piece in pieces {
        if !gap_fits(m, at, piece.start) {
            return false;
        }
        at = piece.start.0 as usize + piece.len as usize;
    }
    gap_fits(m, at, to)
}

// No gap from `at` to `next`, or one of at least m bits.
fn gap_fits(m: usize, at: usize, next: DiscBit) -> bool
    requires { (m < 4294967296) × (at < 8589934592) }
    ensures { result ≡ gap_fits m at next.0 }
{
    let start = next.0 as usize;
    at == start || at + m <= start
}
