// Edits a map: one routine for release, place and claim (document 01, "Each edit writes only the blocks of the zones it touches").
//
// Of each zone that the edit touches it makes the list of the pieces that there are after it, and draws the zone from that list:
// `pieces_after` walks the zone and merges the listed pairs in, `draw_zone` is lent the zone's block from the middle of the map and
// writes check byte, FreeLink, cross check and allocation bits, and nothing else.
//
// The pairs of an edit are in object order: first those from the start zone on, ascending, then those of the zones before it,
// ascending. So the pairs of each zone stand together, and `parts` goes over the zones from 0 on with the part of the list that each
// has: it starts with the pairs before the start zone, and goes back to the first pair when it comes to the start zone.
#![tactic(auto)]

ghost use Rattle.std.specs.Prelude.{◌≡◌, cond, not, ◌&&◌, map, ◌+◌, ◌-◌, ◌*◌, ◌/◌, ◌%◌, ◌^◌, ◌<◌, ◌≤◌, eqb, ltb, length, take, drop};
ghost use Rattle.std.specs.Int.Bits.{bit_xor};
ghost use Rattle.bits.specs.Bits.{byte_bits, Bytes};
ghost use Rattle.checks.specs.Cross.{cross_of, touched_count};
ghost use Rattle.geometry.specs.Accepted.{AcceptedGeometry};
ghost use Rattle.map.specs.Accepted.{ReadableFrom};
ghost use Rattle.edits.specs.Edits.{without, touched_zones};
ghost use Rattle.edits.specs.Judge.{pairs_from};
ghost use Rattle.edits.specs.Written.{sealed};
ghost use Rattle.writer.specs.Parts.{Ordered, leading, zone_parts, pair_in};
ghost use Rattle.writer.specs.PartsLeft.{parts_left};
ghost use Rattle.writer.specs.Redraw.{GapAsks, fragment_put, GapDrawn};
ghost use Rattle.writer.specs.Listed.{as_pieces, Merged, ZoneDrawing, ZoneRedrawn, zone_drawn};
ghost use Rattle.writer.specs.Edited.{zone_pieces, pieces_after, PartAsks, ZoneEdit, zone_edited, edit_of, EditAsks, edited_map};

use geometry::{BlockBit, DiscBit, Geometry};
pub use iter::{Pairs, Parts};
use walk::Line;

mod iter;

// The most lines that a zone has: each has 12 bits or more of a block's 8,192.
pub const MOST_LINES: usize = 682;

// The most pieces that a zone is given by an edit: its lines, and the listed pairs that lie in it, of which each has 12 bits or more of the
// zone's 8,160.
pub const MOST_PIECES: usize = 1362;

// In the zones where the listed pairs lie the pieces of `gone` leave (0 for none), and the pairs come as pieces of `id` (0: none
// come, as in a release). `buffer` has room for a zone's pieces.
pub fn edit_map(map: &mut [u8], g: Geometry, gone: u32, list: &[u32], id: u32, buffer: &mut [Piece])
    requires { EditAsks map.old g gone list.now id × (MOST_PIECES ≤ length buffer.old) }
    ensures { map.new ≡ edited_map map.old (edit_of gone (pairs_from list.now) id) }
{
    let touched = touched_zones(g, list);
    let mut earlier = 0;
    for (z, part) in parts(g, list).enumerate() {
        let change = checks::cross_change(touched, earlier);
        edit_zone(map, g, z, gone, part, id, change, buffer);
        earlier += usize::from(!part.is_empty());
    }
}

// In how many zones listed pairs lie: the rule for the cross checks asks for it before the first zone is written.
fn touched_zones(g: Geometry, list: &[u32]) -> usize
    requires { AcceptedGeometry g × Ordered g list.now }
    ensures { result ≡ touched_count (touched_zones g (pairs_from list.now)) }
{
    parts(g, list).filter(|part| !part.is_empty()).count()
}

// Zone z of an edit, with its part of the list. A zone without pairs is neither read nor written.
fn edit_zone(
    map: &mut [u8],
    g: Geometry,
    z: usize,
    gone: u32,
    list: &[u32],
    id: u32,
    change: u8,
    buffer: &mut [Piece],
)
    requires { ZoneEdit map.old g z gone list.now id (length buffer.old) }
    ensures { map.new ≡ zone_edited g z gone list.now id change map.old }
{
    if list.is_empty() {
        return;
    }
    let n = pieces_after(map, g, z, gone, list, id, buffer);
    let from = z * g.sector;
    draw_zone(&mut map[from..from + g.sector], z, g, &buffer[..n], change);
}

// The pieces of zone z without those of `gone`, and with the listed ones of `id` put in: into `buffer`. Answers how many. They may
// overlap, so that a place can be judged by them.
pub fn pieces_after(
    map: &[u8],
    g: Geometry,
    z: usize,
    gone: u32,
    list: &[u32],
    id: u32,
    buffer: &mut [Piece],
) -> usize
    requires { PartAsks map.now g z list.now id (length buffer.old) }
    ensures few { result ≤ length buffer.old }
    ensures pieces { as_pieces (take result buffer.new) ≡ pieces_after gone id (pairs_from list.now) (zone_pieces g map.now z) }
{
    let n = staying(map, g, z, gone, buffer);
    if id == 0 {
        return n;
    }
    let end = n + list.len() / 2;
    merge_pairs(&mut buffer[..end], list, id);
    end
}

// The pieces of zone z without those of `gone`, into `buffer`. Answers how many.
pub fn staying(map: &[u8], g: Geometry, z: usize, gone: u32, buffer: &mut [Piece]) -> usize
    requires { ReadableFrom map.now g z × (z < g.zones) × (MOST_LINES ≤ length buffer.old) }
    ensures few { result ≤ MOST_LINES }
    ensures pieces { as_pieces (take result buffer.new) ≡ without gone (zone_pieces g map.now z) }
{
    let mut n = 0;
    for line in walk::lines(map, g, z, z + 1).filter(|line| stays(line, gone)) {
        buffer[n] = Piece {
            owner: line.holder,
            start: line.start,
            len: line.len,
        };
        n += 1;
    }
    n
}

// Whether a line is an object's (0: it is free) and not that of the object that goes. Written in the filter itself, its meaning was no equation
// that the loop's proof could use.
fn stays(line: &Line, gone: u32) -> bool
    ensures { result ≡ (not (eqb line.now.holder 0) && not (eqb line.now.holder gone)) }
{
    line.holder != 0 && line.holder != gone
}

// Merges the pairs of a list, as pieces of `id`, into the pieces that stand before the room for them: what starts last goes last.
fn merge_pairs(pieces: &mut [Piece], list: &[u32], id: u32)
    requires { length list.now / 2 ≤ length pieces.old }
    ensures { Merged id list.now pieces.old pieces.new }
{
    let mut pairs = list.len() / 2;
    let mut left = pieces.len() - pairs;
    // No `for`: a step takes from either list, so no range counts the steps.
    while 0 < pairs {
        let pair = pair_at(list, 2 * (pairs - 1));
        let to = left + pairs - 1;
        if 0 < left && pair.start.0 < pieces[left - 1].start.0 {
            left -= 1;
            pieces[to] = pieces[left];
        } else {
            pairs -= 1;
            pieces[to] = Piece {
                owner: id,
                start: pair.start,
                len: pair.len,
            };
        }
    }
}

// A piece of an object: its owner, its first disc bit, its length.
#[derive(Clone, Copy)]
pub struct Piece {
    pub owner: u32,
    pub start: DiscBit,
    pub len: u32,
}

impl Piece {
    // What stands in a buffer before a piece is written there.
    pub const NONE: Piece = Piece {
        owner: 0,
        start: DiscBit(0),
        len: 0,
    };
}

// A pair of a list that is handed in.
#[derive(Clone, Copy)]
pub struct Pair {
    pub start: DiscBit,
    pub len: u32,
}

// The pair at entry i.
pub fn pair_at(list: &[u32], i: usize) -> Pair
    requires { i + 2 ≤ length list.now }
    ensures { result ≡ pair_in list.now i }
{
    Pair {
        start: DiscBit(list[i]),
        len: list[i + 1],
    }
}

// The pairs of a list that is handed in.
pub fn pairs<'a>(list: &'a [u32]) -> Pairs<'a>
    ensures { result.0.now ≡ list.now }
{
    Pairs(list)
}

// The part of the list that lies in each zone, from zone 0 on.
pub fn parts<'a>(g: Geometry, list: &'a [u32]) -> Parts<'a>
    requires { AcceptedGeometry g × Ordered g list.now }
    ensures { parts_left result ≡ zone_parts g list.now 0 }
{
    let first = pair_at(list, 0);
    let start = g.zone_of(first.start);
    let late = leading(list, g.first_disc_bit(start), g.first_disc_bit(g.zones));
    Parts {
        geometry: g,
        list,
        start,
        zone: 0,
        rest: &list[late..],
    }
}

// How many numbers the pairs at the front of a list have that start from `low` on and before `high`.
fn leading(list: &[u32], low: DiscBit, high: DiscBit) -> usize
    ensures { (result ≡ 2 * length (leading low.0 high.0 (pairs_from list.now))) × (result ≤ length list.now) }
{
    2 * pairs(list)
        .take_while(|pair| low.0 <= pair.start.0 && pair.start.0 < high.0)
        .count()
}

// Draws zone z: these pieces, a free fragment in every gap, FreeLink, the cross check changed by `change`, and the zone check.
pub fn draw_zone(block: &mut [u8], z: usize, g: Geometry, pieces: &[Piece], change: u8)
    requires { ZoneDrawing g z block.old pieces.now }
    ensures { block.new ≡ zone_drawn g z (as_pieces pieces.now) change block.old }
{
    let first = draw_pieces(block, z, g, pieces);
    seal(block, first, change);
}

// Draws the pieces, from the last to the first, with the gap after each. Answers where the first gap starts, or 0.
fn draw_pieces(block: &mut [u8], z: usize, g: Geometry, pieces: &[Piece]) -> BlockBit
    requires { ZoneDrawing g z block.old pieces.now }
    ensures bits { ZoneRedrawn g z (as_pieces pieces.now) (byte_bits block.old) (byte_bits block.new) result }
    ensures bytes { Bytes block.new }
{
    let idlen = g.idlen;
    let start = g.zone_first(z);
    let mut to = g.zone_end();
    let mut next = BlockBit(0);
    for piece in pieces.iter().rev() {
        let at = g.block_bit(z, piece.start);
        let len = piece.len as usize;
        next = draw_gap(block, BlockBit(at.0 + len), to, next, idlen);
        write_fragment(block, at, len, piece.owner, idlen);
        to = at;
    }
    draw_gap(block, start, to, next, idlen)
}

// Draws a free fragment from `hole` to `to`, if there are bits between, that leads on to `next`. Answers where the first gap
// starts now.
fn draw_gap(
    block: &mut [u8],
    hole: BlockBit,
    to: BlockBit,
    next: BlockBit,
    idlen: usize,
) -> BlockBit
    requires { GapAsks (length block.old) idlen hole.0 to.0 next.0 }
    ensures { GapDrawn idlen hole.0 to.0 next.0 (byte_bits block.old) (byte_bits block.new) result.0 }
{
    if hole.0 < to.0 {
        let link = next.0.saturating_sub(hole.0) as u32;
        write_fragment(block, hole, to.0 - hole.0, link, idlen);
        hole
    } else {
        next
    }
}

// Writes a fragment: its id, zeros, and the closing 1. An id of idlen bits has zeros above them, which fill the fragment.
fn write_fragment(block: &mut [u8], at: BlockBit, len: usize, id: u32, idlen: usize)
    requires { (idlen < len) × (at.0 + len ≤ length block.old * 8) × (at.0 + len < 2 ^ 64) × (id < 2 ^ idlen) }
    ensures { byte_bits block.new ≡ fragment_put idlen at.0 len id (byte_bits block.old) }
{
    bits::write_number(block, at.0, len - 1, id);
    bits::set_bit(block, at.0 + (len - 1));
}

// Writes FreeLink, cross check and zone check of a block whose allocation bits stand. FreeLink counts from block bit 8 to the
// first gap.
fn seal(block: &mut [u8], first: BlockBit, change: u8)
    requires { (4 ≤ length block.old) × (first.0 ≤ 8192) }
    ensures { block.new ≡ sealed (first.0 - 8) (bit_xor (cross_of block.old) change) (drop 4 block.old) }
{
    let link = 32768 + first.0.saturating_sub(8) as u16;
    block[1..3].copy_from_slice(&link.to_le_bytes());
    block[3] ^= change;
    block[0] = checks::zone_check(block);
}
