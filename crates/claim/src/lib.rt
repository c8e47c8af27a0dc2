// Claim (document 01, and document 02's R-6 and R-8): given a size in bytes and a parent zone, gives an unused id the first hole that is long enough, by its
// zone's distance from the parent; or, where none is, several holes, the largest first. What is chosen (`choose`) is apart from how it is given
// (`give`). One pass over the map looks for a hole that is long enough; if there is none, passes along the chains find what is taken of all; and one
// pass looks for an id of the first hole's zone, and if there is none left one more, or at most four where ids are many.
#![tactic(auto)]

ghost use Rattle.std.specs.Prelude.{◌≡◌, [], ◌∷◌, ◌+◌, ◌-◌, ◌*◌, ◌<◌, ◌≤◌, length, MatchOption, MatchResult};
ghost use Rattle.std.proofs.Math.Option.{none, some};
ghost use Rattle.bits.specs.Bits.{byte_bits};
ghost use Rattle.geometry.specs.Accepted.{AcceptedGeometry};
ghost use Rattle.geometry.specs.Answers.{refusal};
ghost use Rattle.model.specs.Chain.{pair, touching};
ghost use Rattle.model.specs.Shown.{zones_of, pieces_on};
ghost use Rattle.map.specs.Accepted.{ReadableFrom, AcceptedMap};
ghost use Rattle.walk.specs.HeldBy.{held_from};
ghost use Rattle.split.specs.Taken.{by_size, take_from};
ghost use Rattle.listing.specs.Listed.{with_room, Lists};
ghost use Rattle.holes.specs.Passes.{holes_on};
ghost use Rattle.edits.specs.Near.{zones_at};
ghost use Rattle.edits.specs.Holes.{holes_in, holes_of};
ghost use Rattle.edits.specs.Judge.{need, lowest, lowest_id, unused, first_hole, holes_near, chosen, by_choice, place};
ghost use Rattle.edits.specs.Steps.{step};
ghost use Rattle.edits.specs.EditableMap.{EditableMap};
ghost use Rattle.claim.specs.Claimed.{Claims};
ghost use Rattle.claim.specs.Chosen.{first_taken, taken_first, SeveralTaken, ListsTaken, Chooses};
ghost use Rattle.claim.specs.Given.{ListFits};
ghost use Rattle.claim.specs.Hole.{hole_of};
ghost use Rattle.claim.specs.Unused.{found, cleared_bit, ClearedIn, Window, IdChosen};

use chain::Span;
use geometry::{DiscBit, Geometry, Reason, Refusal};
use writer::{MOST_PIECES, Piece};

// The id and how many pairs it was given.
#[derive(Clone, Copy, Debug, PartialEq, Eq)]
pub struct Given {
    pub id: u32,
    pub pairs: usize,
}

// Claims room for `size` bytes near the zone `parent`, and lists the pairs in object order. Refused: 1 to 7 as `map::check`, 9, 12 (0 bytes, or no
// such zone), 15, 17; 14 cannot arise. A refusal changes no byte of map or list.
pub fn claim(map: &mut [u8], size: u64, parent: u32, list: &mut [u32]) -> Result<Given, Refusal>
    ensures { Claims map.old size parent list.old result map.new list.new }
{
    let g = map::check(map)?;
    claim_checked(map, g, size, parent, list)
}

// On an accepted map: 9, 12, and then what a map gives that edits work on.
fn claim_checked(
    map: &mut [u8],
    g: Geometry,
    size: u64,
    parent: u32,
    list: &mut [u32],
) -> Result<Given, Refusal>
    requires { AcceptedMap map.old g }
    ensures { Claims map.old size parent list.old result map.new list.new }
{
    let parent = parent as usize;
    editable(map, g)?;
    if !(0 < size && parent < g.zones) {
        return Err(Reason::Argument.into());
    }
    claim_room(map, g, size, parent, list)
}

// 9, or edits work on the map.
fn editable(map: &[u8], g: Geometry) -> Result<(), Refusal>
    requires { AcceptedMap map.now g }
    ensures { MatchResult result (λ _. EditableMap map.now g) (λ r. (touching 0 (zones_of map.now) ≡ some r.zone) × (r ≡ refusal 9 r.zone)) }
{
    match walk::first_touching(map, g) {
        Some(zone) => Err(Refusal {
            reason: Reason::FreeTouching,
            zone,
        }),
        None => Ok(()),
    }
}

// Gives what is chosen for a claim of some bytes near a zone of the disc.
fn claim_room(
    map: &mut [u8],
    g: Geometry,
    size: u64,
    parent: usize,
    list: &mut [u32],
) -> Result<Given, Refusal>
    requires { EditableMap map.old g × (0 < size) × (parent < g.zones) }
    ensures { Claims map.old size parent list.old result map.new list.new }
{
    let chosen = choose(map, g, size, parent, list)?;
    give(map, g, chosen.id, &list[0..2 * chosen.pairs]);
    Ok(chosen)
}

// What a claim chooses, with its list: 15, or an id for the zone of the first hole that is taken and what is taken, or 17. An unused id is always there, so
// that nothing is refused with 14.
fn choose(
    map: &[u8],
    g: Geometry,
    size: u64,
    parent: usize,
    list: &mut [u32],
) -> Result<Given, Refusal>
    requires { EditableMap map.now g × (parent < g.zones) }
    ensures { Chooses (by_choice (length list.old) (chosen g (pieces_on g map.now) size parent)) list.old result list.new }
{
    let bits = need_of(g, size);
    let Some(first) = first_taken(map, g, parent, bits) else {
        return Err(Reason::NoRoom.into());
    };
    let zone = g.zone_of(first.start);
    let Some(id) = id_for(map, g, zone) else {
        return Err(Reason::NoId.into());
    };
    let pairs = list_taken(map, g, bits, first, id, list)?;
    Ok(Given { id, pairs })
}

// The first hole that is taken: the nearest one that is long enough; or, if there is none and all together have enough bits, the largest.
fn first_taken(map: &[u8], g: Geometry, parent: usize, need: usize) -> Option<Span>
    requires { EditableMap map.now g × (parent < g.zones) }
    ensures { result ≡ hole_of (first_taken g map.now need parent) }
{
    if let Some(hole) = nearest_hole(map, g, parent, need) {
        return Some(hole);
    }
    let all = holes::survey(map, g);
    if all.bits < need {
        return None;
    }
    Some(Span {
        start: all.start,
        len: all.len,
    })
}

// Lists what is taken, where the first hole is this one: of that alone if it is long enough, or else of several.
fn list_taken(
    map: &[u8],
    g: Geometry,
    need: usize,
    first: Span,
    id: u32,
    list: &mut [u32],
) -> Result<usize, Refusal>
    requires { EditableMap map.now g × (3 ≤ id) × (first.len < need → SeveralTaken (holes_on g map.now) need first.len) }
    ensures { ListsTaken (taken_first g.shortest need (pair first.start.0 first.len) (holes_on g map.now)) g id list.old result list.new }
{
    if need <= first.len as usize {
        list_one(first.start, holes::cut_of(g, need, first.len), list)
    } else {
        list_several(map, g, need, first.len, id, list)
    }
}

// One pair, or 17.
fn list_one(start: DiscBit, len: u32, list: &mut [u32]) -> Result<usize, Refusal>
    ensures { Lists (with_room (length list.old) (pair start.0 len ∷ [])) list.old result list.new }
{
    if list.len() < 2 {
        return Err(Reason::Entries.into());
    }
    list[0] = start.0;
    list[1] = len;
    Ok(1)
}

// The pieces of several holes, or 17: those from the id's start zone on, and then those of the zones before it.
fn list_several(
    map: &[u8],
    g: Geometry,
    need: usize,
    longest: u32,
    id: u32,
    list: &mut [u32],
) -> Result<usize, Refusal>
    requires { EditableMap map.now g × (3 ≤ id) × SeveralTaken (holes_on g map.now) need longest }
    ensures { ListsTaken (take_from g.shortest need (by_size (holes_on g map.now))) g id list.old result list.new }
{
    let t = holes::find_threshold(map, g, need, longest);
    let n = holes::count_pieces(map, g, t);
    if list.len() / 2 < n {
        return Err(Reason::Entries.into());
    }
    let zone = id as usize / g.ids;
    let at = holes::write_pieces(map, g, t, zone, true, list, 0);
    holes::write_pieces(map, g, t, zone, false, list, at);
    Ok(n)
}

// Need: the larger of m and the size rounded up to clusters, in map bits. It divides first, so that no size wraps.
pub fn need_of(g: Geometry, size: u64) -> usize
    requires { AcceptedGeometry g }
    ensures { result ≡ need g size }
{
    let bytes = size as usize;
    let cluster = g.cluster * g.unit;
    // Not `div_ceil`: the edit `size_rounded_down` holds this test.
    let started = usize::from(bytes % cluster != 0);
    g.shortest_fragment()
        .max((bytes / cluster + started) * g.cluster)
}

// The first hole of at least `need` bits, in the zones by their distance from the parent zone.
fn nearest_hole(map: &[u8], g: Geometry, parent: usize, need: usize) -> Option<Span>
    requires { EditableMap map.now g × (parent < g.zones) }
    ensures { result ≡ hole_of (first_hole need (holes_near g (pieces_on g map.now) parent)) }
{
    for d in 0..g.zones {
        if let Some(hole) = hole_at(map, g, parent, d, need) {
            return Some(hole);
        }
    }
    None
}

// The first one at distance d from the parent zone: of the zone below, then of the one above, where these are zones of the disc.
fn hole_at(map: &[u8], g: Geometry, parent: usize, d: usize, need: usize) -> Option<Span>
    requires { EditableMap map.now g × (parent < g.zones) × (d < g.zones) }
    ensures { result ≡ hole_of (first_hole need (holes_of g (pieces_on g map.now) (zones_at g.zones parent d))) }
{
    let above = parent + d;
    if d <= parent {
        if let Some(hole) = first_hole(map, g, parent - d, need) {
            return Some(hole);
        }
    }
    if 0 < d && above < g.zones {
        first_hole(map, g, above, need)
    } else {
        None
    }
}

// The first one of zone z.
fn first_hole(map: &[u8], g: Geometry, z: usize, need: usize) -> Option<Span>
    requires { EditableMap map.now g × (z < g.zones) }
    ensures { result ≡ hole_of (first_hole need (holes_in g (pieces_on g map.now) z)) }
{
    for line in walk::lines(map, g, z, z + 1) {
        if line.holder == 0 && need <= line.len as usize {
            return Some(Span {
                start: line.start,
                len: line.len,
            });
        }
    }
    None
}

// How many ids have their bits at a time: all ids of a disc at once would need more stack than a call may take.
const WINDOW: usize = 131072;

// The id for a piece in zone z: the lowest unused one from 3 whose start zone that is, or where none is left the lowest of all. The ids of a zone are
// one window. None only where no id is unused.
fn id_for(map: &[u8], g: Geometry, z: usize) -> Option<u32>
    requires { EditableMap map.now g × (z < g.zones) }
    ensures { MatchOption result (lowest_id g (unused (pieces_on g map.now)) ≡ none) (IdChosen g (pieces_on g map.now) z) }
{
    if let Some(id) = unused_in(map, g, (z * g.ids).max(3), (z + 1) * g.ids) {
        return Some(id);
    }
    lowest_unused(map, g)
}

// The lowest unused id from 3, one window after the other: only a disc with more ids than a window can need a second.
fn lowest_unused(map: &[u8], g: Geometry) -> Option<u32>
    requires { EditableMap map.now g }
    ensures { result ≡ found (lowest_id g (unused (pieces_on g map.now))) }
{
    let ids = g.ids * g.zones;
    for from in (3..ids).step_by(WINDOW) {
        if let Some(id) = unused_in(map, g, from, ids.min(from + WINDOW)) {
            return Some(id);
        }
    }
    None
}

// The lowest unused id from `from` on and below `to`. There is a bit for every id of the window, 1 while the id is not seen in the map.
#[inline(never)]
fn unused_in(map: &[u8], g: Geometry, from: usize, to: usize) -> Option<u32>
    requires { AcceptedMap map.now g × Window g from to }
    ensures { result ≡ found (lowest (unused (pieces_on g map.now)) (to - from) from) }
{
    let mut unused = [255u8; 16384];
    clear_used(map, g, from, to, &mut unused);
    let id = from + bits::zero_run(&unused, 0, to - from);
    (id < to).then_some(id as u32)
}

// Clears the bit of every id of the window that the map holds.
fn clear_used(map: &[u8], g: Geometry, from: usize, to: usize, unused: &mut [u8])
    requires { ReadableFrom map.now g 0 × (to ≤ from + length unused.old * 8) }
    ensures { ClearedIn (λ id. held_from g id map.now 0 g.zones) from to unused.old unused.new }
{
    for line in walk::lines(map, g, 0, g.zones) {
        clear_id(unused, from, to, line.holder as usize);
    }
}

// Clears an id's bit, if the id is in the window.
fn clear_id(unused: &mut [u8], from: usize, to: usize, id: usize)
    requires { to ≤ from + length unused.old * 8 }
    ensures { byte_bits unused.new ≡ cleared_bit from to id (byte_bits unused.old) }
{
    // Not `contains`: the edit `first_of_window_missed` holds the lower test.
    if from <= id && id < to {
        bits::clear_bit(unused, id - from);
    }
}

// Gives a list to an id, as a place of it does. Its frame is its own, since its buffer is as large as the search for an id needs.
#[inline(never)]
fn give(map: &mut [u8], g: Geometry, id: u32, list: &[u32])
    requires { ListFits map.old g id list.now }
    ensures { map.new ≡ step map.old (place id list.now) }
{
    let mut buffer = [Piece::NONE; MOST_PIECES];
    writer::edit_map(map, g, 0, list, id, &mut buffer);
}
