// Lists an object's pieces and the free spans (document 01, "The calls"). A call checks the map, judges its arguments in the
// table's order, counts, and only then writes: a refusal leaves the lent list as it was.
#![tactic(auto)]

ghost use Rattle.std.specs.Prelude.{◌≡◌, cond, [], ◌∷◌, ◌+◌, ◌-◌, ◌*◌, ◌<◌, ◌≤◌, eqb, length};
ghost use Rattle.std.proofs.lemmas.List.Edits.{sets};
ghost use Rattle.model.specs.Chain.{numbers_of};
ghost use Rattle.map.specs.Accepted.{AcceptedMap};
ghost use Rattle.walk.specs.HeldBy.{held_from, held_between};
ghost use Rattle.listing.specs.Listed.{object_found, free_found, Lists};
ghost use Rattle.listing.specs.Laws.{ListingLaws};

use geometry::{DiscBit, Geometry, Reason, Refusal};

// Lists an object's pieces in object order, a pair for each fragment: disc bit, length. Refused: 1 to 7 as `map::check`, 8, 10,
// 17.
pub fn list(map: &[u8], id: u32, pairs: &mut [u32]) -> Result<usize, Refusal>
    ensures { Lists (object_found map.now id (length pairs.old)) pairs.old result pairs.new }
{
    let g = map::check(map)?;
    list_object(map, g, id, pairs)
}

// Lists the free spans, ascending, a pair for each free fragment. Refused: 1 to 7 as `map::check`, 17.
pub fn free(map: &[u8], pairs: &mut [u32]) -> Result<usize, Refusal>
    ensures { Lists (free_found map.now (length pairs.old)) pairs.old result pairs.new }
{
    let g = map::check(map)?;
    let spans = count_held(map, g, 0);
    if pairs.len() / 2 < spans {
        return Err(Reason::Entries.into());
    }
    write_held(map, g, 0, 0, g.zones, pairs, 0);
    Ok(spans)
}

// An object of an accepted map: 8, 10, 17, then the pieces from the start zone on, and those of the zones before it.
pub fn list_object(map: &[u8], g: Geometry, id: u32, pairs: &mut [u32]) -> Result<usize, Refusal>
    requires { AcceptedMap map.now g }
    ensures { Lists (object_found map.now id (length pairs.old)) pairs.old result pairs.new }
{
    let start = g.start_zone(1, id)?;
    let n = count_held(map, g, id);
    if n == 0 {
        return Err(Reason::IdAbsent.into());
    }
    if pairs.len() / 2 < n {
        return Err(Reason::Entries.into());
    }
    let at = write_held(map, g, id, start, g.zones, pairs, 0);
    write_held(map, g, id, 0, start, pairs, at);
    Ok(n)
}

// How many fragments a holder has on an accepted map; holder 0 is free space.
pub fn count_held(map: &[u8], g: Geometry, holder: u32) -> usize
    requires { AcceptedMap map.now g }
    ensures { result ≡ length (held_from g holder map.now 0 g.zones) }
{
    walk::lines(map, g, 0, g.zones)
        .filter(|line| line.holder == holder)
        .count()
}

// Writes the pairs of a holder's fragments in zones `from` to `to`, ascending, from entry `at` on; answers the entry after them.
pub fn write_held(
    map: &[u8],
    g: Geometry,
    holder: u32,
    from: usize,
    to: usize,
    pairs: &mut [u32],
    at: usize,
) -> usize
    requires { AcceptedMap map.now g × (from ≤ to) × (to ≤ g.zones) × (at + 2 * length (held_between g holder map.now from to) ≤ length pairs.old) }
    ensures list { pairs.new ≡ sets pairs.old at (numbers_of (held_between g holder map.now from to)) }
    ensures next { result ≡ at + 2 * length (held_between g holder map.now from to) }
{
    let mut i = at;
    for line in walk::lines(map, g, from, to) {
        i = put_if(line.holder == holder, line.start, line.len, pairs, i);
    }
    i
}

// Stores a pair at entry `at` if it is wanted; answers the entry after it.
pub fn put_if(wanted: bool, start: DiscBit, len: u32, pairs: &mut [u32], at: usize) -> usize
    requires { at + cond wanted 2 0 ≤ length pairs.old }
    ensures list { pairs.new ≡ sets pairs.old at (cond wanted (start.0 ∷ len ∷ []) []) }
    ensures next { result ≡ at + cond wanted 2 0 }
{
    if wanted {
        pairs[at] = start.0;
        pairs[at + 1] = len;
        return at + 2;
    }
    at
}

// The laws of specs/Laws, as a contract: the function does nothing.
pub fn listing_laws()
    ensures { ListingLaws }
{}
