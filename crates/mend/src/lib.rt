// The mender (document 02, R-9): a map that is right but for its checks and for free fragments that touch is put in order, and the bytes
// that this would change are listed. Each zone is drawn anew from its owned pieces, so that all that lies between two of them is one free
// fragment.
#![tactic(auto)]

ghost use Rattle.std.specs.Prelude.{◌≡◌, cond, [], ◌∷◌, ◌+◌, ◌*◌, ◌<◌, ◌≤◌, ◌^◌, length};
ghost use mathlib.Core.List as list_of;
ghost use Rattle.std.proofs.lemmas.List.Edits.{sets};
ghost use Rattle.bits.specs.Bits.{Bytes};
ghost use Rattle.checks.specs.Cross.{cross_of};
ghost use Rattle.geometry.specs.Accepted.{AcceptedGeometry};
ghost use Rattle.model.specs.Check.{blocks_of};
ghost use Rattle.map.specs.Accepted.{MendableMap};
ghost use Rattle.writer.specs.Edited.{zone_put};
ghost use Rattle.mended.specs.Mended.{lacking, mended, differ_from, changed_at};
ghost use Rattle.mend.specs.Mends.{Mending, ListsChanges};
ghost use Rattle.mend.specs.Zones.{change_of, ZoneMend, block_mended};

use geometry::{Geometry, Reason, Refusal};
use writer::{MOST_LINES, Piece};

// Mends a map. Refused: 1, 2, 5, 6, 7 as `map::check_zones`; a refusal changes no byte.
pub fn mend(map: &mut [u8]) -> Result<(), Refusal>
    ensures { Mending map.old result map.new }
{
    // No `?`: must-fail/refused_told_mended turns the refusal's arm.
    match map::check_zones(map) {
        Err(refusal) => Err(refusal),
        Ok(g) => {
            mend_zones(map, g);
            Ok(())
        }
    }
}

// Lists the positions of the bytes that `mend` would change, ascending. Refused: as `mend`, then 17; a refusal changes no entry.
pub fn mend_positions(map: &[u8], list: &mut [u32]) -> Result<usize, Refusal>
    ensures { ListsChanges map.now list.old result list.new }
{
    let g = map::check_zones(map)?;
    // Lent no entries, it counts and writes nothing.
    let n = list_changes(map, g, &mut list[..0]);
    if list.len() < n {
        return Err(Reason::Entries.into());
    }
    list_changes(map, g, list);
    Ok(n)
}

// Mends the zones one by one.
fn mend_zones(map: &mut [u8], g: Geometry)
    requires { MendableMap map.old g }
    ensures { map.new ≡ mended map.old }
{
    let mut pieces = [Piece::NONE; MOST_LINES];
    let lack = cross_lack(map, g);
    for z in 0..g.zones {
        mend_zone(map, g, z, change_of(z, lack), &mut pieces);
    }
}

// What the cross checks lack to give 255.
fn cross_lack(map: &[u8], g: Geometry) -> u8
    requires { AcceptedGeometry g × (length map.now ≡ g.zones * g.sector) }
    ensures lack { result ≡ lacking (list_of.map cross_of (blocks_of g map.now)) }
    ensures bytes { Bytes map.now }
{
    map::cross_checks(map, g) ^ 255
}

// What zone z's cross check changes by: only zone 0's is set.
fn change_of(z: usize, lack: u8) -> u8
    ensures { result ≡ change_of z lack }
{
    if z == 0 { lack } else { 0 }
}

// Draws zone z anew.
fn mend_zone(map: &mut [u8], g: Geometry, z: usize, change: u8, pieces: &mut [Piece])
    requires { ZoneMend map.old g z (length pieces.old) }
    ensures { map.new ≡ zone_put g z map.old (block_mended g map.old z change) }
{
    let n = writer::staying(map, g, z, 0, pieces);
    writer::draw_zone(&mut map[g.block(z)], z, g, &pieces[..n], change);
}

// Writes the positions of the bytes that `mend` would change, as many as there is room for. Answers how many there are.
fn list_changes(map: &[u8], g: Geometry, list: &mut [u32]) -> usize
    requires { MendableMap map.now g }
    ensures { (result ≡ length (changed_at map.now)) × (list.new ≡ sets list.old 0 (changed_at map.now)) }
{
    let mut pieces = [Piece::NONE; MOST_LINES];
    let mut block = [0u8; 1024];
    let lack = cross_lack(map, g);
    let mut n = 0;
    for z in 0..g.zones {
        let new = &mut block[..g.sector];
        mended_block(map, g, z, change_of(z, lack), &mut pieces, new);
        n = list_differing(map::block(map, g, z), new, z * g.sector, list, n);
    }
    n
}

// Zone z's block as `mend` would leave it, into `block`.
fn mended_block(
    map: &[u8],
    g: Geometry,
    z: usize,
    change: u8,
    pieces: &mut [Piece],
    block: &mut [u8],
)
    requires { ZoneMend map.now g z (length pieces.old) × (length block.old ≡ g.sector) }
    ensures { block.new ≡ block_mended g map.now z change }
{
    block.copy_from_slice(map::block(map, g, z));
    let n = writer::staying(map, g, z, 0, pieces);
    writer::draw_zone(block, z, g, &pieces[..n], change);
}

// Writes the positions at which two blocks differ, counted from `at`, from entry n of a list on, as many as there is room for. Answers
// the entry after them.
fn list_differing(old: &[u8], new: &[u8], at: usize, list: &mut [u32], n: usize) -> usize
    requires { (length old.now ≡ length new.now) × (at + length old.now < 2 ^ 32) × (n ≤ at) }
    ensures list { list.new ≡ sets list.old n (differ_from at old.now new.now) }
    ensures next { result ≡ n + length (differ_from at old.now new.now) }
{
    let mut k = n;
    for i in 0..old.len() {
        if old[i] != new[i] {
            k = put(at + i, list, k);
        }
    }
    k
}

// Writes a position at entry n, if there is room. Answers the entry after it.
fn put(position: usize, list: &mut [u32], n: usize) -> usize
    requires { (position < 2 ^ 32) × (n < 2 ^ 32) }
    ensures list { list.new ≡ sets list.old n (position ∷ []) }
    ensures next { result ≡ n + 1 }
{
    if list.len() <= n {
        return n + 1;
    }
    list[n] = position as u32;
    n + 1
}
