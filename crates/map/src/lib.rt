// The check of a whole map (document 01, "Numbered refusals"): accepted with its geometry, or the first refusal in the
// order 1 (under 64), 2, 1, 3 over all zones, 4; then zone by zone 6, 5, 7.
#![tactic(auto)]

ghost use Rattle.std.specs.Prelude.{◌≡◌, [], ◌*◌, ◌<◌, ◌≤◌, eqb, length, get_or};
ghost use Rattle.checks.specs.Words.{zone_check};
ghost use Rattle.checks.specs.Cross.{cross_of};
ghost use Rattle.geometry.specs.Accepted.{AcceptedGeometry};
ghost use Rattle.geometry.specs.Record.{geometry_of};
ghost use Rattle.model.specs.Answer.{answered};
ghost use Rattle.model.specs.Rules.{zone_block};
ghost use Rattle.model.specs.Check.{zones_read, differing, cross_sum, measured, blocks_of};
ghost use Rattle.map.specs.Checked.{first_differing, check_answer, mend_checked, check_bytes, zones_told, Checks};

use geometry::{Geometry, Reason, Refusal};

// The block of zone z.
pub fn block(map: &[u8], g: Geometry, z: usize) -> &[u8]
    requires { AcceptedGeometry g × (length map.now ≡ g.zones * g.sector) × (z < g.zones) }
    ensures { result.now ≡ zone_block g map.now z }
{
    &map[g.block(z)]
}

// Checks any bytes as a map.
pub fn check(map: &[u8]) -> Result<Geometry, Refusal>
    ensures { Checks map.now result }
{
    let g = sized(map)?;
    check_bytes(map, g)?;
    judge_zones(map, g)?;
    Ok(g)
}

// The same with 3 and 4 ignored, as the mender asks it (document 02, R-9).
pub fn check_zones(map: &[u8]) -> Result<Geometry, Refusal>
    ensures { result ≡ mend_checked map.now }
{
    let geometry = sized(map)?;
    judge_zones(map, geometry)?;
    Ok(geometry)
}

// The record, then the length.
fn sized(map: &[u8]) -> Result<Geometry, Refusal>
    ensures { result ≡ check_answer (geometry_of map.now) (measured map.now (answered [])) }
{
    let g = geometry::read_record(map)?;
    if map.len() != g.zones * g.sector {
        return Err(Reason::MapLength.into());
    }
    Ok(g)
}

// The zone checks of all zones, then the cross checks.
fn check_bytes(map: &[u8], g: Geometry) -> Result<(), Refusal>
    requires { AcceptedGeometry g × (length map.now ≡ g.zones * g.sector) }
    ensures { result ≡ check_bytes (blocks_of g map.now) }
{
    if let Some(zone) = first_differing(map, g) {
        return Err(Refusal {
            reason: Reason::ZoneCheck,
            zone,
        });
    }
    if cross_checks(map, g) != 255 {
        return Err(Reason::CrossChecks.into());
    }
    Ok(())
}

// The first zone whose check differs.
fn first_differing(map: &[u8], g: Geometry) -> Option<u32>
    requires { AcceptedGeometry g × (length map.now ≡ g.zones * g.sector) }
    ensures { result ≡ first_differing (differing 0 (blocks_of g map.now)) }
{
    for z in 0..g.zones {
        if !check_holds(block(map, g, z)) {
            return Some(z as u32);
        }
    }
    None
}

// Whether a block's first byte is its zone check.
fn check_holds(block: &[u8]) -> bool
    requires { 4 ≤ length block.now }
    ensures { result ≡ eqb (get_or block.now 0 0) (zone_check block.now) }
{
    block[0] == checks::zone_check(block)
}

// The exclusive-or of all cross checks.
pub fn cross_checks(map: &[u8], g: Geometry) -> u8
    requires { AcceptedGeometry g × (length map.now ≡ g.zones * g.sector) }
    ensures { result ≡ cross_sum (blocks_of g map.now) }
{
    let mut sum = 0;
    for z in (0..g.zones).rev() {
        sum = cross_check(block(map, g, z)) ^ sum;
    }
    sum
}

// A block's cross check.
fn cross_check(block: &[u8]) -> u8
    requires { 4 ≤ length block.now }
    ensures { result ≡ cross_of block.now }
{
    block[3]
}

// Zone by zone: fragments, chain, owners. The lowest zone that breaks a rule is told.
fn judge_zones(map: &[u8], g: Geometry) -> Result<(), Refusal>
    requires { AcceptedGeometry g × (length map.now ≡ g.zones * g.sector) }
    ensures { result ≡ zones_told (zones_read g 0 (blocks_of g map.now)) }
{
    for z in 0..g.zones {
        zone::judge(block(map, g, z), z, g)?;
    }
    Ok(())
}
