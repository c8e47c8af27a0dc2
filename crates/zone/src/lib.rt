// The zone walker (document 01, "Bits, fragments, chains"). It receives a zone's block, the part of the map from z*S to
// (z+1)*S, and passes its fragments once, from the first allocation bit to the zone's end.
#![tactic(auto)]

ghost use Rattle.std.specs.Prelude.{◌≡◌, ◌<◌, ◌≤◌, length};
ghost use Rattle.geometry.specs.Accepted.{AcceptedGeometry};
ghost use Rattle.geometry.specs.Places.{first_bit, end_bit};
ghost use Rattle.model.specs.Chain.{onward};
ghost use Rattle.model.specs.Blocks.{free_link, link_in};
ghost use Rattle.model.specs.Check.{zone_read, holder_fits};
ghost use Rattle.zone.specs.Walk.{holder_of, end_holds, first_holds, entry_holds, verdict_of};

use fragment::{fragment_at, link_from, next_after};
use geometry::{BlockBit, Geometry, Reason, Refusal};

// Judges zone z: 6, 5, 7, in one pass. A broken fragment ends the walk, since 6 comes first; the chain and the owners are
// told at the end. There `next` is 0 unless some link landed on no fragment's start.
pub fn judge(block: &[u8], z: usize, g: Geometry) -> Result<(), Refusal>
    requires { AcceptedGeometry g × (z < g.zones) × (length block.now ≡ g.sector) }
    ensures { result ≡ verdict_of (zone_read g z block.now) }
{
    let zone = z as u32;
    let broken = |reason| Refusal { reason, zone };
    let start = g.zone_first(z);
    let end = g.zone_end();
    let link = free_link(block);
    let mut at = start;
    let mut next = first_free(block);
    let mut owners = true;
    // No `for`: each fragment's own length leads on to the next one, and a broken one is told from the zone's end.
    while at < end {
        let Some(f) = fragment_at(block, at, end, g.idlen, g.cluster) else {
            return Err(broken(Reason::Fragment));
        };
        let owner = (at != next).then_some(f.id);
        let to = BlockBit(at.0 + f.len);
        owners &= entry_holds(g, z, at == start, owner, to);
        next = next_after(at, next, f.id as usize);
        at = to;
    }
    if link < 32768 || next.0 != 0 {
        Err(broken(Reason::FreeChain))
    } else if owners {
        Ok(())
    } else {
        Err(broken(Reason::Owner))
    }
}

// FreeLink with its top bit.
fn free_link(block: &[u8]) -> u16
    requires { 4 ≤ length block.now }
    ensures { result ≡ free_link block.now }
{
    u16::from_le_bytes([block[1], block[2]])
}

// Where the first free fragment starts, or 0 where there is none. FreeLink counts from block bit 8.
pub fn first_free(block: &[u8]) -> BlockBit
    requires { 4 ≤ length block.now }
    ensures { (result.0 ≡ onward 8 (link_in block.now)) × (result.0 < 32776) }
{
    let link = free_link(block).saturating_sub(32768);
    link_from(BlockBit(8), usize::from(link))
}

// The id rule: an owner's number lies from 1 to P*nzones - 1.
fn id_holds(g: Geometry, owner: Option<u32>) -> bool
    requires { AcceptedGeometry g }
    ensures { result ≡ holder_fits g (holder_of owner) }
{
    match owner {
        Some(id) => g.is_id(1, id as usize),
        None => true,
    }
}

// The disc-end rule for a fragment that ends at `to`: object 1 owns what ends past the disc.
fn end_holds(g: Geometry, z: usize, to: BlockBit, owner: Option<u32>) -> bool
    requires { AcceptedGeometry g × (z < g.zones) × (first_bit z ≤ to.0) × (to.0 ≤ end_bit g) }
    ensures { result ≡ end_holds g z to.0 (holder_of owner) }
{
    owner == Some(1) || g.disc_bit(z, to).0 <= g.end.0
}

// The object 2 rule: the first fragment of the middle zone is owned by 2.
fn first_holds(g: Geometry, z: usize, first: bool, owner: Option<u32>) -> bool
    ensures { result ≡ first_holds g z first (holder_of owner) }
{
    let middle = first && z == g.zones / 2;
    !middle || owner == Some(2)
}

// The three owner rules of one fragment: whether it is its zone's first, its owner, where it ends.
fn entry_holds(g: Geometry, z: usize, first: bool, owner: Option<u32>, to: BlockBit) -> bool
    requires { AcceptedGeometry g × (z < g.zones) × (first_bit z ≤ to.0) × (to.0 ≤ end_bit g) }
    ensures { result ≡ entry_holds g z first to.0 (holder_of owner) }
{
    id_holds(g, owner) && end_holds(g, z, to, owner) && first_holds(g, z, first, owner)
}
