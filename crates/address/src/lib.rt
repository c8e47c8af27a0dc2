// The disc address of a byte of a file, and how far may be read from there (document 01, "The calls"; document 02, R-11).
#![tactic(auto)]

ghost use Rattle.std.specs.Prelude.{◌≡◌, ◌*◌, ◌<◌, ◌≤◌};
ghost use Rattle.geometry.specs.Accepted.{AcceptedGeometry};
ghost use Rattle.map.specs.Accepted.{AcceptedMap};
ghost use Rattle.walk.specs.HeldBy.{held_in_order};
ghost use Rattle.address.specs.Address.{start_offset, locate, within, location_found, address_answer, Reaches};
ghost use Rattle.address.specs.Laws.{AddressLaws};

use geometry::{Geometry, Reason, Refusal};

// The edition E+, whose internal numbers are another matter.
const PLUS: usize = 1;

// So many internal numbers there are: they have 24 bits.
const NUMBERS: u32 = 1 << 24;

// No object is as long as 2^42 bytes: from there on a position is refused without a search. Below it, offset and position make no sum that wraps.
const LONGEST: u64 = 1 << 42;

// Where a byte of an object lies on the disc, and how many bytes there are from it to its piece's end, itself included: they lie
// at `address` and straight after it, and the object's next byte is in another piece, even one that touches.
#[derive(Clone, Copy, Debug, PartialEq, Eq)]
pub struct Location {
    pub address: u64,
    pub run: u64,
}

// Where byte `position` of the file with internal number n lies. Refused: 1 to 7 as `map::check`, 8, 10, 16.
pub fn address(map: &[u8], n: u32, position: u64) -> Result<Location, Refusal>
    ensures { Reaches map.now n position result }
{
    let g = map::check(map)?;
    address_in(map, g, n, position)
}

// An address on an accepted map: 8, on E+ whatever the number; 10, 16.
fn address_in(map: &[u8], g: Geometry, n: u32, position: u64) -> Result<Location, Refusal>
    requires { AcceptedMap map.now g }
    ensures { Reaches map.now n position result }
{
    if g.version == PLUS || n >= NUMBERS {
        return Err(Reason::Id.into());
    }
    let id = n / 256;
    let start = g.start_zone(2, id)?;
    if listing::count_held(map, g, id) == 0 {
        return Err(Reason::IdAbsent.into());
    }
    if position >= LONGEST {
        return Err(Reason::PastEnd.into());
    }
    locate(map, g, id, start, start_offset(g, n) + position as usize)
}

// The start offset of an internal number.
fn start_offset(g: Geometry, n: u32) -> usize
    requires { AcceptedGeometry g }
    ensures { (result ≡ start_offset g n) × (result < 262144) }
{
    (n as usize % 256).saturating_sub(1) * g.sector
}

// Byte i of an object, whose pieces are those from its start zone on and then those of the zones before it. Its frame is its own, so that its two
// iterators, which hold a geometry each, do not lie under the check's.
#[inline(never)]
fn locate(map: &[u8], g: Geometry, id: u32, start: usize, i: usize) -> Result<Location, Refusal>
    requires { AcceptedMap map.now g × (start ≤ g.zones) }
    ensures { result ≡ address_answer (within (locate g.unit (held_in_order g id map.now start) i)) }
{
    let late = walk::lines(map, g, start, g.zones);
    let early = walk::lines(map, g, 0, start);
    let mut left = i;
    for line in late.chain(early).filter(|line| line.holder == id) {
        let len = bytes(g, line.len);
        if left < len {
            return Ok(Location {
                address: (bytes(g, line.start.0) + left) as u64,
                run: (len - left) as u64,
            });
        }
        left -= len;
    }
    Err(Reason::PastEnd.into())
}

// So many map bits in bytes.
fn bytes(g: Geometry, bits: u32) -> usize
    requires { AcceptedGeometry g }
    ensures { (result ≡ bits * g.unit) × (result ≤ 17592186044416) }
{
    bits as usize * g.unit
}

// The laws of specs/Laws, as a contract: the function does nothing.
pub fn address_laws()
    ensures { AddressLaws }
{}
