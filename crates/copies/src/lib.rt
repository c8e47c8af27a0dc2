// The two copies of a disc's map (document 02, R-5).
//
//        middle zone's first map bit
//        |
//   -----+----------------------+----------------------+-----
//        |  first, nzones*S     |  second, nzones*S    |
//   -----+----------------------+----------------------+-----
//
// A pair yields a map while one of the two is accepted. So no call of this library writes both: each is lent one map to write, and a copy
// that is accepted can be left alone until the other is whole.
#![tactic(auto)]

ghost use Rattle.std.specs.Prelude.{◌≡◌};
ghost use Rattle.geometry.specs.Accepted.{AcceptedGeometry};
ghost use Rattle.copies.specs.Copies.{same_bytes, Chooses, CopiesOver, copies_of, TellsAddresses};
ghost use Rattle.copies.specs.Laws.{CopyLaws};

use geometry::{Geometry, Reason, Refusal};

// One of the two copies, by the number that C is told.
#[derive(Clone, Copy, Debug, PartialEq, Eq)]
pub enum Which {
    First = 1,
    Second,
}

// Which copy is an accepted map: the first if it is, else the second, else the first's refusal. `part` is that copy, or empty; `equal`
// tells in every case whether the copies are byte for byte equal.
#[derive(Clone, Copy, Debug, PartialEq, Eq)]
pub struct Chosen<'a> {
    pub which: Result<Which, Refusal>,
    pub part: &'a [u8],
    pub equal: bool,
}

// The disc addresses of the two copies.
#[derive(Clone, Copy, Debug, PartialEq, Eq)]
pub struct Addresses {
    pub first: u64,
    pub second: u64,
}

// Chooses among two copies. Both have one lifetime, as the part may be of either.
pub fn choose<'a>(first: &'a [u8], second: &'a [u8]) -> Chosen<'a>
    ensures { Chooses first.now second.now result }
{
    let (which, part) = match map::check(first) {
        Ok(_) => (Ok(Which::First), first),
        Err(refusal) => match map::check(second) {
            Ok(_) => (Ok(Which::Second), second),
            Err(_) => (Err(refusal), &first[..0]),
        },
    };
    Chosen {
        which,
        part,
        equal: same(first, second),
    }
}

// Whether two slices are byte for byte equal.
fn same(a: &[u8], b: &[u8]) -> bool
    ensures { result ≡ same_bytes a.now b.now }
{
    a == b
}

// Writes an accepted map over another copy, whatever that holds. Refused: the source's 1 to 7, then 1 where the lengths differ; a
// refusal changes no byte of the target.
pub fn copy_over(source: &[u8], target: &mut [u8]) -> Result<(), Refusal>
    ensures { CopiesOver source.now target.old result target.new }
{
    map::check(source)?;
    if target.len() != source.len() {
        return Err(Reason::MapLength.into());
    }
    target.copy_from_slice(source);
    Ok(())
}

// Where the two copies of an accepted map lie on its disc. Refused: 1 to 7.
pub fn copy_addresses(map: &[u8]) -> Result<Addresses, Refusal>
    ensures { TellsAddresses map.now result }
{
    let g = map::check(map)?;
    Ok(addresses_of(g))
}

// Where the copies of a disc's map lie.
fn addresses_of(g: Geometry) -> Addresses
    requires { AcceptedGeometry g }
    ensures { result ≡ copies_of g }
{
    let first = g.first_disc_bit(g.zones / 2).0 as usize * g.unit;
    Addresses {
        first: first as u64,
        second: (first + g.zones * g.sector) as u64,
    }
}

// The laws of specs/Laws, as a contract: the function does nothing.
pub fn copy_laws()
    ensures { CopyLaws }
{}
