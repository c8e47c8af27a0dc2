// The library with every call as a function of plain numbers and slices: crate `shoalswift_c` exports each for C and Rust, with the same
// clauses. Each answers the refusal number (0: accepted); `zone` is always written, the zone told or 0, and so is every other number
// lent, 0 where the call is refused, but for `equal`, which is told of refused copies too. Each has the full contract of the call that
// it forwards to.
#![tactic(auto)]

ghost use Rattle.std.specs.Prelude.{◌≡◌};
ghost use Rattle.model.specs.Check.{map_read};
ghost use Rattle.map.specs.Checked.{checked, check_told};
ghost use Rattle.listing.specs.Listed.{object_found, free_found};
ghost use Rattle.address.specs.Address.{location_found, address_told};
ghost use Rattle.sweep.specs.Sweep.{object_sweep, free_sweep};
ghost use Rattle.copies.specs.Copies.{copy_found, same_bytes, choice_told, addresses_found, addresses_told};
ghost use Rattle.formatted.specs.Drawn.{length_found};
ghost use Rattle.format.specs.Formats.{length_told};
ghost use Rattle.shoalswift.specs.Geometry.{geometry_numbers};
ghost use Rattle.shoalswift.specs.Told.{told, ListTold, SweepTold, ReleaseTold, PlaceTold, ClaimTold, CopyTold, MendTold, PositionsTold, FormatTold};

use address::Location;
use claim::Given;
use copies::Addresses;
use geometry::Refusal;

// Checks a map.
pub fn shoalswift_check(map: &[u8], zone: &mut u32) -> u32
    ensures { (result, zone.new) ≡ check_told (map_read map.now) }
{
    told(map::check(map).and(Ok(())), (), zone).0
}

// The geometry of an accepted map: S, B, nzones, P (the ids per zone) and disc_size, so that no caller has to read the record.
pub fn shoalswift_geometry(
    map: &[u8],
    sector: &mut u32,
    unit: &mut u32,
    zones: &mut u32,
    ids: &mut u32,
    size: &mut u64,
    zone: &mut u32,
) -> u32
    ensures { (result, zone.new, sector.new, unit.new, zones.new, ids.new, size.new)
        ≡ geometry_numbers (checked map.now) }
{
    match map::check(map) {
        Ok(g) => {
            *sector = g.sector as u32;
            *unit = g.unit as u32;
            *zones = g.zones as u32;
            *ids = g.ids as u32;
            *size = g.size as u64;
            *zone = 0;
            0
        }
        Err(refusal) => {
            *sector = 0;
            *unit = 0;
            *zones = 0;
            *ids = 0;
            *size = 0;
            *zone = refusal.zone;
            refusal.number()
        }
    }
}

// Lists an object's pieces in object order.
pub fn shoalswift_list(
    map: &[u8],
    id: u32,
    list: &mut [u32],
    pairs: &mut u64,
    zone: &mut u32,
) -> u32
    ensures { ListTold (object_found map.now id) list.old (result, zone.new, pairs.new) list.new }
{
    let (number, n) = told(listing::list(map, id, list), 0, zone);
    *pairs = n as u64;
    number
}

// Lists the free spans, ascending.
pub fn shoalswift_free(map: &[u8], list: &mut [u32], pairs: &mut u64, zone: &mut u32) -> u32
    ensures { ListTold (free_found map.now) list.old (result, zone.new, pairs.new) list.new }
{
    let (number, n) = told(listing::free(map, list), 0, zone);
    *pairs = n as u64;
    number
}

// Where a byte of a file lies, and how many bytes there are from it to its piece's end.
pub fn shoalswift_address(
    map: &[u8],
    n: u32,
    position: u64,
    address: &mut u64,
    run: &mut u64,
    zone: &mut u32,
) -> u32
    ensures { (result, zone.new, address.new, run.new) ≡ address_told (location_found map.now n position) }
{
    let nowhere = Location { address: 0, run: 0 };
    let (number, l) = told(address::address(map, n, position), nowhere, zone);
    *address = l.address;
    *run = l.run;
    number
}

// Sweeps an ordinary object within a stretch of image.
pub fn shoalswift_sweep_object(
    map: &[u8],
    image: &mut [u8],
    first: u64,
    fill: u8,
    id: u32,
    count: &mut u64,
    zone: &mut u32,
) -> u32
    ensures { SweepTold (object_sweep map.now id) first fill image.old
        (result, zone.new, count.new) image.new }
{
    let (number, n) = told(sweep::sweep_object(map, image, first, fill, id), 0, zone);
    *count = n;
    number
}

// Sweeps free space within a stretch of image.
pub fn shoalswift_sweep_free(
    map: &[u8],
    image: &mut [u8],
    first: u64,
    fill: u8,
    count: &mut u64,
    zone: &mut u32,
) -> u32
    ensures { SweepTold (free_sweep map.now) first fill image.old (result, zone.new, count.new) image.new }
{
    let (number, n) = told(sweep::sweep_free(map, image, first, fill), 0, zone);
    *count = n;
    number
}

// Releases an ordinary object and returns its pairs in object order.
pub fn shoalswift_release(
    map: &mut [u8],
    id: u32,
    list: &mut [u32],
    pairs: &mut u64,
    zone: &mut u32,
) -> u32
    ensures { ReleaseTold map.old id list.old (result, zone.new, pairs.new) map.new list.new }
{
    let (number, n) = told(release::release(map, id, list), 0, zone);
    *pairs = n as u64;
    number
}

// Places a list of pieces under an absent id.
pub fn shoalswift_place(map: &mut [u8], id: u32, list: &[u32], zone: &mut u32) -> u32
    ensures { PlaceTold map.old id list.now (result, zone.new) map.new }
{
    told(place::place(map, id, list), (), zone).0
}

// Claims room for so many bytes near a parent zone and returns the pairs in object order.
pub fn shoalswift_claim(
    map: &mut [u8],
    size: u64,
    parent: u32,
    list: &mut [u32],
    id: &mut u32,
    pairs: &mut u64,
    zone: &mut u32,
) -> u32
    ensures { ClaimTold map.old size parent list.old (result, zone.new, id.new, pairs.new) map.new list.new }
{
    let nothing = Given { id: 0, pairs: 0 };
    let (number, given) = told(claim::claim(map, size, parent, list), nothing, zone);
    *id = given.id;
    *pairs = given.pairs as u64;
    number
}

// Which of two copies is an accepted map, and whether they are equal. The part that `copies::choose` hands back is the copy told.
pub fn shoalswift_choose_copy<'a>(
    first: &'a [u8],
    second: &'a [u8],
    which: &mut u32,
    equal: &mut u32,
    zone: &mut u32,
) -> u32
    ensures { (result, zone.new, which.new, equal.new)
        ≡ choice_told (copy_found first.now second.now) (same_bytes first.now second.now) }
{
    let chosen = copies::choose(first, second);
    let (number, copy) = told(chosen.which.map(|copy| copy as u32), 0, zone);
    *which = copy;
    *equal = u32::from(chosen.equal);
    number
}

// Writes an accepted map over another copy.
pub fn shoalswift_copy_over(source: &[u8], target: &mut [u8], zone: &mut u32) -> u32
    ensures { CopyTold source.now target.old (result, zone.new) target.new }
{
    told(copies::copy_over(source, target), (), zone).0
}

// The disc addresses of an accepted map's two copies.
pub fn shoalswift_copy_addresses(
    map: &[u8],
    first: &mut u64,
    second: &mut u64,
    zone: &mut u32,
) -> u32
    ensures { (result, zone.new, first.new, second.new) ≡ addresses_told (addresses_found map.now) }
{
    let nowhere = Addresses {
        first: 0,
        second: 0,
    };
    let (number, l) = told(copies::copy_addresses(map), nowhere, zone);
    *first = l.first;
    *second = l.second;
    number
}

// Mends a map.
pub fn shoalswift_mend(map: &mut [u8], zone: &mut u32) -> u32
    ensures { MendTold map.old (result, zone.new) map.new }
{
    told(mend::mend(map), (), zone).0
}

// The positions of the bytes that mending would change.
pub fn shoalswift_mend_positions(
    map: &[u8],
    list: &mut [u32],
    positions: &mut u64,
    zone: &mut u32,
) -> u32
    ensures { PositionsTold map.now list.old (result, zone.new, positions.new) list.new }
{
    let (number, n) = told(mend::mend_positions(map, list), 0, zone);
    *positions = n as u64;
    number
}

// Draws the map of a blank disc.
pub fn shoalswift_format(
    log2secsize: u32,
    capacity: u64,
    idlen: u32,
    map: &mut [u8],
    zone: &mut u32,
) -> u32
    ensures { FormatTold log2secsize capacity idlen map.old (result, zone.new) map.new }
{
    told(format::format(log2secsize, capacity, idlen, map), (), zone).0
}

// The length of the map that formatting wants.
pub fn shoalswift_format_length(
    log2secsize: u32,
    capacity: u64,
    idlen: u32,
    length: &mut u64,
    zone: &mut u32,
) -> u32
    ensures { (result, zone.new, length.new) ≡ length_told (length_found log2secsize capacity idlen) }
{
    let (number, n) = told(format::format_length(log2secsize, capacity, idlen), 0, zone);
    *length = n as u64;
    number
}

// What a call answers, as numbers: 0 and its value, with zone 0 told; or the refusal's number and `none`, with its zone told.
fn told<T: Copy>(answer: Result<T, Refusal>, none: T, zone: &mut u32) -> (u32, T)
    ensures { (result.0, zone.new, result.1) ≡ told none answer }
{
    match answer {
        Ok(value) => {
            *zone = 0;
            (0, value)
        }
        Err(refusal) => {
            *zone = refusal.zone;
            (refusal.number(), none)
        }
    }
}
