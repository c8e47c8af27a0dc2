// The exports of the static library for C and Rust: each forwards to the function of crate `shoalswift` with the same name, and has its
// full contract. A slice is a pointer and a length, a reference to a number a pointer; include/shoalswift.h declares them. Each answers the
// refusal number (0: accepted); `zone` is always written, the zone told or 0, and so is every other number lent, 0 where the call is
// refused, but for `equal`, which is told of refused copies too.
#![tactic(auto)]

ghost use Rattle.std.specs.Prelude.{◌≡◌};
ghost use Rattle.model.specs.Check.{map_read};
ghost use Rattle.map.specs.Checked.{checked, check_told};
ghost use Rattle.listing.specs.Listed.{object_found, free_found};
ghost use Rattle.address.specs.Address.{location_found, address_told};
ghost use Rattle.sweep.specs.Sweep.{object_sweep, free_sweep};
ghost use Rattle.copies.specs.Copies.{copy_found, same_bytes, choice_told, addresses_found, addresses_told};
ghost use Rattle.formatted.specs.Drawn.{length_found};
ghost use Rattle.format.specs.Formats.{length_told};
ghost use Rattle.shoalswift.specs.Geometry.{geometry_numbers};
ghost use Rattle.shoalswift.specs.Told.{ListTold, SweepTold, ReleaseTold, PlaceTold, ClaimTold, CopyTold, MendTold, PositionsTold, FormatTold};

// Checks a map.
#[unsafe(no_mangle)]
pub extern "C" fn shoalswift_check(map: &[u8], zone: &mut u32) -> u32
    ensures { (result, zone.new) ≡ check_told (map_read map.now) }
{
    shoalswift::shoalswift_check(map, zone)
}

// The geometry of an accepted map: S, B, nzones, P (the ids per zone) and disc_size, so that no caller has to read the record.
#[unsafe(no_mangle)]
pub extern "C" fn shoalswift_geometry(
    map: &[u8],
    sector: &mut u32,
    unit: &mut u32,
    zones: &mut u32,
    ids: &mut u32,
    size: &mut u64,
    zone: &mut u32,
) -> u32
    ensures { (result, zone.new, sector.new, unit.new, zones.new, ids.new, size.new)
        ≡ geometry_numbers (checked map.now) }
{
    shoalswift::shoalswift_geometry(map, sector, unit, zones, ids, size, zone)
}

// Lists an object's pieces in object order.
#[unsafe(no_mangle)]
pub extern "C" fn shoalswift_list(
    map: &[u8],
    id: u32,
    list: &mut [u32],
    pairs: &mut u64,
    zone: &mut u32,
) -> u32
    ensures { ListTold (object_found map.now id) list.old (result, zone.new, pairs.new) list.new }
{
    shoalswift::shoalswift_list(map, id, list, pairs, zone)
}

// Lists the free spans, ascending.
#[unsafe(no_mangle)]
pub extern "C" fn shoalswift_free(
    map: &[u8],
    list: &mut [u32],
    pairs: &mut u64,
    zone: &mut u32,
) -> u32
    ensures { ListTold (free_found map.now) list.old (result, zone.new, pairs.new) list.new }
{
    shoalswift::shoalswift_free(map, list, pairs, zone)
}

// Where a byte of a file lies, and how many bytes there are from it to its piece's end.
#[unsafe(no_mangle)]
pub extern "C" fn shoalswift_address(
    map: &[u8],
    n: u32,
    position: u64,
    address: &mut u64,
    run: &mut u64,
    zone: &mut u32,
) -> u32
    ensures { (result, zone.new, address.new, run.new) ≡ address_told (location_found map.now n position) }
{
    shoalswift::shoalswift_address(map, n, position, address, run, zone)
}

// Sweeps an ordinary object within a stretch of image.
#[unsafe(no_mangle)]
pub extern "C" fn shoalswift_sweep_object(
    map: &[u8],
    image: &mut [u8],
    first: u64,
    fill: u8,
    id: u32,
    count: &mut u64,
    zone: &mut u32,
) -> u32
    ensures { SweepTold (object_sweep map.now id) first fill image.old
        (result, zone.new, count.new) image.new }
{
    shoalswift::shoalswift_sweep_object(map, image, first, fill, id, count, zone)
}

// Sweeps free space within a stretch of image.
#[unsafe(no_mangle)]
pub extern "C" fn shoalswift_sweep_free(
    map: &[u8],
    image: &mut [u8],
    first: u64,
    fill: u8,
    count: &mut u64,
    zone: &mut u32,
) -> u32
    ensures { SweepTold (free_sweep map.now) first fill image.old (result, zone.new, count.new) image.new }
{
    shoalswift::shoalswift_sweep_free(map, image, first, fill, count, zone)
}

// Releases an ordinary object and returns its pairs in object order.
#[unsafe(no_mangle)]
pub extern "C" fn shoalswift_release(
    map: &mut [u8],
    id: u32,
    list: &mut [u32],
    pairs: &mut u64,
    zone: &mut u32,
) -> u32
    ensures { ReleaseTold map.old id list.old (result, zone.new, pairs.new) map.new list.new }
{
    shoalswift::shoalswift_release(map, id, list, pairs, zone)
}

// Places a list of pieces under an absent id.
#[unsafe(no_mangle)]
pub extern "C" fn shoalswift_place(map: &mut [u8], id: u32, list: &[u32], zone: &mut u32) -> u32
    ensures { PlaceTold map.old id list.now (result, zone.new) map.new }
{
    shoalswift::shoalswift_place(map, id, list, zone)
}

// Claims room for so many bytes near a parent zone and returns the pairs in object order.
#[unsafe(no_mangle)]
pub extern "C" fn shoalswift_claim(
    map: &mut [u8],
    size: u64,
    parent: u32,
    list: &mut [u32],
    id: &mut u32,
    pairs: &mut u64,
    zone: &mut u32,
) -> u32
    ensures { ClaimTold map.old size parent list.old (result, zone.new, id.new, pairs.new) map.new list.new }
{
    shoalswift::shoalswift_claim(map, size, parent, list, id, pairs, zone)
}

// Which of two copies is an accepted map, and whether they are equal. The part that `copies::choose` hands back is the copy told.
#[unsafe(no_mangle)]
pub extern "C" fn shoalswift_choose_copy<'a>(
    first: &'a [u8],
    second: &'a [u8],
    which: &mut u32,
    equal: &mut u32,
    zone: &mut u32,
) -> u32
    ensures { (result, zone.new, which.new, equal.new)
        ≡ choice_told (copy_found first.now second.now) (same_bytes first.now second.now) }
{
    shoalswift::shoalswift_choose_copy(first, second, which, equal, zone)
}

// Writes an accepted map over another copy.
#[unsafe(no_mangle)]
pub extern "C" fn shoalswift_copy_over(source: &[u8], target: &mut [u8], zone: &mut u32) -> u32
    ensures { CopyTold source.now target.old (result, zone.new) target.new }
{
    shoalswift::shoalswift_copy_over(source, target, zone)
}

// The disc addresses of an accepted map's two copies.
#[unsafe(no_mangle)]
pub extern "C" fn shoalswift_copy_addresses(
    map: &[u8],
    first: &mut u64,
    second: &mut u64,
    zone: &mut u32,
) -> u32
    ensures { (result, zone.new, first.new, second.new) ≡ addresses_told (addresses_found map.now) }
{
    shoalswift::shoalswift_copy_addresses(map, first, second, zone)
}

// Mends a map.
#[unsafe(no_mangle)]
pub extern "C" fn shoalswift_mend(map: &mut [u8], zone: &mut u32) -> u32
    ensures { MendTold map.old (result, zone.new) map.new }
{
    shoalswift::shoalswift_mend(map, zone)
}

// The positions of the bytes that mending would change.
#[unsafe(no_mangle)]
pub extern "C" fn shoalswift_mend_positions(
    map: &[u8],
    list: &mut [u32],
    positions: &mut u64,
    zone: &mut u32,
) -> u32
    ensures { PositionsTold map.now list.old (result, zone.new, positions.new) list.new }
{
    shoalswift::shoalswift_mend_positions(map, list, positions, zone)
}

// Draws the map of a blank disc.
#[unsafe(no_mangle)]
pub extern "C" fn shoalswift_format(
    log2secsize: u32,
    capacity: u64,
    idlen: u32,
    map: &mut [u8],
    zone: &mut u32,
) -> u32
    ensures { FormatTold log2secsize capacity idlen map.old (result, zone.new) map.new }
{
    shoalswift::shoalswift_format(log2secsize, capacity, idlen, map, zone)
}

// The length of the map that formatting wants.
#[unsafe(no_mangle)]
pub extern "C" fn shoalswift_format_length(
    log2secsize: u32,
    capacity: u64,
    idlen: u32,
    length: &mut u64,
    zone: &mut u32,
) -> u32
    ensures { (result, zone.new, length.new) ≡ length_told (length_found log2secsize capacity idlen) }
{
    shoalswift::shoalswift_format_length(log2secsize, capacity, idlen, length, zone)
}
