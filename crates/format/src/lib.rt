// Formats a blank disc (document 02, R-13): chooses bytes per map bit and the zones for a capacity, and draws the map. What is drawn is two pieces at
// most, object 2 and the map's overhang in object 1, on a map that has the disc record and else only 0.
#![tactic(auto)]

ghost use Rattle.std.specs.Prelude.{◌≡◌, [], ◌∷◌, ◌+◌, ◌<◌, ◌≤◌, ltb, length};
ghost use Rattle.std.specs.Bool.{then_some};
ghost use Rattle.geometry.specs.Ranges.{FieldRules};
ghost use Rattle.geometry.specs.Accepted.{AcceptedGeometry};
ghost use Rattle.edits.specs.Edits.{in_zone};
ghost use Rattle.writer.specs.Listed.{as_pieces};
ghost use Rattle.formatted.specs.Blank.{unit_for, blank_for, blank_map};
ghost use Rattle.formatted.specs.Drawn.{map_length, overhang_from, middle_room, copies_need, both_fit, blank_pieces, drawn_map};
ghost use Rattle.format.specs.Formats.{planned, disc_found, Formatting, TellsLength};
ghost use Rattle.format.specs.Zones.{two_of, one_of, cross_at, Blank, BlankOn, ZoneBlank, zone_formatted, zones_formatted};

use geometry::{DiscBit, DiscRecord, Geometry, Reason, Refusal};
use writer::Piece;

// A disc that can be formatted: its record, and the geometry that this gives.
#[derive(Clone, Copy, Debug, PartialEq, Eq)]
struct BlankDisc {
    fields: DiscRecord,
    geometry: Geometry,
}

// A row of source document 001's table: on discs of at most `limit` bytes a map bit has `unit` bytes.
#[derive(Clone, Copy, Debug, PartialEq, Eq)]
struct UnitRow {
    limit: u64,
    unit: usize,
}

const MBYTE: u64 = 1048576;

const UNITS: [UnitRow; 4] = [
    UnitRow {
        limit: 124 * MBYTE,
        unit: 256,
    },
    UnitRow {
        limit: 249 * MBYTE,
        unit: 512,
    },
    UnitRow {
        limit: 499 * MBYTE,
        unit: 1024,
    },
    UnitRow {
        limit: 999 * MBYTE,
        unit: 2048,
    },
];

// Draws the map of a blank disc. Refused: 2 where there is no such disc, or none whose map can be drawn; then 1 where the map is not as long as it has
// to be; a refusal changes no byte.
pub fn format(log2secsize: u32, capacity: u64, idlen: u32, map: &mut [u8]) -> Result<(), Refusal>
    ensures { Formatting log2secsize capacity idlen map.old result map.new }
{
    let disc = plan(log2secsize, capacity, idlen)?;
    if map.len() != map_length(disc.geometry) {
        return Err(Reason::MapLength.into());
    }
    draw_map(map, disc.fields, disc.geometry);
    Ok(())
}

// The length of the map that `format` wants. Refused: 2, as `format`.
pub fn format_length(log2secsize: u32, capacity: u64, idlen: u32) -> Result<usize, Refusal>
    ensures { TellsLength log2secsize capacity idlen result }
{
    let disc = plan(log2secsize, capacity, idlen)?;
    Ok(map_length(disc.geometry))
}

// The disc that is formatted, or 2.
fn plan(log2secsize: u32, capacity: u64, idlen: u32) -> Result<BlankDisc, Refusal>
    ensures { result ≡ planned log2secsize capacity idlen }
{
    find_disc(log2secsize as usize, capacity, idlen as usize).ok_or(Reason::Record.into())
}

// The disc, where there is one whose map can be drawn.
fn find_disc(logsector: usize, capacity: u64, idlen: usize) -> Option<BlankDisc>
    ensures { result ≡ disc_found logsector capacity idlen }
{
    let unit = unit_for(capacity)?;
    if !(8..=10).contains(&logsector) {
        return None;
    }
    let fields = blank_record(logsector, capacity as usize, idlen, unit);
    if !geometry::fields_fit(fields) {
        return None;
    }
    let geometry = geometry::geometry_from(fields);
    let fits = geometry::geometry_fits(geometry) && both_fit(geometry);
    fits.then_some(BlankDisc { fields, geometry })
}

// Bytes per map bit for a capacity, or none where it is above the table's last limit.
fn unit_for(capacity: u64) -> Option<usize>
    ensures { result ≡ then_some (ltb 0 (unit_for capacity)) (unit_for capacity) }
{
    UNITS
        .iter()
        .find(|row| capacity <= row.limit)
        .map(|row| row.unit)
}

// The record of such a disc with the fewest zones that cover it: as many bits as its bytes take, and the 480 that zone 0 is short.
#[tactic(auto, using(crate::proofs::Units::sector_long))]
fn blank_record(logsector: usize, capacity: usize, idlen: usize, unit: usize) -> DiscRecord
    requires { (8 ≤ logsector) × (logsector ≤ 10) × (unit ≡ unit_for capacity) × (0 < unit) }
    ensures { result ≡ blank_for logsector capacity idlen }
{
    let bits = 8 * geometry::power(logsector) - 32;
    DiscRecord {
        logsector,
        idlen,
        logunit: unit.trailing_zeros() as usize,
        zones: (capacity.div_ceil(unit) + 480).div_ceil(bits),
        spare: 32,
        size: capacity,
        version: 0,
    }
}

// How many bytes the map has.
fn map_length(g: Geometry) -> usize
    requires { AcceptedGeometry g }
    ensures { (result ≡ map_length g) × (result ≤ 67107840) }
{
    g.zones * g.sector
}

// Whether object 2 and the overhang can both be drawn.
fn both_fit(g: Geometry) -> bool
    requires { AcceptedGeometry g }
    ensures { result ≡ both_fit g }
{
    copies_need(g) <= middle_room(g)
}

// The bits that two copies of the map need.
fn copies_need(g: Geometry) -> usize
    requires { AcceptedGeometry g }
    ensures { (result ≡ copies_need g) × (result < 4294967296) }
{
    claim::need_of(g, (2 * map_length(g)) as u64)
}

// Where the overhang starts, or the map's end where there is none: at the disc's end, or before that if it would have fewer than m bits.
fn overhang_from(g: Geometry) -> usize
    requires { AcceptedGeometry g }
    ensures { result ≡ overhang_from g }
{
    let bits = g.disc_bits();
    let end = g.end.0 as usize;
    if end < bits {
        end.min(bits - g.shortest_fragment())
    } else {
        bits
    }
}

// How many bits there are from the middle zone's first one to its end or to the overhang.
fn middle_room(g: Geometry) -> usize
    requires { AcceptedGeometry g }
    ensures { result ≡ middle_room g }
{
    let z = g.zones / 2;
    let from = g.first_disc_bit(z).0 as usize;
    let next = g.first_disc_bit(z + 1).0 as usize;
    next.min(overhang_from(g)).saturating_sub(from)
}

// Object 2's piece: with what follows it, if that is shorter than m.
fn object_two(g: Geometry) -> Piece
    requires { AcceptedGeometry g }
    ensures { result ≡ two_of g }
{
    Piece {
        owner: 2,
        start: g.first_disc_bit(g.zones / 2),
        len: holes::cut_of(g, copies_need(g), middle_room(g) as u32),
    }
}

// Object 1's piece, of no bits where there is no overhang: with what precedes it in its zone, if that is shorter than m.
#[tactic(auto, using(crate::proofs::Places::over_in_map, crate::proofs::Places::last_in_map, crate::proofs::Places::two_in_map))]
fn object_one(g: Geometry, two: Piece) -> Piece
    requires { AcceptedGeometry g × (two ≡ two_of g) }
    ensures { result ≡ one_of g }
{
    let over = overhang_from(g);
    let last = g.first_disc_bit(g.zones - 1).0 as usize;
    let from = last.max(two.start.0 as usize + two.len as usize);
    let start = if over.saturating_sub(from) < g.shortest_fragment() {
        from
    } else {
        over
    };
    Piece {
        owner: 1,
        start: DiscBit(start as u32),
        len: (g.disc_bits() - start) as u32,
    }
}

// Draws the map, whatever its bytes are.
fn draw_map(map: &mut [u8], r: DiscRecord, g: Geometry)
    requires { Blank r g × (length map.old ≡ map_length g) }
    ensures { map.new ≡ drawn_map r }
{
    write_record(map, r);
    draw_zones(map, g);
}

// Writes the record, and 0 for all else.
fn write_record(map: &mut [u8], r: DiscRecord)
    requires { FieldRules r × (r.version ≡ 0) × (r.spare < 65536) × (r.size < 4294967296) × (64 ≤ length map.old) }
    ensures { map.new ≡ blank_map r (length map.old) }
{
    map.fill(0);
    map[4] = r.logsector as u8;
    map[8] = r.idlen as u8;
    map[9] = r.logunit as u8;
    map[13] = r.zones as u8;
    map[14..16].copy_from_slice(&(r.spare as u16).to_le_bytes());
    // Named, so that must-fail/size_without_its_high_byte turns one of them.
    let [low, second, third, high] = (r.size as u32).to_le_bytes();
    map[20..24].copy_from_slice(&[low, second, third, high]);
}

// Draws the zones one by one, on a map that has the record and else only 0.
fn draw_zones(map: &mut [u8], g: Geometry)
    requires { BlankOn map.old g }
    ensures { map.new ≡ zones_formatted g map.old }
{
    let two = object_two(g);
    let pieces = [two, object_one(g, two)];
    for z in 0..g.zones {
        draw_blank_zone(map, g, z, &pieces);
    }
}

// Draws zone z with those of the two pieces that lie in it.
fn draw_blank_zone(map: &mut [u8], g: Geometry, z: usize, pieces: &[Piece; 2])
    requires { ZoneBlank map.old g z × (pieces.now ≡ two_of g ∷ one_of g ∷ []) }
    ensures { map.new ≡ zone_formatted g z map.old }
{
    writer::draw_zone(
        &mut map[g.block(z)],
        z,
        g,
        pieces_in(g, z, pieces),
        cross_of(z),
    );
}

// Those of the two pieces that lie in zone z: object 2's is the first, and object 1's, if it has bits, the second.
fn pieces_in<'a>(g: Geometry, z: usize, pieces: &'a [Piece; 2]) -> &'a [Piece]
    requires { AcceptedGeometry g × (pieces.now ≡ two_of g ∷ one_of g ∷ []) }
    ensures { as_pieces result.now ≡ in_zone g z (blank_pieces g) }
{
    let [two, rest] = pieces;
    let from = usize::from(g.zone_of(two.start) != z);
    let to = 1 + usize::from(0 < rest.len && g.zone_of(rest.start) == z);
    &pieces[from..to]
}

// Zone z's cross check.
fn cross_of(z: usize) -> u8
    ensures { result ≡ cross_at z }
{
    if z == 0 { 255 } else { 0 }
}
