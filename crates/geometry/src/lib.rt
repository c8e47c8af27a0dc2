// The geometry of a disc, by value, from the disc record in zone 0 (document 01, "The disc record and its ranges"). It is
// the one geometry of code and definitions alike: specs/ speak of this very struct.
#![tactic(auto)]

ghost use Rattle.std.specs.Prelude.{◌≡◌, ◌+◌, ◌-◌, ◌*◌, ◌/◌, ◌%◌, ◌^◌, ◌<◌, ◌≤◌, length};
ghost use Rattle.std.specs.Bool.{then_some};
ghost use Rattle.geometry.specs.Record.{cluster_of, two_bytes, four_bytes, by_version, record_in, geometry_from, geometry_in};
ghost use Rattle.geometry.specs.Ranges.{FieldRules, between, fields_fit, geometry_fits, zero_bytes, record_fits};
ghost use Rattle.geometry.specs.Accepted.{SmallNumbers, AcceptedGeometry};
ghost use Rattle.geometry.specs.Places.{first_bit, end_bit, disc_bit, block_bit, zone_of, zone_from, disc_bits, id_from};
ghost use Rattle.geometry.specs.Answers.{number, without_zone, ReadsRecord, TellsStart};
ghost use Rattle.geometry.specs.Laws.{GeometryLaws};

use std::ops::Range;

// The fields of a disc record that are judged, by document 01's names.
#[derive(Clone, Copy, Debug, PartialEq, Eq)]
pub struct DiscRecord {
    pub logsector: usize, // log2secsize
    pub idlen: usize,
    pub logunit: usize, // log2bpmb
    pub zones: usize, // nzones
    pub spare: usize, // zone_spare
    pub size: usize, // disc_size
    pub version: usize, // the format version
}

// What a disc record fixes, by document 01's letters.
#[derive(Clone, Copy, Debug, PartialEq, Eq)]
pub struct Geometry {
    pub sector: usize, // S, the bytes of a sector and of a block
    pub idlen: usize, // the bits of an id
    pub unit: usize, // B, the bytes of a map bit
    pub zones: usize, // nzones
    pub cluster: usize, // k, the map bits of a cluster
    pub bits: usize, // Z, the allocation bits of a zone; zone 0 has 480 fewer, where its record stands
    pub shortest: usize, // m, the shortest fragment
    pub ids: usize, // P, the ids per zone
    pub size: usize, // disc_size in bytes
    pub end: DiscBit, // disc_size div B, where the disc ends
    pub version: usize, // the edition: 0 for E, 1 for E+
}

// Why a map or a call is refused, by document 01's numbers. `NoId` cannot arise.
#[derive(Clone, Copy, Debug, PartialEq, Eq)]
pub enum Reason {
    MapLength = 1,
    Record,
    ZoneCheck,
    CrossChecks,
    FreeChain,
    Fragment,
    Owner,
    Id,
    FreeTouching,
    IdAbsent,
    IdPresent,
    Argument,
    NotFree,
    NoId,
    NoRoom,
    PastEnd,
    Entries,
}

// A refusal, with the zone told: 0 where its reason tells none.
#[derive(Clone, Copy, Debug, PartialEq, Eq)]
pub struct Refusal {
    pub reason: Reason,
    pub zone: u32,
}

impl From<Reason> for Refusal {
    ghost from_gives = { λ reason refusal. refusal ≡ without_zone reason };

    fn from(reason: Reason) -> Refusal {
        Refusal { reason, zone: 0 }
    }
}

impl Refusal {
    // The table's number.
    pub fn number(self) -> u32
        ensures { result ≡ number self.reason }
    {
        self.reason as u32
    }
}

// A bit within a zone's block, and a bit of the disc: two kinds of number. `Geometry::disc_bit` and `Geometry::block_bit` alone lead from
// one to the other. A disc bit is a number of a list, so it has 32 bits.
#[derive(Clone, Copy, Debug, PartialEq, Eq, PartialOrd, Ord)]
pub struct BlockBit(pub usize);

#[derive(Clone, Copy, Debug, PartialEq, Eq, PartialOrd, Ord)]
pub struct DiscBit(pub u32);

// The geometry that a map's record gives. Refused: 1 where the map is under 64 bytes, 2 where the record is outside its
// ranges or bytes are not 0 that have to be.
pub fn read_record(map: &[u8]) -> Result<Geometry, Refusal>
    ensures { ReadsRecord map.now result }
{
    if map.len() < 64 {
        return Err(Reason::MapLength.into());
    }
    geometry_in(&map[4..64]).ok_or(Reason::Record.into())
}

impl Geometry {
    // The zone where the search for an object's first fragment starts. Refused with 8: an id outside `low` to P*nzones - 1.
    pub fn start_zone(self, low: u32, id: u32) -> Result<usize, Refusal>
        ensures { TellsStart self low id result }
    {
        let n = id as usize;
        if self.ids != 0 && low <= id && n / self.ids < self.zones {
            Ok(if n == 2 { self.zones / 2 } else { n / self.ids })
        } else {
            Err(Reason::Id.into())
        }
    }

    // Whether an id lies from `low` to P*nzones - 1. On a geometry that was accepted the product fits.
    pub fn is_id(self, low: usize, id: usize) -> bool
        requires { AcceptedGeometry self }
        ensures { result ≡ id_from low self id }
    {
        low <= id && id < self.ids * self.zones
    }

    // The first allocation bit of zone z.
    pub fn zone_first(self, z: usize) -> BlockBit
        ensures { (result.0 ≡ first_bit z) × (32 ≤ result.0) × (result.0 ≤ 512) }
    {
        BlockBit(if z == 0 { 512 } else { 32 })
    }

    // The bit after a zone's last allocation bit.
    pub fn zone_end(self) -> BlockBit
        requires { AcceptedGeometry self }
        ensures { result.0 ≡ end_bit self }
    {
        BlockBit(32 + self.bits)
    }

    // The shortest fragment, m.
    pub fn shortest_fragment(self) -> usize
        ensures { result ≡ self.shortest }
    {
        self.shortest
    }

    // Where the block of zone z stands in the map.
    pub fn block(self, z: usize) -> Range<usize>
        requires { AcceptedGeometry self × (z < self.zones) }
        ensures { (result.start ≡ z * self.sector) × (result.end ≡ z * self.sector + self.sector) }
    {
        let start = z * self.sector;
        start..start + self.sector
    }

    // The disc bits that the map controls.
    pub fn disc_bits(self) -> usize
        requires { AcceptedGeometry self }
        ensures { result ≡ disc_bits self }
    {
        self.zones * self.bits - 480
    }

    // The disc bit of a block bit.
    pub fn disc_bit(self, z: usize, b: BlockBit) -> DiscBit
        requires { AcceptedGeometry self × (z ≤ 65536) × (first_bit z ≤ b.0) × (b.0 ≤ end_bit self) }
        ensures { result.0 ≡ disc_bit self z b.0 }
    {
        DiscBit((z * self.bits + b.0 - 512) as u32)
    }

    // The block bit in zone z of a disc bit, by the same formula; 0 for a bit before that zone's block.
    pub fn block_bit(self, z: usize, d: DiscBit) -> BlockBit
        requires { AcceptedGeometry self × (z ≤ 65536) }
        ensures { result.0 ≡ block_bit self z d.0 }
    {
        BlockBit((d.0 as usize + 512).saturating_sub(z * self.bits))
    }

    // The disc bit of zone z's first allocation bit; of the number after the last zone, the disc bit where the map ends.
    pub fn first_disc_bit(self, z: usize) -> DiscBit
        requires { AcceptedGeometry self × (z ≤ 65536) }
        ensures { result.0 ≡ zone_from self z }
    {
        self.disc_bit(z, self.zone_first(z))
    }

    // The zone in which a disc bit lies.
    pub fn zone_of(self, d: DiscBit) -> usize
        requires { AcceptedGeometry self × (d.0 ≤ disc_bits self) }
        ensures { result ≡ zone_of self d.0 }
    {
        (d.0 as usize + 480) / self.bits
    }
}

// 2 to the n.
pub fn power(n: usize) -> usize
    requires { n ≤ 19 }
    ensures { (result ≡ 2 ^ n) × (1 ≤ result) × (result ≤ 524288) }
{
    1 << n
}

// k of a sector of s bytes at b bytes a bit.
fn cluster_of(s: usize, b: usize) -> usize
    requires { 0 < b }
    ensures { (result ≡ cluster_of s b) × (1 ≤ result) × (result ≤ s + 1) }
{
    if b < s { s / b } else { 1 }
}

// The fields of a record's bytes.
fn record_in(r: &[u8]) -> DiscRecord
    requires { length r.now ≡ 60 }
    ensures { (result ≡ record_in r.now) × (result.logsector < 256) × (result.size < 4294967296) }
{
    let version = four_bytes(r, 44);
    let zones = usize::from(r[9]);
    DiscRecord {
        logsector: usize::from(r[0]),
        idlen: usize::from(r[4]),
        logunit: usize::from(r[5]),
        zones: by_version(version, zones, zones + 256 * usize::from(r[42])),
        spare: two_bytes(r, 10),
        size: four_bytes(r, 16),
        version,
    }
}

// What a number is in version 0, and what in the later one.
fn by_version(version: usize, e: usize, plus: usize) -> usize
    ensures { result ≡ by_version version e plus }
{
    if version == 0 { e } else { plus }
}

// The number of four bytes, least significant first.
fn four_bytes(r: &[u8], at: usize) -> usize
    requires { at + 3 < length r.now }
    ensures { (result ≡ four_bytes r.now at) × (result < 4294967296) }
{
    u32::from_le_bytes([r[at], r[at + 1], r[at + 2], r[at + 3]]) as usize
}

// The number of two bytes, least significant first.
fn two_bytes(r: &[u8], at: usize) -> usize
    requires { at + 1 < length r.now }
    ensures { (result ≡ two_bytes r.now at) × (result < 65536) }
{
    usize::from(u16::from_le_bytes([r[at], r[at + 1]]))
}

// The ranges of the fields one by one.
pub fn fields_fit(r: DiscRecord) -> bool
    requires { r.logsector < 256 }
    ensures { result ≡ fields_fit r }
{
    let longest = by_version(r.version, 15, 19);
    let most = by_version(r.version, 255, 65535);
    let id = r.logsector + 3 <= r.idlen && r.idlen <= longest;
    let sizes = (8..=10).contains(&r.logsector) && (7..=12).contains(&r.logunit);
    let zones = 1 <= r.zones && r.zones <= most;
    r.version <= 1 && sizes && id && zones && 32 <= r.spare
}

// The geometry of a record's bytes, if they keep the rules.
fn geometry_in(bytes: &[u8]) -> Option<Geometry>
    requires { length bytes.now ≡ 60 }
    ensures { result ≡ then_some (record_fits bytes.now) (geometry_in bytes.now) }
{
    let r = record_in(bytes);
    if !fields_fit(r) {
        return None;
    }
    let g = geometry_from(r);
    let from = by_version(r.version, 32, 36);
    let end = by_version(r.version, 60, 40);
    (geometry_fits(g) && zero_bytes(bytes, from, end)).then_some(g)
}

// The numbers that the fields fix. A zone_spare above 8S leaves no bits.
pub fn geometry_from(r: DiscRecord) -> Geometry
    requires { FieldRules r × (r.idlen ≤ 19) × (r.size < 4294967296) }
    ensures { result ≡ geometry_from r }
{
    let sector = power(r.logsector);
    let unit = power(r.logunit);
    let bits = (8 * sector).saturating_sub(r.spare);
    let cluster = cluster_of(sector, unit);
    Geometry {
        sector,
        idlen: r.idlen,
        unit,
        zones: r.zones,
        cluster,
        bits,
        shortest: (r.idlen + 1 + cluster - 1) / cluster * cluster,
        ids: bits / (r.idlen + 1),
        size: r.size,
        end: DiscBit((r.size / unit) as u32),
        version: r.version,
    }
}

// What the fields give together.
pub fn geometry_fits(g: Geometry) -> bool
    requires { SmallNumbers g }
    ensures { result ≡ geometry_fits g }
{
    let room = (g.zones * g.bits).saturating_sub(480) * g.unit;
    let disc = 0 < g.size && g.size % g.sector == 0 && g.size <= room;
    let named = g.ids * g.zones <= power(g.idlen);
    g.bits % g.cluster == 0 && 480 + g.shortest <= g.bits && named && disc
}

// Whether bytes `from` to `end - 1` of a record's 60 are 0: none of their bits is 1.
fn zero_bytes(r: &[u8], from: usize, end: usize) -> bool
    requires { (length r.now ≡ 60) × (from ≤ end) × (end ≤ 60) }
    ensures { result ≡ zero_bytes from end r.now }
{
    bits::zero_run(r, 8 * from, 8 * end) == 8 * (end - from)
}

// The laws of specs/Laws, as a contract: the function does nothing.
pub fn geometry_laws()
    ensures { GeometryLaws }
{}
