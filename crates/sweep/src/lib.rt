// Sweeps a stretch of disc image: the fill over every byte of an object, or of free space (document 01, "The calls").
#![tactic(auto)]

ghost use Rattle.std.specs.Prelude.{◌≡◌, [], ◌∷◌, ◌+◌, ◌-◌, ◌/◌, ◌≤◌, min, leb, length};
ghost use Rattle.geometry.specs.Accepted.{AcceptedGeometry};
ghost use Rattle.geometry.specs.Places.{disc_bits};
ghost use Rattle.map.specs.Accepted.{AcceptedMap};
ghost use Rattle.walk.specs.HeldBy.{held_from};
ghost use Rattle.chain.specs.SpansLeft.{span_pair};
ghost use Rattle.sweep.specs.Sweep.{held_sweep, object_sweep, free_sweep, Sweeps};
ghost use Rattle.sweep.specs.Stretch.{StretchSweeps, StretchSwept};
ghost use Rattle.sweep.specs.Laws.{SweepLaws};

use chain::Span;
use geometry::{DiscBit, Geometry, Reason, Refusal};

// A stretch of disc image that is swept: its bytes, the disc address of the first one, and the fill.
#[derive(Drop)]
struct Stretch<'a> {
    image: &'a mut [u8],
    first: usize,
    fill: u8,
}

// Sweeps an ordinary object within a stretch of image that starts at disc address `first`. Refused: 1 to 7 as `map::check`, 8,
// 10, 16.
pub fn sweep_object(
    map: &[u8],
    image: &mut [u8],
    first: u64,
    fill: u8,
    id: u32,
) -> Result<u64, Refusal>
    ensures { Sweeps (object_sweep map.now id first (length image.old)) first fill image.old result image.new }
{
    let g = map::check(map)?;
    let first = first as usize;
    sweep_id(map, g, id, &mut Stretch { image, first, fill })
}

// Sweeps free space within a stretch of image that starts at disc address `first`. Refused: 1 to 7 as `map::check`, 16.
pub fn sweep_free(map: &[u8], image: &mut [u8], first: u64, fill: u8) -> Result<u64, Refusal>
    ensures { Sweeps (free_sweep map.now first (length image.old)) first fill image.old result image.new }
{
    let g = map::check(map)?;
    let first = first as usize;
    sweep_class(map, g, 0, &mut Stretch { image, first, fill })
}

// An object's sweep on an accepted map: 8, 10, and then as a holder's.
fn sweep_id(map: &[u8], g: Geometry, id: u32, stretch: &mut Stretch) -> Result<u64, Refusal>
    requires { AcceptedMap map.now g }
    ensures { StretchSweeps (object_sweep map.now id) stretch.old result stretch.new }
{
    if !g.is_id(3, id as usize) {
        return Err(Reason::Id.into());
    }
    if listing::count_held(map, g, id) == 0 {
        return Err(Reason::IdAbsent.into());
    }
    sweep_class(map, g, id, stretch)
}

// A holder's sweep on an accepted map: 16.
fn sweep_class(map: &[u8], g: Geometry, holder: u32, stretch: &mut Stretch) -> Result<u64, Refusal>
    requires { AcceptedMap map.now g }
    ensures { StretchSweeps (held_sweep g holder map.now) stretch.old result stretch.new }
{
    if !stretch.lies_on(g.size) {
        return Err(Reason::PastEnd.into());
    }
    let count = if holder == 0 {
        sweep_chains(map, g, stretch)
    } else {
        sweep_all(map, g, holder, stretch)
    };
    Ok(count as u64)
}

// Sweeps a holder's fragments of all zones; answers how many bytes were written. Only free fragments are chained, so an object's are looked
// for among all.
fn sweep_all(map: &[u8], g: Geometry, holder: u32, stretch: &mut Stretch) -> usize
    requires { AcceptedMap map.now g × (stretch.old.first + length stretch.old.image.now ≤ g.size) }
    ensures { StretchSwept g.unit (held_from g holder map.now 0 g.zones) stretch.old result stretch.new }
{
    let mut count = 0;
    for line in walk::lines(map, g, 0, g.zones) {
        if line.holder == holder {
            let span = Span {
                start: line.start,
                len: line.len,
            };
            count += stretch.sweep(span, g.unit);
        }
    }
    count
}

// The same of free space, along the chains. Spans ascend: those before the stretch are passed over, and the first one past it ends the sweep.
fn sweep_chains(map: &[u8], g: Geometry, stretch: &mut Stretch) -> usize
    requires { AcceptedMap map.now g × (stretch.old.first + length stretch.old.image.now ≤ g.size) }
    ensures { StretchSwept g.unit (held_from g 0 map.now 0 g.zones) stretch.old result stretch.new }
{
    let first = stretch.first;
    let end = first + stretch.image.len();
    let mut count = 0;
    for span in chain::spans_from(map, g, bit_at(g, first)) {
        if end <= span.start.0 as usize * g.unit {
            break;
        }
        count += stretch.sweep(span, g.unit);
    }
    count
}

// The disc bit of an address; past the last one for an address that ends the map.
fn bit_at(g: Geometry, address: usize) -> DiscBit
    requires { AcceptedGeometry g × (address ≤ g.size) }
    ensures { (result.0 ≡ address / g.unit) × (result.0 ≤ disc_bits g) }
{
    DiscBit((address / g.unit) as u32)
}

impl Stretch<'_> {
    // Whether the stretch lies on a disc of so many bytes, an empty one too. The sum is not made, since it could wrap.
    fn lies_on(&self, size: usize) -> bool
        ensures { result ≡ leb (self.now.first + length self.now.image.now) size }
    {
        let n = self.image.len();
        n <= size && self.first <= size - n
    }

    // Fills a span's part of the stretch at once; answers how many bytes that is.
    fn sweep(&mut self, span: Span, unit: usize) -> usize
        requires { unit ≤ 4096 }
        ensures { StretchSwept unit (span_pair span ∷ []) self.old result self.new }
    {
        let bit = span.start.0 as usize;
        let from = self.place(bit * unit);
        let to = self.place((bit + span.len as usize) * unit);
        self.image[from..to].fill(self.fill);
        to - from
    }

    // An address as a place in the stretch, or the nearer end of the stretch.
    fn place(&self, address: usize) -> usize
        ensures { (result ≡ min (address - self.now.first) (length self.now.image.now)) × (result ≤ length self.now.image.now) }
    {
        address.saturating_sub(self.first).min(self.image.len())
    }
}

// The laws of specs/Laws, as a contract: the function does nothing.
pub fn sweep_laws()
    ensures { SweepLaws }
{}
