// One fragment of a zone's allocation bits, and one step of the free chain (document 01, "Bits, fragments, chains").
//
//      idlen bits       any number        1 bit
//   +---------------+------------------+---+
//   | id, low first |  0 0 0 ... 0 0   | 1 |      length = all of it, id and closing 1 included
//   +---------------+------------------+---+
//
// What the id means is not decided here: on the free chain it leads to the next free fragment, elsewhere it is the owner
// (crate `zone`).
#![tactic(auto)]

ghost use Rattle.std.specs.Prelude.{◌≡◌, ◌+◌, ◌-◌, ◌*◌, ◌^◌, ◌<◌, ◌≤◌, length};
ghost use Rattle.std.proofs.Math.Seq.{slice};
ghost use Rattle.bits.specs.Bits.{byte_bits, zeros};
ghost use Rattle.model.specs.Chain.{onward};
ghost use Rattle.fragment.specs.Found.{fragment_at, next_after};
ghost use Rattle.fragment.specs.Reading.{id_at, length_at};

use geometry::BlockBit;

// A fragment read: its id and its length.
#[derive(Clone, Copy, Debug, PartialEq, Eq)]
pub struct FragmentRead {
    pub id: u32,
    pub len: usize,
}

// The closing bit of a fragment whose id ends at `from`: the first 1 bit from there on, or `end` where there is none.
pub fn closing_bit(block: &[u8], from: BlockBit, end: BlockBit) -> BlockBit
    requires { (from.0 ≤ end.0) × (end.0 ≤ length block.now * 8) }
    ensures { (result.0 ≡ from.0 + zeros (slice from.0 end.0 (byte_bits block.now))) × (result.0 ≤ end.0) }
{
    BlockBit(from.0 + bits::zero_run(block, from.0, end.0))
}

// The fragment that starts at `at` in a zone whose bits end at `end`, or None where its bits break the fragment rule
// (refusal 6): they close no fragment before `end`, or one that is not of whole clusters.
#[tactic(auto, using(crate::proofs::Closing::closing))]
pub fn fragment_at(
    block: &[u8],
    at: BlockBit,
    end: BlockBit,
    idlen: usize,
    cluster: usize,
) -> Option<FragmentRead>
    requires { (at.0 ≤ end.0) × (end.0 ≤ length block.now * 8) × (idlen ≤ 31) × (0 < cluster) }
    ensures { result ≡ fragment_at block.now at.0 end.0 idlen cluster }
{
    if end.0 - at.0 <= idlen {
        return None;
    }
    let close = closing_bit(block, BlockBit(at.0 + idlen), end);
    if close == end {
        return None;
    }
    let found = closed_fragment(block, at, close, idlen);
    if found.len % cluster == 0 {
        Some(found)
    } else {
        None
    }
}

// The fragment at `at`, whose closing bit stands before `end`: in a zone that keeps the rules each one's does.
pub fn whole_fragment(block: &[u8], at: BlockBit, end: BlockBit, idlen: usize) -> FragmentRead
    requires { (idlen ≤ 31) × (end.0 ≤ length block.now * 8) × (at.0 + length_at idlen at.0 end.0 (byte_bits block.now) ≤ end.0) }
    ensures id { result.id ≡ id_at idlen at.0 (byte_bits block.now) }
    ensures len { result.len ≡ length_at idlen at.0 end.0 (byte_bits block.now) }
{
    let last = closing_bit(block, BlockBit(at.0 + idlen), end);
    closed_fragment(block, at, last, idlen)
}

// The fragment from `at` to its closing bit.
fn closed_fragment(block: &[u8], at: BlockBit, close: BlockBit, idlen: usize) -> FragmentRead
    requires { (idlen ≤ 31) × (at.0 + idlen ≤ close.0) × (close.0 < length block.now * 8) × (close.0 + 1 < 2 ^ 64) }
    ensures id { result.id ≡ id_at idlen at.0 (byte_bits block.now) }
    ensures len { result.len ≡ close.0 + 1 - at.0 }
{
    FragmentRead {
        id: bits::number(block, at.0, idlen),
        len: close.0 + 1 - at.0,
    }
}

// Where a link leads that counts from a place, or 0 where it leads nowhere, as the definition `onward` has it. No Option:
// no fragment starts at 0, so the next place of a chain is compared with a fragment's own as it is, in every layer above.
pub fn link_from(at: BlockBit, link: usize) -> BlockBit
    requires { at.0 + link < 2 ^ 64 }
    ensures { result.0 ≡ onward at.0 link }
{
    if link == 0 {
        BlockBit(0)
    } else {
        BlockBit(at.0 + link)
    }
}

// Where the chain leads next, once the fragment at `at` is passed: its id leads on only if the chain led to it.
pub fn next_after(at: BlockBit, next: BlockBit, id: usize) -> BlockBit
    requires { at.0 + id < 2 ^ 64 }
    ensures { result.0 ≡ next_after at.0 next.0 id }
{
    if at == next { link_from(at, id) } else { next }
}
