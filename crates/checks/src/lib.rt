// The check bytes of a map (document 01, "Zone check and cross check").
//
//   block byte   0             1, 2         3              4 ..
//              +-------------+------------+--------------+----
//              | zone check  | FreeLink   | cross check  |
//              +-------------+------------+--------------+----
//
// A zone check guards its own block, the cross checks tie the blocks together. The zone check is given twice, by words
// and by byte columns as document 000 has it; `CheckLaws` says that they agree on every block. The product
// uses the words.
#![tactic(auto)]

ghost use Rattle.std.specs.Prelude.{◌≡◌, ◌+◌, ◌-◌, ◌%◌, ◌^◌, ◌<◌, ◌≤◌, length};
ghost use Rattle.checks.specs.Words.{words_of, add_carry, fold_bytes, zone_check};
ghost use Rattle.checks.specs.Sums.{sum_of};
ghost use Rattle.checks.specs.Columns.{added, fold_columns, column_check};
ghost use Rattle.checks.specs.Cross.{amount};
ghost use Rattle.checks.specs.Laws.{CheckLaws};

// How many bytes' words are added up before their carries are: the sum of so many stays far below 2^64.
const CHUNK: usize = 4096;

// The zone check of a block, by 32-bit words. To add with the carry is to add modulo 2^32 - 1, so the carries may wait, and the words may come
// in any order: a chunk of words is added up plainly, and its carries are added after it. Before word 0 they are added a second time, since the
// first may carry again. The carry out of word 0 is dropped.
pub fn zone_check(block: &[u8]) -> u8
    ensures { result ≡ zone_check block.now }
{
    let Some((head, others)) = block.split_first_chunk::<4>() else {
        return 0;
    };
    let mut t = 0;
    for chunk in others.chunks(CHUNK) {
        t = add_carry(t, word_sum(chunk));
    }
    // The check byte itself counts as 0.
    let word = bits::word32(head, 0);
    let first = word - usize::from(head[0]);
    fold_bytes(add_carry(add_carry(t, 0), first))
}

// The plain sum of a chunk's words.
fn word_sum(chunk: &[u8]) -> usize
    requires { length chunk.now ≤ 4096 }
    ensures { (result ≡ sum_of (words_of chunk.now)) × (result < 2 ^ 43) }
{
    let mut t = 0;
    for word in chunk.chunks_exact(4) {
        t += bits::word32(word, 0);
    }
    t
}

// The sum's 32 bits and the carries above them, added, and w.
fn add_carry(t: usize, w: usize) -> usize
    requires { w < 2 ^ 43 }
    ensures { result ≡ add_carry t w }
{
    t % 4294967296 + t / 4294967296 + w
}

// The exclusive-or of the four lowest bytes.
fn fold_bytes(t: usize) -> u8
    ensures { result ≡ fold_bytes t }
{
    let [a, b, c, d, ..] = t.to_le_bytes();
    (a ^ b) ^ (c ^ d)
}

// The four byte columns of document 000: all but the last below 256, the last with its carry still in it.
#[derive(Clone, Copy, Debug, Default, PartialEq, Eq)]
pub struct Columns {
    pub v0: u32,
    pub v1: u32,
    pub v2: u32,
    pub v3: u32,
}

impl Columns {
    // A word's bytes added.
    fn add(self, a: u8, b: u8, c: u8, d: u8) -> Columns
        requires { (self.v0 < 256) × (self.v1 < 256) × (self.v2 < 256) × (self.v3 < 1024) }
        ensures { result ≡ added self a b c d }
    {
        let s0 = self.v0 + (u32::from(a) + self.v3 / 256);
        let s1 = self.v1 + (u32::from(b) + s0 / 256);
        let s2 = self.v2 + (u32::from(c) + s1 / 256);
        let s3 = self.v3 % 256 + (u32::from(d) + s2 / 256);
        Columns {
            v0: s0 % 256,
            v1: s1 % 256,
            v2: s2 % 256,
            v3: s3,
        }
    }

    // The exclusive-or of the four columns.
    fn fold(self) -> u8
        ensures { result ≡ fold_columns self }
    {
        (((self.v0 ^ self.v1) ^ (self.v2 ^ self.v3)) % 256) as u8
    }
}

// The zone check of a block, by four byte columns.
pub fn column_check(block: &[u8]) -> u8
    ensures { result ≡ column_check block.now }
{
    let Some((head, others)) = block.split_first_chunk::<4>() else {
        return 0;
    };
    let mut k = Columns::default();
    for word in others.chunks_exact(4).rev() {
        k = k.add(word[0], word[1], word[2], word[3]);
    }
    k.add(0, head[1], head[2], head[3]).fold()
}

// What the i-th of n zones that an edit touches has its cross check exclusive-ored with, counted from 0.
pub fn cross_change(n: usize, i: usize) -> u8
    ensures { result ≡ amount n i }
{
    match n {
        0 | 1 => 0,
        _ if n % 2 == 1 && i < 3 => (i + 1) as u8,
        _ => 1,
    }
}

// The laws of specs/Laws, as a contract: the function does nothing.
pub fn check_laws()
    ensures { CheckLaws }
{}
