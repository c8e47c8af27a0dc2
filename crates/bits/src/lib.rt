// Bits of a byte slice. Bit 0 is the lowest bit of the first byte (document 01, "Bits, fragments, chains").
//
//   byte        0                       1
//   bit   7 6 5 4 3 2 1 0       7 6 5 4 3 2 1 0
//   place 7 6 5 4 3 2 1 0      15 .. .. .. 9 8
//
// Every contract speaks of the one view of bits, the list `byte_bits`.
#![tactic(auto)]

ghost use Rattle.std.specs.Prelude.{◌≡◌, true, false, cond, ◌&&◌, ◌+◌, ◌-◌, ◌*◌, ◌/◌, ◌%◌, ◌^◌, ◌<◌, ◌≤◌, min, max, length, set, slice_index};
ghost use Rattle.std.proofs.Math.Seq.{slice};
ghost use Rattle.std.proofs.lemmas.List.Edits.{sets};
ghost use Rattle.bits.specs.Bits.{byte_bits, number_bits, value, zeros};
ghost use Rattle.bits.specs.Laws.{BitLaws};

// Bit b becomes 1.
pub fn set_bit(s: &mut [u8], b: usize)
    requires { b < length s.old * 8 }
    ensures { byte_bits s.new ≡ set (byte_bits s.old) b true }
{
    s[b / 8] |= 1 << (b % 8);
}

// Bit b becomes 0.
pub fn clear_bit(s: &mut [u8], b: usize)
    requires { b < length s.old * 8 }
    ensures { byte_bits s.new ≡ set (byte_bits s.old) b false }
{
    s[b / 8] &= !(1 << (b % 8));
}

// Bit b becomes v.
pub fn write_bit(s: &mut [u8], b: usize, v: bool)
    requires { b < length s.old * 8 }
    ensures { byte_bits s.new ≡ set (byte_bits s.old) b v }
{
    if v {
        set_bit(s, b);
    } else {
        clear_bit(s, b);
    }
}

// The number that the n bits from `at` on spell, lowest first: the word from there on without the bits above them.
pub fn number(s: &[u8], at: usize, n: usize) -> u32
    requires { (n ≤ 31) × (at + n ≤ length s.now * 8) × (at + n < 2 ^ 64) }
    ensures { result ≡ value (slice at (at + n) (byte_bits s.now)) }
{
    (word_from(s, at) % (1 << n)) as u32
}

// The n lowest bits of v, written from bit `at` on, lowest first. A step writes a byte or one bit, so its place is no plain counter.
pub fn write_number(s: &mut [u8], at: usize, n: usize, v: u32)
    requires { (at + n ≤ length s.old * 8) × (at + n < 2 ^ 64) }
    ensures { byte_bits s.new ≡ sets (byte_bits s.old) at (number_bits n v) }
{
    let mut w = v;
    let mut i = 0;
    while i < n {
        let part = write_some(s, at + i, n - i, w);
        w = part.left;
        i += part.bits;
    }
}

// How many bits of a number were written, and what is left of it.
#[derive(Clone, Copy)]
struct Rest {
    bits: usize,
    left: u32,
}

// The lowest bits of w, written from bit b on: 8 where they are a byte and n leaves room for it, and else one.
fn write_some(s: &mut [u8], b: usize, n: usize, w: u32) -> Rest
    requires { (0 < n) × (b + n ≤ length s.old * 8) × (b + n < 2 ^ 64) }
    ensures room { (0 < result.bits) × (result.bits ≤ n) }
    ensures bits { sets (byte_bits s.new) (b + result.bits) (number_bits (n - result.bits) result.left)
        ≡ sets (byte_bits s.old) b (number_bits n w) }
{
    if b % 8 == 0 && 8 <= n {
        s[b / 8] = (w % 256) as u8;
        Rest {
            bits: 8,
            left: w / 256,
        }
    } else {
        write_bit(s, b, w % 2 == 1);
        Rest {
            bits: 1,
            left: w / 2,
        }
    }
}

// How many 0 bits stand from `from` on before the first 1, or before `end` where there is none. They are counted a word at a time, and
// words of zeros are passed in one step, so the place is no plain counter.
pub fn zero_run(s: &[u8], from: usize, end: usize) -> usize
    requires { (from ≤ end) × (end ≤ length s.now * 8) }
    ensures { (result ≡ zeros (slice from end (byte_bits s.now))) × (from + result ≤ end) }
{
    let mut j = from;
    while j < end {
        let word = word_from(s, j);
        let zeros = word.trailing_zeros() as usize;
        // The bits past `end` do not count, whichever word holds them.
        let some = word != 0;
        if some && zeros < end - j {
            return j + zeros - from;
        }
        j = zero_words(s, j + word_left(j, end), end);
    }
    j - from
}

// Where the whole words of zeros from j on end; j begins a byte, or is `end`. A word costs a load and a test: no address waits for its value.
fn zero_words(s: &[u8], j: usize, end: usize) -> usize
    requires { (j ≤ end) × (end ≤ length s.now * 8) × (j < end → j % 8 ≡ 0) }
    ensures { (j ≤ result) × (result ≤ end)
        × (zeros (slice j end (byte_bits s.now)) ≡ (result - j) + zeros (slice result end (byte_bits s.now))) }
{
    let words = (end - j) / 64;
    for n in 0..words {
        if whole_word(s, j / 8 + 8 * n) != 0 {
            return j + 64 * n;
        }
    }
    j + 64 * words
}

// How many bits from j on the word of eight bytes that begins with j's byte has before `end`.
fn word_left(j: usize, end: usize) -> usize
    requires { j < end }
    ensures { (0 < result) × (j + result ≤ end) × (j % 8 + result ≤ 64) × (j + result < end → (j + result) % 8 ≡ 0) }
{
    (64 - j % 8).min(end - j)
}

// The word of eight bytes that begins with j's byte, without the bits below j. A search's `end` plays no part: a 1 past it is there as well.
fn word_from(s: &[u8], j: usize) -> usize
    requires { j ≤ length s.now * 8 }
    ensures { result ≡ value (slice j (8 * (j / 8) + 64) (byte_bits s.now)) }
{
    word64(s, j / 8) >> (j % 8)
}

// The word of the eight bytes from byte i on, lowest byte first. Bytes past the slice's end count as 0.
fn word64(s: &[u8], i: usize) -> usize
    requires { i ≤ length s.now }
    ensures { result ≡ value (slice (8 * i) (8 * i + 64) (byte_bits s.now)) }
{
    if i + 8 <= s.len() {
        whole_word(s, i)
    } else {
        last_word(s, i)
    }
}

// The same where eight bytes are left.
fn whole_word(s: &[u8], i: usize) -> usize
    requires { i + 8 ≤ length s.now }
    ensures { result ≡ value (slice (8 * i) (8 * i + 64) (byte_bits s.now)) }
{
    word32(s, i) | word32(s, i + 4) << 32
}

// The same where fewer than eight bytes are left: the lowest four if there are so many, and up to three more. Few words stand so near a slice's end:
// out of line, this leaves the reading of a word short enough to be inlined in every walk over a map. Without, a list of pieces took 1.8 times as long.
#[cold]
fn last_word(s: &[u8], i: usize) -> usize
    requires { (i ≤ length s.now) × (length s.now < i + 8) }
    ensures { result ≡ value (slice (8 * i) (8 * i + 64) (byte_bits s.now)) }
{
    let left = s.len() - i;
    let high = last_bytes(s, i + left / 4 * 4);
    if left < 4 {
        high
    } else {
        word32(s, i) | high << 32
    }
}

// The number that the bytes from byte i on spell, where fewer than four are left: the lowest two if there are so many, and one more or none.
fn last_bytes(s: &[u8], i: usize) -> usize
    requires { (i ≤ length s.now) × (length s.now < i + 4) }
    ensures { (result ≡ value (slice (8 * i) (8 * length s.now) (byte_bits s.now))) × (result < 2 ^ 24) }
{
    let left = s.len() - i;
    let high = last_byte(s, i + left / 2 * 2);
    if left < 2 {
        high
    } else {
        usize::from(u16::from_le_bytes([s[i], s[i + 1]])) + high * 65536
    }
}

// The same where at most one is left.
fn last_byte(s: &[u8], i: usize) -> usize
    requires { (i ≤ length s.now) × (length s.now < i + 2) }
    ensures { (result ≡ value (slice (8 * i) (8 * length s.now) (byte_bits s.now))) × (result < 256) }
{
    usize::from(byte(s, i))
}

// Byte i, or 0 past the slice's end.
fn byte(s: &[u8], i: usize) -> u8
    ensures { result ≡ slice_index s.now i }
{
    s.get(i).copied().unwrap_or(0)
}

// The word of the four bytes from byte i on, lowest byte first.
pub fn word32(s: &[u8], i: usize) -> usize
    requires { i + 4 ≤ length s.now }
    ensures { (result ≡ value (slice (8 * i) (8 * i + 32) (byte_bits s.now))) × (result < 2 ^ 32) }
{
    u32::from_le_bytes([s[i], s[i + 1], s[i + 2], s[i + 3]]) as usize
}

// The laws of specs/Laws, as a contract: the function does nothing.
pub fn bit_laws()
    ensures { BitLaws }
{}
