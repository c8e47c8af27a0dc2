// What the programs read with: a lent buffer, filled from a reader as far as its bytes go.
#![tactic(auto)]

ghost use Rattle.std.specs.Prelude.{◌≡◌, ℕ, ◌≤◌, ◌<◌, List, length, take, IfOk, OnErr, MatchOption};
ghost use Rattle.std.specs.Io.KnownBytes.{Consumes, IsAtEnd};

use std::io::{self, Read};

// Reads until the buffer is full or the input ends, and answers how many bytes it put at the start of the buffer: the next ones of the
// input, and fewer than there is room for only at its end. A read that fails ends it with that error: of the input only what stands at the
// start of the buffer is gone.
pub fn read_full<R: Read>(from: &mut R, buffer: &mut [u8]) -> io::Result<usize>
    ensures bound { IfOk result (λ n. n ≤ length buffer.new) }
    ensures bytes { IfOk result (λ n. Consumes (R.remaining from.old) (R.remaining from.new) (take n buffer.new)) }
    ensures end { IfOk result (λ n. n < length buffer.new → IsAtEnd (R.remaining from.new)) }
    ensures err { OnErr result ((k : ℕ) × (k ≤ length buffer.new) × Consumes (R.remaining from.old) (R.remaining from.new) (take k buffer.new)) }
{
    let mut done = 0;
    // No `for`: a read gives as many bytes as it has, and the edit `one_byte_is_the_end` holds the end's test.
    while done < buffer.len() {
        let n = from.read(&mut buffer[done..])?;
        if n == 0 {
            return Ok(done);
        }
        done += n;
    }
    Ok(done)
}

// The next N bytes of the input, or None where it ends before them. A read that fails ends it with that error: of the input at most N bytes
// are gone.
pub fn read_array<R: Read, const N: usize>(from: &mut R) -> io::Result<Option<[u8; N]>>
    ensures bytes { IfOk result (λ array. MatchOption array
        (IsAtEnd (R.remaining from.new) × (bytes : List ℕ) × (length bytes < N) × Consumes (R.remaining from.old) (R.remaining from.new) bytes)
        (λ bytes. Consumes (R.remaining from.old) (R.remaining from.new) bytes)) }
    ensures err { OnErr result ((bytes : List ℕ) × (length bytes ≤ N) × Consumes (R.remaining from.old) (R.remaining from.new) bytes) }
{
    let mut bytes = [0; N];
    let n = read_full(from, &mut bytes)?;
    if n == N { Ok(Some(bytes)) } else { Ok(None) }
}
