// What a call is lent, and what of it the call changed.

ghost use Rattle.std.specs.Prelude.{◌≡◌, IfOk};

use std::fmt::Display;
use std::io::{self, Read};

// A byte, or an entry of a list.
pub trait Element: Copy + PartialEq + Display {
    // Fills elements that are 0 from what the input has next. Where it ends, what is missing stays 0.
    fn fill<R: Read>(from: &mut R, elements: &mut [Self]) -> io::Result<()>;
}

impl Element for u8 {
    fn fill<R: Read>(from: &mut R, elements: &mut [u8]) -> io::Result<()> {
        input::read_full(from, elements)?;
        Ok(())
    }
}

// Four bytes each, lowest first.
impl Element for u32 {
    fn fill<R: Read>(from: &mut R, elements: &mut [u32]) -> io::Result<()> {
        for entry in elements {
            let mut bytes = [0; 4];
            input::read_full(from, &mut bytes)?;
            *entry = u32::from_le_bytes(bytes);
        }
        Ok(())
    }
}

// What a call works on, and beside it what that was before.
#[derive(Drop)]
pub struct Lent<'a, T> {
    pub now: &'a mut [T],
    pub before: &'a [T],
}

impl<'a, T: Element> Lent<'a, T> {
    // The next elements of the input, so many or as many as half of the buffer has room for; the other half keeps them.
    pub fn read<R: Read, const N: usize>(
        from: &mut R,
        buffer: &'a mut [T; N],
        len: usize,
    ) -> io::Result<Lent<'a, T>>
        ensures { IfOk result (λ lent. lent.before.now ≡ lent.now.now) }
    {
        let half = buffer.len() / 2;
        let (front, back) = buffer.split_at_mut(half);
        let n = len.min(half);
        let now = &mut front[..n];
        let before = &mut back[..n];
        T::fill(from, now)?;
        before.copy_from_slice(now);
        Ok(Lent { now, before })
    }

    // ` INDEX=VALUE` of each element that changed.
    pub fn print_changed(&self, rt: &impl Print) -> io::Result<()> {
        for (i, (x, y)) in self.now.iter().zip(self.before).enumerate() {
            if x != y {
                print!(rt; " {i}={x}")?;
            }
        }
        Ok(())
    }

    // ` FROM..TO` of each run of elements that changed.
    pub fn print_changed_runs(&self, rt: &impl Print) -> io::Result<()> {
        let mut inside = false;
        for (i, (x, y)) in self.now.iter().zip(self.before).enumerate() {
            let changed = x != y;
            print_edge(rt, inside, changed, i)?;
            inside = changed;
        }
        print_edge(rt, inside, false, self.now.len())
    }
}

// Where a run starts or ends.
fn print_edge(rt: &impl Print, inside: bool, changed: bool, i: usize) -> io::Result<()> {
    match (inside, changed) {
        (false, true) => print!(rt; " {i}"),
        (true, false) => print!(rt; "..{i}"),
        _ => Ok(()),
    }
}
