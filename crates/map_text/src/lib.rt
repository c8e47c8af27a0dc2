// The text that program `map_lines` prints of a map: a line for each fragment, or the refusal (document 01, "What the station
// handles"). The text of a large map is long, and there is no heap: it is made part after part in a lent buffer. What is left of it
// (`Left`) is a value, and each part's contract says that the part is the next stretch of the text.
#![tactic(auto)]

ghost use Rattle.std.specs.Prelude.{◌≡◌, [], ◌∷◌, ◌++◌, ◌+◌, ◌<◌, ◌≤◌, length};
ghost use Rattle.walk.specs.LinesLeft.{lines_left};
ghost use Rattle.map_text.specs.Decimal.{decimal};
ghost use Rattle.map_text.specs.Text.{line_text, lines_text, refusal_text, owner_text, pair_text, input_checked};
ghost use Rattle.map_text.specs.Parts.{Adds, Moves, left_text, Begins, IsNextPart};
ghost use Rattle.map_text.specs.Laws.{TextLaws};

use geometry::{Geometry, Reason, Refusal};
use std::io;
use walk::Line;

// What is left to print: the lines of an accepted map from a fragment on, a refusal, or nothing.
#[derive(Clone, Copy)]
pub enum Left<'a> {
    Lines(walk::Lines<'a>),
    Refused(Refusal),
    Nothing,
}

// A lent buffer, of which the first `len` bytes are text.
#[derive(Drop)]
struct Text<'a> {
    buffer: &'a mut [u8],
    len: usize,
}

// The longest map that is read, in bytes.
pub const LONGEST_MAP: usize = 65536;

// The longest text of a number of 32 bits, of two with the spaces and the line's end, and of a line; a refusal is shorter.
const LONGEST_NUMBER: usize = 10;

const LONGEST_PAIR: usize = 3 + 2 * LONGEST_NUMBER;

pub const LONGEST_LINE: usize = LONGEST_NUMBER + LONGEST_PAIR;

// Prints the text of the map that is the first n bytes of a buffer, part after part, until nothing is left. The buffer has to have room for more
// than the longest map, since only then does it show that a map is longer. No contract of printing speaks of what is written, so this one says
// nothing; the loop's invariant keeps the parts handed over so far, which with what is left are the text.
pub fn print(rt: &impl Print, buffer: &[u8], n: usize) -> io::Result<()>
    requires { (LONGEST_MAP < length buffer.now) × (n ≤ length buffer.now) }
{
    let mut left = begin(&buffer[..n]);
    let mut text = [0u8; 4096];
    loop {
        let len = left.next_part(&mut text);
        if len == 0 {
            return Ok(());
        }
        rt.write_all(&text[..len])?;
    }
}

// Before the first part, all of the text is left.
pub fn begin(input: &[u8]) -> Left<'_>
    ensures { Begins input.now result }
{
    match check_input(input) {
        Ok(g) => Left::Lines(walk::lines(input, g, 0, g.zones)),
        Err(refusal) => Left::Refused(refusal),
    }
}

// The check of a map that is not too long; a longer one is treated as refusal 1.
fn check_input(input: &[u8]) -> Result<Geometry, Refusal>
    ensures { result ≡ input_checked input.now }
{
    if LONGEST_MAP < input.len() {
        return Err(Reason::MapLength.into());
    }
    map::check(input)
}

impl Left<'_> {
    // Puts the next part of the text at the start of a buffer, which has room for at least one line, and leaves what comes after it. Answers how
    // many bytes the part has: none where nothing was left.
    pub fn next_part(&mut self, buffer: &mut [u8]) -> usize
        requires { LONGEST_LINE ≤ length buffer.old }
        ensures { IsNextPart self.old buffer.old result self.new buffer.new }
    {
        let mut text = Text { buffer, len: 0 };
        *self = match *self {
            Left::Lines(lines) => text.push_lines(lines),
            Left::Refused(refusal) => {
                text.push_refusal(refusal);
                Left::Nothing
            }
            Left::Nothing => Left::Nothing,
        };
        text.len
    }
}

impl Text<'_> {
    // As many whole lines as surely fit; a line for which there may be no room starts the next part.
    fn push_lines<'a>(&mut self, mut lines: walk::Lines<'a>) -> Left<'a>
        requires { self.old.len + LONGEST_LINE ≤ length self.old.buffer.now }
        ensures moved { Moves (lines_text (lines_left lines.entry)) self.old self.new (left_text result) }
        ensures ends { self.new.len ≡ self.old.len → lines_text (lines_left lines.entry) ≡ [] }
    {
        while let Some(line) = lines.next() {
            self.push_line(line);
            if self.buffer.len() - self.len < LONGEST_LINE {
                return Left::Lines(lines);
            }
        }
        Left::Nothing
    }

    // A fragment's line.
    #[tactic(auto, using(crate::proofs::Digits::ten_digits), unfolding(crate::specs::Text::owner_text))]
    fn push_line(&mut self, line: Line)
        requires { self.old.len + LONGEST_LINE ≤ length self.old.buffer.now }
        ensures { Adds (line_text line) self.old self.new }
    {
        self.push_owner(line.holder);
        self.push_pair(line.start.0, line.len);
    }

    // A refusal's number and the zone told.
    fn push_refusal(&mut self, refusal: Refusal)
        requires { self.old.len + LONGEST_LINE ≤ length self.old.buffer.now }
        ensures { Adds (refusal_text refusal) self.old self.new }
    {
        self.push(b"refused");
        self.push_pair(refusal.number(), refusal.zone);
    }

    // The owner's number; holder 0 is free space.
    #[tactic(auto, using(crate::proofs::Digits::ten_digits), unfolding(crate::specs::Text::owner_text))]
    fn push_owner(&mut self, holder: u32)
        requires { self.old.len + LONGEST_NUMBER ≤ length self.old.buffer.now }
        ensures { Adds (owner_text holder) self.old self.new }
    {
        if holder == 0 {
            self.push(b"free");
        } else {
            self.push_number(holder);
        }
    }

    // Two numbers, a space before each, and the line's end.
    #[tactic(auto, using(crate::proofs::Digits::ten_digits))]
    fn push_pair(&mut self, a: u32, b: u32)
        requires { self.old.len + LONGEST_PAIR ≤ length self.old.buffer.now }
        ensures { Adds (pair_text a b) self.old self.new }
    {
        self.push(b" ");
        self.push_number(a);
        self.push(b" ");
        self.push_number(b);
        self.push(b"\n");
    }

    // The digits before the last, then the last. No `write!`: it can fail, and its clauses do not say when it does not.
    #[tactic(auto, using(crate::proofs::Digits::ten_digits))]
    fn push_number(&mut self, x: u32)
        requires { self.old.len + LONGEST_NUMBER ≤ length self.old.buffer.now }
        ensures { Adds (decimal x) self.old self.new }
    {
        if 10 <= x {
            self.push_number(x / 10);
        }
        self.push(&[b'0' + (x % 10) as u8]);
    }

    // Bytes after those that are there.
    #[tactic(auto, using(std::proofs::lemmas::Slice::overwrites))]
    fn push(&mut self, bytes: &[u8])
        requires { self.old.len + length bytes.now ≤ length self.old.buffer.now }
        ensures { Adds bytes.now self.old self.new }
    {
        let end = self.len + bytes.len();
        self.buffer[self.len..end].copy_from_slice(bytes);
        self.len = end;
    }
}

// The laws of specs/Laws, as a contract: the function does nothing.
pub fn text_laws()
    ensures { TextLaws }
{}
