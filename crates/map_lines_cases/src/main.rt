// Prints the texts of stored maps one after another, by the function that program `map_lines` calls: several zones, a text longer than the
// buffer, refusals with a zone, the limit. The maps (`stdin`) and the lines expected (`stdout`) are written by the second program. A
// stored map: how many bytes follow, how many the map has (three bytes each, lowest first), those bytes; the map's other bytes are 0.
#![tactic(auto)]

ghost use Rattle.std.specs.Prelude.{◌≤◌};

use std::io::{self, Read};

fn main(rt: HostRuntime) -> io::Result<()> {
    let mut stream = rt.stdin();
    for _ in 0..256 {
        if !next_map(&rt, &mut stream)? {
            break;
        }
    }
    Ok(())
}

// Reads a map and prints its text; answers whether there was one.
fn next_map<R: Read>(rt: &impl Print, from: &mut R) -> io::Result<bool> {
    let Some(head) = input::read_array(from)? else {
        return Ok(false);
    };
    let mut buffer = [0u8; 65537];
    let stored = number(&head, 0).min(buffer.len());
    let len = number(&head, 3).min(buffer.len());
    input::read_full(from, &mut buffer[..stored])?;
    map_text::print(rt, &buffer, len)?;
    Ok(true)
}

// Three bytes from a place on, lowest first.
fn number(head: &[u8; 6], at: usize) -> usize
    requires { at ≤ 3 }
{
    u32::from_le_bytes([head[at], head[at + 1], head[at + 2], 0]) as usize
}
