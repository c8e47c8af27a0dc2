// Reads a map from standard input and prints its text (document 01, "What the station handles"): `map_text::print`. The buffer takes a
// byte more than the longest map, so that a longer one shows.
#![tactic(auto)]

use std::io;

fn main(rt: HostRuntime) -> io::Result<()> {
    let mut buffer = [0u8; 65537];
    let n = input::read_full(&mut rt.stdin(), &mut buffer)?;
    map_text::print(&rt, &buffer, n)
}
