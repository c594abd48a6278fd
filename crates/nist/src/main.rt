// NIST's cases: runs the lines of standard input on the unit, and prints their text.
#![tactic(auto)]

use reading::read_full;
use std::io;

// One byte more than an input may have.
const ROOM: usize = 1048577;

// The room comes by value.
fn run_input(rt: &HostRuntime, room: [u8; ROOM]) -> io::Result<()> {
    let mut input = room;
    let n = read_full(&mut rt.stdin(), &mut input)?;
    rt.write_all(cases::run(&input[..n]).as_bytes())
}

fn main(rt: HostRuntime) -> io::Result<()> {
    run_input(&rt, [0u8; ROOM])
}
