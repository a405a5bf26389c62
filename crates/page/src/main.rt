// The page program: the plain page of the file on standard input, at the width before it.

#![tactic(auto)]

use intake::read_full;
use printing::{INPUT, print_plain};
use std::io;

// Another program is alike in shape alone: what it prints is its own.
fn main(rt: HostRuntime) -> io::Result<()> {
    // fixed memory: there is no heap
    let mut input = [0u8; INPUT];
    let mut page = [0u8; 65536];
    let n = read_full(&mut rt.stdin(), &mut input)?;
    print_plain(&rt, &input[..n], &mut page)
}
