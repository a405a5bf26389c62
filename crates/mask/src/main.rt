// The mask program: the mask of the file on standard input.

#![tactic(auto)]

use intake::read_full;
use printing::{FILE, print_mask};
use std::io;

// Another program is alike in shape alone: what it prints is its own.
fn main(rt: HostRuntime) -> io::Result<()> {
    // fixed memory: there is no heap
    let mut file = [0u8; FILE];
    let mut page = [0u8; FILE];
    let n = read_full(&mut rt.stdin(), &mut file)?;
    print_mask(&rt, &file[..n], &mut page)
}
