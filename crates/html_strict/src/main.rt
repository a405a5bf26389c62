// The strict HTML program: the strict document of the file on standard input, at the width before it.

#![tactic(auto)]

use intake::read_full;
use printing::{INPUT, ROOM, Wanted, print_on};
use std::io;

// Another program differs in the constant alone: `main` takes no parameter that could say it.
fn main(rt: HostRuntime) -> io::Result<()> {
    // fixed memory: there is no heap
    let mut input = [0u8; INPUT];
    let mut page = [0u8; ROOM];
    let n = read_full(&mut rt.stdin(), &mut input)?;
    print_on(&rt, Wanted::StrictDocument, &mut input[..n], &mut page)
}
