// Telling an answer on standard output, in document 01's words.

#![tactic(auto)]

use answers::Numbered;
use rules::Refusal;
use std::io;

// `refused N at P`, with no line end.
pub fn tell_refusal(rt: &impl Print, r: Refusal) -> io::Result<()> {
    print!(rt; "{}", Numbered::from(r))
}

// `accepted N`, or the refusal, with no line end.
pub fn tell(rt: &impl Print, answer: Result<usize, Refusal>) -> io::Result<()> {
    match answer {
        Ok(n) => print!(rt; "accepted {n}"),
        Err(r) => tell_refusal(rt, r),
    }
}

// The bytes in hex after a space; of no bytes, nothing.
pub fn tell_bytes(rt: &impl Print, s: &[u8]) -> io::Result<()> {
    if s.is_empty() {
        return Ok(());
    }
    print!(rt; " ")?;
    for b in s {
        print!(rt; "{b:02x}")?;
    }
    Ok(())
}

pub fn end_line(rt: &impl Print) -> io::Result<()> {
    println!(rt; "")
}
