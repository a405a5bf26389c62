// Replays the recorded requests: reads a batch of them on standard input, does each, and prints its answer and all bytes that it was lent, a line each.

#![tactic(auto)]

ghost use Rattle.std.specs.Prelude.{◌<◌, ◌≤◌, length, IfOk};

use hazomeny::{
    check_file, check_file_strict, html_body, html_body_strict, html_document,
    html_document_strict, layout_file, plain_page,
};
use intake::read_full;
use requests::{Operation, fill, request_at};
use rules::Refusal;
use std::io;
use telling::{end_line, tell, tell_bytes};

fn replay_check(rt: &impl Print, answer: Result<usize, Refusal>) -> io::Result<()> {
    tell(rt, answer)?;
    end_line(rt)
}

fn replay_layout(rt: &impl Print, file: &mut [u8], width: usize) -> io::Result<()> {
    tell(rt, layout_file(file, width))?;
    tell_bytes(rt, file)?;
    end_line(rt)
}

fn replay_page<F: Fn(&[u8], &mut [u8]) -> Result<usize, Refusal>>(
    rt: &impl Print,
    entry: F,
    file: &[u8],
    page: &mut [u8],
) -> io::Result<()>
    requires { F.IsAlwaysCallable entry }
{
    fill(page);
    tell(rt, entry(file, page))?;
    tell_bytes(rt, page)?;
    end_line(rt)
}

fn replay_one(
    rt: &impl Print,
    operation: Operation,
    width: usize,
    file: &mut [u8],
    page: &mut [u8],
) -> io::Result<()> {
    match operation {
        Operation::Check => replay_check(rt, check_file(file)),
        Operation::Layout => replay_layout(rt, file, width),
        Operation::Plain => replay_page(rt, plain_page, file, page),
        Operation::Body => replay_page(rt, html_body, file, page),
        Operation::Document => replay_page(rt, html_document, file, page),
        Operation::StrictCheck => replay_check(rt, check_file_strict(file)),
        Operation::StrictBody => replay_page(rt, html_body_strict, file, page),
        Operation::StrictDocument => replay_page(rt, html_document_strict, file, page),
    }
}

// The request at a place. Answers where the next one stands; the batch's end where none is whole, or the page is too short for one.
fn replay_at(rt: &impl Print, s: &mut [u8], at: usize, page: &mut [u8]) -> io::Result<usize>
    requires { at < length s.old }
    ensures { IfOk result (λ next. (at < next) × (next ≤ length s.old)) }
{
    let Some(r) = request_at(s, at) else {
        return Ok(s.len());
    };
    if page.len() < r.room {
        return Ok(s.len());
    }
    let file = &mut s[r.from..r.to];
    replay_one(
        rt,
        Operation::from(r.op),
        r.width,
        file,
        &mut page[..r.room],
    )?;
    Ok(r.to)
}

fn replay(rt: &impl Print, s: &mut [u8], page: &mut [u8]) -> io::Result<()> {
    let mut at = 0;
    // No `for`: the next request stands where this one ends.
    while at < s.len() {
        at = replay_at(rt, s, at, page)?;
    }
    Ok(())
}

fn main(rt: HostRuntime) -> io::Result<()> {
    // fixed memory: there is no heap
    let mut input = [0u8; 262144];
    let mut page = [0u8; 65536];
    let n = read_full(&mut rt.stdin(), &mut input)?;
    replay(&rt, &mut input[..n], &mut page)
}
