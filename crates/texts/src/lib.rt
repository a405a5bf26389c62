// The bytes of a text: where its first line ends.

#![tactic(auto)]

ghost use Rattle.std.specs.Prelude.{◌≡◌, ◌==◌};
ghost use Rattle.texts.specs.FirstLine.{first_long, Passed};

use looks::{clear_windows, first_found, is_clear};

// So many bytes are looked at together; and so many where fewer are left.
const CHUNK: usize = 32;

const WINDOW: usize = 8;

fn is_newline(b: u8) -> bool
    ensures { result ≡ (b == 10) }
{
    b == b'\n'
}

// A place that no newline stands before: mostly the end, for the bytes behind the last window are looked at with some before them.
fn skip_most(v: &[u8]) -> usize
    ensures { Passed v.now result }
{
    if v.len() < WINDOW {
        return 0;
    }
    let chunks = clear_windows::<CHUNK, _>(v, 0, is_newline);
    let at = clear_windows::<WINDOW, _>(v, chunks, is_newline);
    let last = v.len() - WINDOW;
    if last <= at && is_clear::<WINDOW, _>(v, last, is_newline) {
        return v.len();
    }
    at
}

// The place of the first newline, or the length.
pub fn first_line_end(v: &[u8]) -> usize
    ensures { result ≡ first_long v.now }
{
    first_found(v, skip_most(v), is_newline)
}
