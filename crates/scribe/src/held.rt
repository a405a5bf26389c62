// The writer: the caller's buffer, and how far it has come. Each function takes it apart and leaves the work to `step_at`.
ghost use Rattle.std.specs.Prelude.{◌≡◌};
ghost use Rattle.moves.specs.Stepped.{said, stepped};
ghost use Rattle.scribe.specs.Held.{at_state};

use crate::stepping::step_at;
use moves::{Op, Refusal, Style};

#[derive(Drop)]
pub struct Writer<'a> {
    pub buf: &'a mut [u8],
    // how far the file is written
    pub at: usize,
    // the place of the innermost open field and 1, or 0
    pub top: usize,
}

// A writer over a lent buffer, with nothing written and nothing open.
pub fn new<'a>(buf: &'a mut [u8]) -> Writer<'a>
    ensures { (result.buf ≡ buf.entry) × (result.at ≡ 0) × (result.top ≡ 0) }
{
    Writer {
        buf: buf,
        at: 0,
        top: 0,
    }
}

// One step: the struct is taken apart and lent on, and takes what `step_at` says.
pub fn step<'s, 'a, 't>(
    w: &'s mut Writer<'a>,
    op: Op,
    style: Style,
    text: &'t [u8],
) -> Result<usize, Refusal>
    ensures { (w.new ≡ at_state w.old (stepped op style text.now w.old.buf.now w.old.at w.old.top)) × (said result ≡ (stepped op style text.now w.old.buf.now w.old.at w.old.top).answer) }
{
    let at = w.at;
    let top = w.top;
    let m = step_at(&mut *w.buf, at, top, op, style, text);
    w.at = m.at;
    w.top = m.top;
    m.answer
}
