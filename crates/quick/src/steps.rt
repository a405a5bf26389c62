// A step by its number: done at once, or not here.
ghost use Rattle.std.specs.Prelude.{◌≡◌, Bool, true, ◌<◌, ◌≤◌, ◌^◌, length, IfSome};
ghost use Rattle.moves.specs.Opened.{code_at};
ghost use Rattle.moves.specs.Plans.{plan, sane};
ghost use Rattle.moves.specs.Stepped.{stepped};
ghost use Rattle.scribe.specs.InC.{numbered, style_in};
ghost use Rattle.quick.specs.Quick.{Quick, Quickly};

use crate::adding::leaf;
use crate::opening::{anchor, block, open, shut};
use crate::runs::{conditional, text};
use moves::Op;
use scribe::numbers::numbered;
use scribe::opened::code_at;
use scribe::plan::{block_here, depth_in, fragment_here, text_here};
use scribe::stepping::{Spot, sane};

// The number of the last step that is done here. C gives a step by its number.
pub const LAST_QUICK: u8 = 11;

// What is open, where the numbers are such that a writer has.
fn code_here(buf: &[u8], at: usize, top: usize) -> Option<usize>
    requires { top < 2 ^ 32 }
    ensures { IfSome result (λ c. (c ≤ 256) × (sane (length buf.now) at top ≡ true) × (c ≡ code_at buf.now top)) }
{
    if !sane(buf.len(), at, top) {
        return None;
    }
    Some(code_at(buf, top))
}

// The step, where the code says what is open.
fn by_code(
    buf: &mut [u8],
    at: usize,
    top: usize,
    code: usize,
    op: Op,
    style: &[u8; 18],
    v: &[u8],
) -> Option<Spot>
    requires top_value { sane (length buf.old) at top ≡ true }
    requires code_bound { code ≤ 256 }
    ensures { (own : Bool) → Quickly result buf.old buf.new at top (plan op code own) (style_in style.now) v.now }
{
    let kind = code / 32;
    // a `match` over an enum's cases: each says something of its own, and a table of closures would be no plainer
    match op {
        Op::Text => text(buf, at, top, text_here(kind), style, v),
        Op::Space => leaf(buf, at, top, fragment_here(kind), 5, b""),
        Op::Force => leaf(buf, at, top, fragment_here(kind), 6, b""),
        Op::Conditional => conditional(buf, at, top, fragment_here(kind), v),
        Op::OpenDefinition => anchor(buf, at, top, fragment_here(kind), 18, v),
        Op::OpenUse => anchor(buf, at, top, fragment_here(kind), 19, v),
        Op::CloseAnchor => shut(buf, at, top, kind == 7),
        Op::OpenIndented => block(buf, at, top, fragment_here(kind), 3, depth_in(code)),
        Op::OpenFlexible => block(buf, at, top, fragment_here(kind), 4, depth_in(code)),
        Op::CloseBlock => shut(buf, at, top, block_here(kind)),
        Op::OpenFragment => open(buf, at, top, block_here(kind), (code % 32) as u8),
        Op::CloseFragment => shut(buf, at, top, kind == 0),
        _ => None,
    }
}

// A step by its number, on any buffer and numbers: all of it, or nothing.
pub fn quick_step(
    buf: &mut [u8],
    at: usize,
    top: usize,
    step: u8,
    style: &[u8; 18],
    v: &[u8],
) -> Option<Spot>
    requires { top < 2 ^ 32 }
    ensures { Quick result buf.old buf.new (stepped (numbered step) (style_in style.now) v.now buf.old at top) }
{
    let code = code_here(buf, at, top)?;
    by_code(buf, at, top, code, numbered(step), style, v)
}
