// Anchors, blocks and fragments: opened and closed.
// A tag or a code stays a number: the contracts here hold of every one (docs/CONTRACTS.md).
ghost use Rattle.std.specs.Prelude.{◌≡◌, true, List, ℕ, ◌≤◌, length};
ghost use Rattle.rules.specs.Encode.{field};
ghost use Rattle.rules.specs.Walk.{anchor_content};
ghost use Rattle.moves.specs.declared.Style.{Style};
ghost use Rattle.moves.specs.declared.Piece.TheVariants.{Nothing};
ghost use Rattle.moves.specs.Plans.{first_fault, sane, shuts, opens, begins};
ghost use Rattle.quick.specs.Quick.{Quickly, OpensNamed};

use crate::adding::{has_room, plain};
use rules::MOST_BLOCKS;
use scribe::opened::close;
use scribe::plan::ANCHOR;
use scribe::put::{put_field, put_header};
use scribe::stepping::Spot;
use utf8::has_byte;

// ASCII without a quote, as most names are.
fn plain_name(v: &[u8]) -> bool
    ensures { result ≡ true → first_fault (anchor_content v.now) ≡ 0 }
{
    plain(v) && !has_byte(v, b'"')
}

pub fn anchor(
    buf: &mut [u8],
    at: usize,
    top: usize,
    allowed: bool,
    tag: u8,
    v: &[u8],
) -> Option<Spot>
    requires { sane (length buf.old) at top ≡ true }
    ensures { OpensNamed result buf.old buf.new at top allowed (field tag v.now) (anchor_content v.now) }
{
    if !allowed || !plain_name(v) || !has_room(buf.len(), at, 6, v.len()) {
        return None;
    }
    let a = put_header(buf, at, ANCHOR, top);
    let next = put_field(buf, a, tag, v);
    Some(Spot {
        at: next,
        top: at + 1,
    })
}

pub fn open(buf: &mut [u8], at: usize, top: usize, allowed: bool, code: u8) -> Option<Spot>
    requires { sane (length buf.old) at top ≡ true }
    ensures { (st : Style) (t : List ℕ) → Quickly result buf.old buf.new at top (opens allowed Nothing 0 code Nothing) st t }
{
    if !allowed || !has_room(buf.len(), at, 3, 0) {
        return None;
    }
    let next = put_header(buf, at, code, top);
    Some(Spot {
        at: next,
        top: at + 1,
    })
}

pub fn block(
    buf: &mut [u8],
    at: usize,
    top: usize,
    allowed: bool,
    kind: usize,
    depth: usize,
) -> Option<Spot>
    requires top_value { sane (length buf.old) at top ≡ true }
    requires kind_bound { (kind ≤ 6) × (depth ≤ 32) }
    ensures { (st : Style) (t : List ℕ) → Quickly result buf.old buf.new at top (begins allowed Nothing kind depth) st t }
{
    if MOST_BLOCKS <= depth {
        return None;
    }
    open(buf, at, top, allowed, (32 * kind + depth) as u8)
}

pub fn shut(buf: &mut [u8], at: usize, top: usize, allowed: bool) -> Option<Spot>
    requires { sane (length buf.old) at top ≡ true }
    ensures { (st : Style) (t : List ℕ) → Quickly result buf.old buf.new at top (shuts allowed Nothing 1 Nothing) st t }
{
    if !allowed || top == 0 {
        return None;
    }
    let around = close(buf, at, top);
    Some(Spot { at, top: around })
}
