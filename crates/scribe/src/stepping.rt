// A step on a plain slice and two numbers, whatever they are: how far the file is written, and the place of the innermost open field and 1, or 0. That they are sane
// is a fact about the slice too, so a struct with that invariant would hold the reference, of whose callees a proof knows no more than the contract (`held`).
ghost use Rattle.std.specs.Prelude.{◌≡◌, true, ◌&&◌, ◌+◌, ◌<◌, ◌≤◌, leb, ltb, length, Ok};
ghost use Rattle.rules.specs.Result.{accepted};
ghost use Rattle.writing.specs.Written.{Written};
ghost use Rattle.moves.specs.Opened.{link_at, closed_top, closed_bytes};
ghost use Rattle.moves.specs.Plans.{piece_bytes, opened_header, opened_top, sane, closable, first_node};
ghost use Rattle.scribe.specs.Near.{Near, Leads, moved_by};
ghost use Rattle.moves.specs.Stepped.{Says, left, carried_out, so_far, fitting, planned, Ready, stepped};

use crate::checks::{check_plan, plan_size};
use crate::opened::{ROOT, close, code_at, link_at};
use crate::plan::plan_of;
use crate::put::{put_field, put_header};
use crate::style::put_run;
use moves::{Moved, Op, Piece, Plan, Refusal, Style};
use rules::MOST_BYTES;
use writing::put_bytes;

// Numbers that a writer can have: the position is in the buffer and in a file, and the open header in front of it.
#[tactic(auto, unfolding(moves::specs::Plans::sane))]
pub fn sane(room: usize, at: usize, top: usize) -> bool
    ensures { result ≡ sane room at top }
{
    at <= MOST_BYTES && at <= room && (top == 0 || (top <= at && top + 2 <= at))
}

// A field is open around the one at `top`, and stands in front of it.
fn is_inside(buf: &[u8], top: usize) -> bool
    requires { top + 1 < length buf.now }
    ensures { result ≡ (leb 1 (link_at buf.now top) && ltb (link_at buf.now top) top) }
{
    let around = link_at(buf, top);
    1 <= around && around < top
}

// So many fields are open; where two are closed, the outer one stands in front of the inner one.
fn closable(buf: &[u8], at: usize, top: usize, closes: usize) -> bool
    requires { sane (length buf.now) at top ≡ true }
    ensures { result ≡ closable buf.now top closes }
{
    closes == 0 || (top != 0 && (closes == 1 || is_inside(buf, top)))
}

#[tactic(auto, unfolding(moves::specs::Plans::piece_bytes, rules::specs::Encode::field, scripts::specs::Shown::run_bytes, rules::specs::Encode::encode_fields, rules::specs::Encode::run_fields))]
fn put_piece(page: &mut [u8], at: usize, piece: Piece, st: Style, v: &[u8]) -> usize
    requires { length (piece_bytes piece st v.now) ≤ 60_000 }
    ensures { Written page.old at (piece_bytes piece st v.now) page.new result }
{
    match piece {
        Piece::Nothing => at,
        Piece::Run => put_run(page, at, st, v),
        Piece::Space => put_bytes(page, at, b"\x05\0\0"),
        Piece::Force => put_bytes(page, at, b"\x06\0\0"),
        Piece::Conditional => put_field(page, at, 7, v),
        Piece::Definition => put_field(page, at, 18, v),
        Piece::Use => put_field(page, at, 19, v),
        Piece::CommaSpace => put_bytes(page, at, b"\x01\0\x04\x11\0\x01,\x05\0\0"),
        Piece::LastComma => put_bytes(page, at, b"\x07\0\x01,"),
    }
}

// Closes so many fields, at most two, and answers where the open field around them is.
fn close_fields(buf: &mut [u8], at: usize, top: usize, closes: usize) -> usize
    requires top_value { sane (length buf.old) at top ≡ true }
    requires closes_value { closable buf.old top closes ≡ true }
    ensures { (result ≡ closed_top buf.old at top closes) × (result < 65_536) × (buf.new ≡ closed_bytes buf.old at top closes) }
{
    if closes == 0 {
        return top;
    }
    let around = close(buf, at, top);
    if closes == 1 {
        return around;
    }
    close(buf, at, around)
}

// Where a writer stands.
#[derive(Debug, Clone, Copy, PartialEq, Eq)]
pub struct Spot {
    pub at: usize,
    pub top: usize,
}

// Opens a field by its code, or none.
#[tactic(auto, unfolding(moves::specs::Plans::opened_header, moves::specs::Plans::opened_top))]
fn open_field(buf: &mut [u8], at: usize, top: usize, opens: Option<u8>) -> Spot
    requires { (at ≤ 60_000) × (top < 65_536) }
    ensures { Written buf.old at (opened_header opens top) buf.new result.at × (result.top ≡ opened_top opens at top) }
{
    match opens {
        Some(code) => Spot {
            at: put_header(buf, at, code, top),
            top: at + 1,
        },
        None => Spot { at, top },
    }
}

// The step itself, where there is room for it.
fn act(buf: &mut [u8], at: usize, top: usize, p: Plan, st: Style, v: &[u8]) -> Spot
    requires { Ready p st v.now buf.old at top }
    ensures { Leads (moved_by at top (Ok result)) buf.new (left buf.old at top (accepted (carried_out p st v.now (so_far buf.old at top)))) at top }
{
    let a = put_piece(buf, at, p.before, st, v);
    let t = close_fields(buf, a, top, p.closes);
    let s = open_field(buf, a, t, p.opens);
    let b = put_piece(buf, s.at, p.behind, st, v);
    Spot { at: b, top: s.top }
}

// 1, then 10.
fn within(
    buf: &mut [u8],
    at: usize,
    top: usize,
    p: Plan,
    st: Style,
    v: &[u8],
) -> Result<Spot, Refusal>
    requires top_value { sane (length buf.old) at top ≡ true }
    requires closes_value { closable buf.old top p.closes ≡ true }
    ensures { Leads (moved_by at top result) buf.new (left buf.old at top (fitting (length buf.old) at (carried_out p st v.now (so_far buf.old at top)))) at top }
{
    let n = at + plan_size(p, st, v.len());
    if MOST_BYTES < n {
        return Err(Refusal::TooLong(at));
    }
    if buf.len() < n {
        return Err(Refusal::BufferTooShort(n));
    }
    Ok(act(buf, at, top, p, st, v))
}

// 11 for what is open, then what is wrong in what the step brings.
fn taken(
    buf: &mut [u8],
    at: usize,
    top: usize,
    p: Plan,
    st: Style,
    v: &[u8],
) -> Result<Spot, Refusal>
    requires { sane (length buf.old) at top ≡ true }
    ensures { Leads (moved_by at top result) buf.new (left buf.old at top (planned p st v.now buf.old at top)) at top }
{
    if !p.allowed || !closable(buf, at, top, p.closes) {
        return Err(Refusal::NotAllowed(at));
    }
    check_plan(p, st, v, at)?;
    within(buf, at, top, p, st, v)
}

// Where the nodes of the open fragment begin, behind the 5 that a space join puts before an entry. The code stays a number, as in `plan`.
#[tactic(auto, unfolding(moves::specs::Plans::first_node))]
fn first_node(code: usize, top: usize) -> usize
    requires { top ≤ 60_000 }
    ensures { result ≡ first_node code top }
{
    if code == ROOT {
        return 0;
    }
    top + if code / 32 == 1 { 5 } else { 2 }
}

// A step from numbers that a writer has; those that none has are refused by 11 as well.
fn from_here(
    buf: &mut [u8],
    at: usize,
    top: usize,
    op: Op,
    style: Style,
    text: &[u8],
) -> Result<Spot, Refusal>
    ensures { Leads (moved_by at top result) buf.new (stepped op style text.now buf.old at top) at top }
{
    if !sane(buf.len(), at, top) {
        return Err(Refusal::NotAllowed(at));
    }
    let code = code_at(buf, top);
    let p = plan_of(op, code, first_node(code, top) < at);
    taken(buf, at, top, p, style, text)
}

// One step, with the numbers after it: a refusal leaves them as they were.
pub fn step_near(buf: &mut [u8], at: usize, top: usize, op: Op, style: Style, text: &[u8]) -> Moved
    ensures { Says result buf.new (stepped op style text.now buf.old at top) × Near result at top }
{
    match from_here(buf, at, top, op, style, text) {
        Ok(s) => Moved {
            at: s.at,
            top: s.top,
            answer: Ok(s.at),
        },
        Err(r) => Moved {
            at,
            top,
            answer: Err(r),
        },
    }
}

// The same, said in one fact, for who needs no bound of the numbers.
pub fn step_at(buf: &mut [u8], at: usize, top: usize, op: Op, style: Style, text: &[u8]) -> Moved
    ensures { Says result buf.new (stepped op style text.now buf.old at top) }
{
    step_near(buf, at, top, op, style, text)
}
