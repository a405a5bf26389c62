// Texts and anchors: nodes that are no blocks.
// A tag stays a byte of the file (`verify::tables`).

#![tactic(auto, unfolding(crate::specs::OpsIn::if_block_in, crate::specs::OpsIn::leaf_in, lines::specs::Said::break_of))]

ghost use Rattle.std.specs.Prelude.{◌≡◌, ◌-◌, ◌<◌, ◌≤◌, ◌^◌, length, take, drop};
ghost use Rattle.pages.specs.OpsIn.{run_in, run_field_in, runs_in, anchor_in, if_block_in, leaf_in};
ghost use Rattle.pages.specs.OneLines.{BeginsAt};
ghost use Rattle.pens.specs.declared.state.Form.TheVariants as Form;
ghost use Rattle.pens.specs.Ran.{form, indent_of, Rendered};

use crate::quick::{one_line, one_long_line, text_from};
use fields::parts::field_end;
use fields::{Field, field_at};
use lines::{Break, LineOp};
use pens::bytes::render_bytes;
use pens::pen::{Pen, broken, interpret, interpret_mark, plain_part};
use pens::state::is_plain;

// The value of a 1: a 17, or a 16 and a 17.
fn render_text(v: &[u8], pen: &mut Pen<'_>)
    requires { indent_of pen.old < 2 ^ 15 }
    ensures { Rendered (run_in v.now) pen.old pen.new }
{
    let Field::Whole { tag, from, to } = field_at(v, 0) else {
        return;
    };
    if tag != 16 {
        return render_bytes(&v[from..to], pen);
    }
    let Field::Whole { from: f, to: e, .. } = field_at(v, to) else {
        return;
    };
    interpret_mark(pen, LineOp::PushStyles, &v[from..to]);
    render_bytes(&v[f..e], pen);
    interpret_mark(pen, LineOp::PopStyles, &v[from..to]);
}

// The value start..to of a 1 on a plain page that is not short. Its text begins at `from`, and is written at once if it is one line.
fn render_longer(s: &[u8], start: usize, from: usize, to: usize, pen: &mut Pen<'_>)
    requires { (indent_of pen.old < 2 ^ 15) × (start ≤ to) × (to ≤ length s.now) × (form pen.old ≡ Form.Plain) × BeginsAt s.now start from to }
    ensures { Rendered (run_in (take (to - start) (drop start s.now))) pen.old pen.new }
{
    if one_long_line(s, from, to) {
        return plain_part(pen, &s[from..to]);
    }
    render_text(&s[start..to], pen);
}

// A 1, whose value stands at start..to. It is put into both of its callers, up to a short text: texts are what a page has most of.
#[inline(always)]
fn render_one(s: &[u8], start: usize, to: usize, pen: &mut Pen<'_>)
    requires { (indent_of pen.old < 2 ^ 15) × (start ≤ to) × (to ≤ length s.now) }
    ensures { Rendered (run_in (take (to - start) (drop start s.now))) pen.old pen.new }
{
    if is_plain(pen.form) {
        if let Some(n) = text_from(&s[start..to]) {
            let from = start + n;
            if one_line(s, from, to) {
                return plain_part(pen, &s[from..to]);
            }
            return render_longer(s, start, from, to, pen);
        }
    }
    render_text(&s[start..to], pen);
}

// The field at..to of a 2 behind its name.
fn render_run(v: &[u8], at: usize, to: usize, pen: &mut Pen<'_>)
    requires { (indent_of pen.old < 2 ^ 15) × (at ≤ to) × (to ≤ length v.now) }
    ensures { Rendered (run_field_in (take (to - at) (drop at v.now))) pen.old pen.new }
{
    if to - at < 3 {
        return;
    }
    render_one(v, at + 3, to, pen);
}

// The fields of a 2 from `from` on. No `for`: where a field ends is found as the loop goes, and the next begins there.
fn render_runs(v: &[u8], from: usize, pen: &mut Pen<'_>)
    requires { indent_of pen.old < 2 ^ 15 }
    ensures { Rendered (runs_in from v.now) pen.old pen.new }
{
    let mut at = from;
    while at < v.len() {
        let to = field_end(v, at);
        render_run(v, at, to, pen);
        at = to;
    }
}

// The value of a 2: without runs, one empty anchor.
fn render_anchor(v: &[u8], pen: &mut Pen<'_>)
    requires { indent_of pen.old < 2 ^ 15 }
    ensures { Rendered (anchor_in v.now) pen.old pen.new }
{
    let Field::Whole { tag, from, to } = field_at(v, 0) else {
        return;
    };
    let is_def = tag == 18;
    if v.len() <= to {
        return interpret(pen, LineOp::EmptyAnchor { is_def }, &v[from..to]);
    }
    interpret_mark(pen, LineOp::PushAnchor { is_def }, &v[from..to]);
    render_runs(v, to, pen);
    interpret_mark(pen, LineOp::PopAnchor, b"");
}

// The value of a 7, which counts only directly in a block.
fn render_if_block(v: &[u8], pen: &mut Pen<'_>, directly_in_block: bool)
    requires { indent_of pen.old < 2 ^ 15 }
    ensures { Rendered (if_block_in directly_in_block v.now) pen.old pen.new }
{
    if directly_in_block {
        render_bytes(v, pen);
    }
}

// A node that is no block, by its tag; its value stands at from..to. It is put into the walk, as the functions there are.
#[inline(always)]
pub fn render_leaf(
    tag: u8,
    s: &[u8],
    from: usize,
    to: usize,
    pen: &mut Pen<'_>,
    directly_in_block: bool,
)
    requires { (indent_of pen.old < 2 ^ 15) × (from ≤ to) × (to ≤ length s.now) }
    ensures { Rendered (leaf_in directly_in_block tag (take (to - from) (drop from s.now))) pen.old pen.new }
{
    match tag {
        1 => render_one(s, from, to, pen),
        2 => render_anchor(&s[from..to], pen),
        5 => broken(pen, Break::Space),
        6 => broken(pen, Break::NewLine),
        7 => render_if_block(&s[from..to], pen, directly_in_block),
        _ => {}
    }
}
