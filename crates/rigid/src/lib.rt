// The rigid layout of a node: what it takes up whatever the width is.
// A tag stays a byte of the file (`verify::tables`).

#![tactic(auto)]

ghost use Rattle.std.specs.Prelude.{◌≡◌, ◌≤◌, eqb, length, position, reverse};
ghost use Rattle.shapes.specs.Shapes.{shape};
ghost use Rattle.rules.specs.Layout.{only_if_block, byte_width, effective};
ghost use Rattle.fields.specs.FieldAt.{field_at};
ghost use Rattle.fields.specs.declared.Field.TheVariants.{Whole};
ghost use Rattle.fields.specs.Walk.{part};
ghost use Rattle.looks.specs.Calm.{Says};
ghost use Rattle.styles.specs.StylesIn.{styles_in};
ghost use Rattle.rigid.specs.RigidIn.{wide, last_long, text_in, run_in, with_run, anchor_in, by_tag};

use fields::parts::field_end_in;
use fields::{Field, field_in};
use looks::lacks;
use rules::MOST_TENTHS;
use shapes::ApproxLayout::{BlockOrMixed, Inline};
use shapes::{ApproxLayout, append};
use styles::byte_width_in;
use texts::first_line_end;

// The width of a byte without a style.
const BYTE: u16 = 10;

// The cap of widths, among counts.
const CAP: usize = MOST_TENTHS as usize;

// n bytes, each w tenths of a column wide.
pub fn columns(n: usize, w: u16) -> u16
    ensures { result ≡ wide n w }
{
    (n.min(CAP) * usize::from(w)).min(CAP) as u16
}

// How far from the end the last newline stands, which mostly is near it.
fn last_newline(v: &[u8]) -> Option<usize>
    ensures { result ≡ position (λ b. eqb b 10) (reverse v.now) }
{
    v.iter().rev().position(|&b| b == b'\n')
}

// How many bytes follow the last newline.
fn after_last(v: &[u8]) -> usize
    ensures { result ≡ last_long v.now }
{
    last_newline(v).unwrap_or(v.len())
}

// A text whose bytes are w tenths of a column wide.
#[tactic(auto, using(crate::proofs::Lines::one_line, crate::proofs::Lines::lines))]
fn lines_layout(v: &[u8], w: u16) -> ApproxLayout
    ensures { shape result ≡ text_in w v.now }
{
    let first = first_line_end(v);
    if first == v.len() {
        return Inline {
            worst: columns(first, w),
            excess: 0,
        };
    }
    BlockOrMixed {
        pre: columns(first, w),
        post: columns(after_last(v), w),
    }
}

// The text from..to. Most are short and of one line, which a quick look shows.
fn text_layout(s: &[u8], from: usize, to: usize, w: u16) -> ApproxLayout
    requires { (from ≤ to) × (to ≤ length s.now) }
    ensures { shape result ≡ text_in w (part s.now from to) }
{
    if lacks(s, from, to, b'\n') {
        return Inline {
            worst: columns(to - from, w),
            excess: 0,
        };
    }
    lines_layout(&s[from..to], w)
}

// Whether the value from..to of a 16 is a colour alone, which leaves a byte's width as it is. `false` says nothing. `styles` has the same test for itself: the compiler puts a
// function in place where it is called once (docs/DECISIONS.md).
fn is_colour(s: &[u8], from: usize, to: usize) -> bool
    requires { (from ≤ to) × (to ≤ length s.now) }
    ensures { Says result (10 ≡ byte_width (effective (styles_in (part s.now from to)))) }
{
    to - from == 6 && s[from] == 32 && s[from + 1] == 0 && s[from + 2] == 3
}

// The width of a byte under the style from..to.
fn style_width(s: &[u8], from: usize, to: usize) -> u16
    requires { (from ≤ to) × (to ≤ length s.now) }
    ensures { result ≡ byte_width (effective (styles_in (part s.now from to))) }
{
    if is_colour(s, from, to) {
        return BYTE;
    }
    byte_width_in(&s[from..to])
}

// The value at..end of a 1: a 17, or a 16 and a 17.
#[tactic(auto, using(fields::proofs::Laws::rises, crate::proofs::Places::ends_in, crate::proofs::Places::ends_in_file, crate::proofs::Places::no_text, crate::proofs::Places::plain_text))]
fn run_layout(s: &[u8], at: usize, end: usize) -> ApproxLayout
    requires { (at ≤ end) × (end ≤ length s.now) }
    ensures { shape result ≡ run_in (part s.now at end) }
{
    let Field::Whole { tag, from, to } = field_in(s, at, end) else {
        return Inline {
            worst: 0,
            excess: 0,
        };
    };
    if tag != 16 {
        return text_layout(s, from, to, BYTE);
    }
    let Field::Whole {
        tag: t,
        from: f,
        to: e,
    } = field_in(s, to, end)
    else {
        return Inline {
            worst: 0,
            excess: 0,
        };
    };
    text_layout(s, f, e, style_width(s, from, to))
}

// The field at..to of a 2, after the ones before it: a 1 is appended.
#[tactic(auto, using(crate::proofs::Runs::cut_field, crate::proofs::Runs::other_field, crate::proofs::Runs::run_appended))]
fn with_run(so_far: ApproxLayout, s: &[u8], at: usize, to: usize) -> ApproxLayout
    requires { (at ≤ to) × (to ≤ length s.now) }
    ensures { shape result ≡ with_run (shape so_far) (part s.now at to) }
{
    if to - at < 3 || s[at] != 1 {
        return so_far;
    }
    append(so_far, run_layout(s, at + 3, to))
}

// The value from..end of a 2: its texts, one after the other. No `for`: a field ends where its own bytes say, and the next begins there.
#[tactic(auto, using(crate::proofs::Runs::all_runs, crate::proofs::Places::ends_rise, crate::proofs::Places::ends_inside_file, crate::proofs::Places::ends_less, crate::proofs::Runs::next_run, crate::proofs::Runs::no_runs))]
fn anchor_layout(s: &[u8], from: usize, end: usize) -> ApproxLayout
    requires { (from ≤ end) × (end ≤ length s.now) }
    ensures { shape result ≡ anchor_in (part s.now from end) }
{
    let mut so_far = Inline {
        worst: 0,
        excess: 0,
    };
    let mut at = from;
    // no plainer by an iterator, whose `next` would have to find where each field ends
    while at < end {
        let to = field_end_in(s, at, end);
        so_far = with_run(so_far, s, at, to);
        at = to;
    }
    so_far
}

// A 7 takes its place only in a block: all of its width is excess, and with a newline it has none.
fn only_if_block(a: ApproxLayout) -> ApproxLayout
    ensures { shape result ≡ only_if_block (shape a) }
{
    match a {
        Inline { worst, .. } => Inline {
            worst,
            excess: worst,
        },
        BlockOrMixed { .. } => Inline {
            worst: 0,
            excess: 0,
        },
    }
}

// The value from..to of a 7.
fn if_block_layout(s: &[u8], from: usize, to: usize) -> ApproxLayout
    requires { (from ≤ to) × (to ≤ length s.now) }
    ensures { shape result ≡ only_if_block (text_in 10 (part s.now from to)) }
{
    only_if_block(text_layout(s, from, to, BYTE))
}

// A node with this tag, whose value is from..to.
pub fn approx_rigid_layout(tag: u8, s: &[u8], from: usize, to: usize) -> ApproxLayout
    requires { (from ≤ to) × (to ≤ length s.now) }
    ensures { shape result ≡ by_tag tag (part s.now from to) }
{
    match tag {
        1 => run_layout(s, from, to),
        2 => anchor_layout(s, from, to),
        3 | 6 => BlockOrMixed { pre: 0, post: 0 },
        5 => Inline {
            worst: BYTE,
            excess: 0,
        },
        7 => if_block_layout(s, from, to),
        _ => Inline {
            worst: 0,
            excess: 0,
        },
    }
}
