// The style record of a text, read from the value of a field 16.
// A tag stays a byte of the file (`verify::tables`).

#![tactic(auto)]

ghost use Rattle.std.specs.Prelude.{◌≡◌, true, ◌≤◌};
ghost use Rattle.std.proofs.Math.Option.{some};
ghost use Rattle.std.specs.Float.{binary32};
ghost use Rattle.std.specs.Float.Ieee.{to_bits};
ghost use Rattle.rules.specs.Walk.{right_opacity};
ghost use Rattle.rules.specs.Layout as layout;
ghost use Rattle.styles.specs.Ran.{Ran};
ghost use Rattle.styles.specs.Said.{said_styles, is_there, Allowed};
ghost use Rattle.styles.specs.StylesIn.{no_styles, given_size, with_field, styles_in, ColourAlone};
ghost use Rattle.styles.specs.WidthIn.{script_with, width_with};

use fields::{Field, field_at};

// A value stands beside its flag, and counts where the flag is set: document 01's form of the record, and no Option. In this order there is no gap between
// the fields; one would be copied by itself whenever a style is handed on.
#[derive(Debug, Clone, Copy, PartialEq, Default)]
pub struct Styles {
    pub has_colour: bool,
    pub colour: [u8; 3],
    pub opacity: f32,
    pub has_opacity: bool,
    pub has_thickness: bool,
    pub thickness: i8,
    pub has_size: bool,
    pub size: i8,
    pub subscript: bool,
    pub superscript: bool,
    pub dim: bool,
    pub underline: bool,
}

// The style of a 16 without fields.
#[tactic(auto, using(crate::proofs::Parts::none_said))]
pub fn none() -> Styles
    ensures { said_styles result ≡ no_styles }
{
    Styles::default()
}

// The bits of 1/1024 and of 1.
const LEAST_OPACITY: u32 = 0x3a80_0000;

const MOST_OPACITY: u32 = 0x3f80_0000;

// Bits of an opacity: +0, or from 1/1024 to 1. None of them is a NaN, of which `f32::from_bits` makes no float.
fn opacity_allowed(bits: u32) -> bool
    ensures { result ≡ right_opacity bits }
{
    bits == 0 || LEAST_OPACITY <= bits && bits <= MOST_OPACITY
}

// A field 32 put in.
#[tactic(auto, using(crate::proofs::Parts::no_colour))]
fn with_colour(mut st: Styles, v: &[u8]) -> Styles
    ensures { said_styles result ≡ with_field (said_styles st) 32 v.now }
{
    let &[r, g, b] = v else {
        return st;
    };
    st.has_colour = true;
    st.colour = [r, g, b];
    st
}

// A field 33 put in.
#[tactic(auto, using(crate::proofs::Parts::no_opacity))]
fn with_opacity(mut st: Styles, v: &[u8]) -> Styles
    ensures { said_styles result ≡ with_field (said_styles st) 33 v.now }
{
    let &[a, b, c, d] = v else {
        return st;
    };
    let bits = u32::from_be_bytes([a, b, c, d]);
    if !opacity_allowed(bits) {
        return st;
    }
    st.has_opacity = true;
    st.opacity = f32::from_bits(bits);
    st
}

// A field 34 put in.
#[tactic(auto, using(crate::proofs::Parts::no_thickness))]
fn with_thickness(mut st: Styles, v: &[u8]) -> Styles
    ensures { said_styles result ≡ with_field (said_styles st) 34 v.now }
{
    let &[b] = v else {
        return st;
    };
    st.has_thickness = true;
    st.thickness = b.cast_signed();
    st
}

// The largest size that is allowed.
const MAX_SIZE: i8 = 117;

// The size that a field 35 says, where it counts.
#[tactic(auto, using(crate::proofs::Sizes::no_size))]
fn size_in(v: &[u8]) -> Option<i8>
    ensures { result ≡ given_size v.now }
{
    let &[b] = v else {
        return None;
    };
    let size = b.cast_signed();
    if size <= MAX_SIZE { Some(size) } else { None }
}

// A field 35 put in.
fn with_size(mut st: Styles, v: &[u8]) -> Styles
    ensures { said_styles result ≡ with_field (said_styles st) 35 v.now }
{
    let Some(size) = size_in(v) else {
        return st;
    };
    st.has_size = true;
    st.size = size;
    st
}

// A field from 36 to 39 put in: a flag, which has no value.
fn with_flag(mut st: Styles, tag: u8, v: &[u8]) -> Styles
    ensures { 36 ≤ tag → tag ≤ 39 → said_styles result ≡ with_field (said_styles st) tag v.now }
{
    if !v.is_empty() {
        return st;
    }
    match tag {
        36 => st.subscript = true,
        37 => st.superscript = true,
        38 => st.dim = true,
        _ => st.underline = true,
    }
    st
}

// A field put in, by its tag; one with any other tag is passed over. Each flag has its own arm: the compiler then knows the tag in `with_flag`.
#[tactic(auto, using(crate::proofs::Parts::other_tag))]
fn with_field(st: Styles, tag: u8, v: &[u8]) -> Styles
    ensures { said_styles result ≡ with_field (said_styles st) tag v.now }
{
    match tag {
        32 => with_colour(st, v),
        33 => with_opacity(st, v),
        34 => with_thickness(st, v),
        35 => with_size(st, v),
        36 => with_flag(st, 36, v),
        37 => with_flag(st, 37, v),
        38 => with_flag(st, 38, v),
        39 => with_flag(st, 39, v),
        _ => st,
    }
}

// Whether the fields of some bytes are a colour alone, as those of most texts are.
fn is_colour(v: &[u8]) -> bool
    ensures { result ≡ true → ColourAlone v.now }
{
    v.len() == 6 && v[0] == 32 && v[1] == 0 && v[2] == 3
}

// What `step` makes of `start` over the fields of some bytes, each by its tag and its value, from the front. A field that is not whole stops.
#[tactic(auto, using(crate::proofs::Reading::whole_fields))]
fn over_fields<A: Copy, F: Fn(A, u8, &[u8]) -> A>(v: &[u8], start: A, step: F) -> A
    requires { F.IsAlwaysCallable step }
    ensures { Ran (λ a t x r. F.post step a t x r) v.now 0 start result }
{
    let mut a = start;
    let mut at = 0;
    // no plainer by an iterator, whose `next` would have to find where each field ends
    while let Field::Whole { tag, from, to } = field_at(v, at) {
        a = step(a, tag, &v[from..to]);
        at = to;
    }
    a
}

// The style that the fields of some bytes say.
pub fn read_styles(v: &[u8]) -> Styles
    ensures { said_styles result ≡ styles_in v.now }
{
    if is_colour(v) {
        return with_colour(none(), &v[3..6]);
    }
    over_fields(v, none(), with_field)
}

// Whether the style has an effective size: field 35, or -2 under 36 or 37.
pub fn has_effective(st: Styles) -> bool
    ensures { result ≡ is_there (layout.effective (said_styles st)) }
{
    st.has_size || st.subscript || st.superscript
}

// The opacity's bits. That it is allowed rules out a NaN, which has no bits.
pub fn opacity_bits(st: Styles) -> u32
    requires has_opacity_value { st.has_opacity ≡ true }
    requires allowed { Allowed (said_styles st).opacity }
    ensures { result ≡ to_bits binary32 st.opacity }
{
    st.opacity.to_bits()
}

// Added to a byte's width once a size was read: a script then says nothing.
const SIZED: u16 = 256;

// The width of a byte under 36 or 37.
const SCRIPT_WIDTH: u16 = 8;

// The width of a byte at a size: 10 and the size, or 0 where that is negative.
fn sized_width(size: i8) -> u16
    ensures { result ≡ layout.byte_width (some size) }
{
    (10 + i16::from(size)).max(0).cast_unsigned()
}

// A field 35 put into a byte's width.
fn with_size_width(w: u16, v: &[u8]) -> u16
    ensures { result ≡ width_with w 35 v.now }
{
    match size_in(v) {
        Some(size) => SIZED + sized_width(size),
        None => w,
    }
}

// A field 36 or 37 put into a byte's width.
fn with_script_width(w: u16, v: &[u8]) -> u16
    ensures { result ≡ script_with w v.now }
{
    if v.is_empty() && w < SIZED {
        SCRIPT_WIDTH
    } else {
        w
    }
}

// A field put into a byte's width, by its tag; only sizes and scripts say something.
#[tactic(auto, using(crate::proofs::Widths::script_put, crate::proofs::Widths::other_width))]
fn with_width(w: u16, tag: u8, v: &[u8]) -> u16
    ensures { result ≡ width_with w tag v.now }
{
    match tag {
        35 => with_size_width(w, v),
        36 | 37 => with_script_width(w, v),
        _ => w,
    }
}

// The width of one byte under the style that the fields of some bytes say, in tenths of a column. It is read alone, since layout needs no more.
pub fn byte_width_in(v: &[u8]) -> u16
    ensures { result ≡ layout.byte_width (layout.effective (styles_in v.now)) }
{
    over_fields(v, 10, with_width) % SIZED
}
