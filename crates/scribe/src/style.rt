// What a text's style says, as a writer is given it: the values of fields 32 to 39 as the file has them, each beside its flag. Sizes and bytes are two walks over
// these fields and not one over a closure: a size is a sum and a put has a place, so all that the two would share is the order of eight lines.
// A tag or a code stays a number: the contracts here hold of every one (docs/CONTRACTS.md).
ghost use Rattle.std.specs.Prelude.{◌≡◌, ◌<◌, ◌≤◌, length};
ghost use Rattle.scripts.specs.Shown.{run_bytes};
ghost use Rattle.writing.specs.Written.{Written};
ghost use Rattle.moves.specs.Style.{style_bytes, style_size, style_part, part, part_size, run, value_parts, flag_parts};

use crate::put::{put_field, put_header};
use moves::Style;

// The bytes of a field that is there or not.
#[tactic(auto, unfolding(moves::specs::Style::part_size))]
fn part_size(there: bool, v: &[u8]) -> usize
    requires { length v.now ≤ 4 }
    ensures { (result ≡ part_size there (length v.now)) × (result ≤ 7) }
{
    if there {
        return 3 + v.len();
    }
    0
}

// The bytes of the fields 32 to 35.
fn values_size(st: Style) -> usize
    ensures { (result ≡ length (value_parts st)) × (result ≤ 28) }
{
    let colour = st.colour;
    let opacity = st.opacity;
    let thickness = [st.thickness];
    let size = [st.size];
    let a = part_size(st.has_colour, &colour);
    let b = part_size(st.has_opacity, &opacity);
    let c = part_size(st.has_thickness, &thickness);
    a + b + c + part_size(st.has_size, &size)
}

// The bytes of the fields 36 to 39.
fn flags_size(st: Style) -> usize
    ensures { (result ≡ length (flag_parts st)) × (result ≤ 28) }
{
    part_size(st.subscript, b"")
        + part_size(st.superscript, b"")
        + part_size(st.dim, b"")
        + part_size(st.underline, b"")
}

// The bytes of the field 16, or 0 where there is no style.
pub fn style_size(st: Style) -> usize
    ensures { (result ≡ style_size st) × (result ≤ 59) }
{
    if st.styled {
        return 3 + values_size(st) + flags_size(st);
    }
    0
}

// A field that is there or not.
#[tactic(auto, unfolding(moves::specs::Style::part))]
fn put_part(page: &mut [u8], at: usize, there: bool, tag: u8, v: &[u8]) -> usize
    requires { length v.now < 65_536 }
    ensures { Written page.old at (part there tag v.now) page.new result }
{
    if there {
        return put_field(page, at, tag, v);
    }
    at
}

// The fields 32 to 35.
fn put_values(page: &mut [u8], at: usize, st: Style) -> usize
    ensures { Written page.old at (value_parts st) page.new result }
{
    let colour = st.colour;
    let opacity = st.opacity;
    let thickness = [st.thickness];
    let size = [st.size];
    let a = put_part(page, at, st.has_colour, 32, &colour);
    let b = put_part(page, a, st.has_opacity, 33, &opacity);
    let c = put_part(page, b, st.has_thickness, 34, &thickness);
    put_part(page, c, st.has_size, 35, &size)
}

// The fields 36 to 39, which are empty.
fn put_flags(page: &mut [u8], at: usize, st: Style) -> usize
    ensures { Written page.old at (flag_parts st) page.new result }
{
    let a = put_part(page, at, st.subscript, 36, b"");
    let b = put_part(page, a, st.superscript, 37, b"");
    let c = put_part(page, b, st.dim, 38, b"");
    put_part(page, c, st.underline, 39, b"")
}

// The field 16, where there is a style.
fn put_style(page: &mut [u8], at: usize, st: Style) -> usize
    ensures { Written page.old at (style_part st) page.new result }
{
    if st.styled {
        let n = values_size(st) + flags_size(st);
        let a = put_header(page, at, 16, n);
        let b = put_values(page, a, st);
        return put_flags(page, b, st);
    }
    at
}

// A text's node: a 1 with the style's 16, where there is one, and the 17.
pub fn put_run(page: &mut [u8], at: usize, st: Style, v: &[u8]) -> usize
    requires { length v.now < 65_000 }
    ensures { Written page.old at (run_bytes (run st v.now)) page.new result }
{
    let a = put_header(page, at, 1, style_size(st) + 3 + v.len());
    let b = put_style(page, a, st);
    put_field(page, b, 17, v)
}
