// The walk: a node, a block's fragments, a fragment's nodes. They call each other, with one block less left each time round. All of them are put into `render_fragment`, which then calls itself:
// with a call for each, the page of a block of empty fragments took two thirds more instructions. `base` is the place of s in the
// file, which the marks are asked for. `left`, `marks` and `base` are no struct: a block changes one of them and a field another, so that each call would build it anew.
ghost use Rattle.std.specs.Prelude.{◌≡◌, ◌+◌, ◌-◌, ◌<◌, ◌≤◌, ◌^◌, length, take, drop};
ghost use Rattle.rules.specs.Limits.{most_bytes};
ghost use Rattle.rules.specs.Marks.{marked};
ghost use Rattle.pages.specs.OpsIn.{behind_fragment, fragments_by, three_in, four_in, node_in, fragment_in};
ghost use Rattle.pens.specs.Ran.{indent_of, Rendered};

use crate::leaves::render_leaf;
use crate::marks::is_marked;
use fields::parts::field_end;
use lines::Break;
use pens::pen::{Pen, broken, deeper, less_deep};

// A node, whose whole field stands at..to.
#[inline(always)]
#[cycle(render_flexible_render_fragment_render_fragments_render_indented_render_inner_render_node)]
fn render_node(
    s: &[u8],
    at: usize,
    to: usize,
    pen: &mut Pen<'_>,
    directly_in_block: bool,
    left: usize,
    marks: &[u64],
    base: usize,
)
    requires { (indent_of pen.old + left < 2 ^ 15) × (at ≤ to) × (to ≤ length s.now) × (base + length s.now ≤ most_bytes) }
    ensures { Rendered (node_in (marked marks.now) left directly_in_block (base + at) (take (to - at) (drop at s.now))) pen.old pen.new }
{
    if to - at < 3 {
        return;
    }
    let tag = s[at];
    if tag == 3 {
        return render_indented(&s[at..to], pen, left, marks, base + at);
    }
    if tag == 4 {
        return render_flexible(&s[at..to], pen, left, marks, base + at);
    }
    render_leaf(tag, s, at + 3, to, pen, directly_in_block);
}

// A 4, whose whole field is s: by its mark an indented block, or its fragments in the line.
#[inline(always)]
#[cycle(render_flexible_render_fragment_render_fragments_render_indented_render_inner_render_node)]
fn render_flexible(s: &[u8], pen: &mut Pen<'_>, left: usize, marks: &[u64], base: usize)
    requires { (indent_of pen.old + left < 2 ^ 15) × (base + length s.now ≤ most_bytes) }
    ensures { Rendered (four_in (marked marks.now) left base s.now) pen.old pen.new }
{
    if is_marked(marks, base) {
        return render_indented(s, pen, left, marks, base);
    }
    if left == 0 {
        return;
    }
    render_fragments(s, pen, false, left - 1, marks, base);
}

// An indented block, whose whole field is s.
#[inline(always)]
#[cycle(render_flexible_render_fragment_render_fragments_render_indented_render_inner_render_node)]
fn render_indented(s: &[u8], pen: &mut Pen<'_>, left: usize, marks: &[u64], base: usize)
    requires { (indent_of pen.old + left < 2 ^ 15) × (base + length s.now ≤ most_bytes) }
    ensures { Rendered (three_in (marked marks.now) left base s.now) pen.old pen.new }
{
    if left == 0 {
        return;
    }
    deeper(pen);
    broken(pen, Break::NewLine);
    render_fragments(s, pen, true, left - 1, marks, base);
    less_deep(pen);
}

// Behind a fragment of an indented block the line ends.
fn end_fragment(pen: &mut Pen<'_>, directly_in_block: bool)
    ensures { Rendered (behind_fragment directly_in_block) pen.old pen.new }
{
    if directly_in_block {
        broken(pen, Break::NewLine);
    }
}

// A block's fragments, one after the other; s is the block's whole field. No `for`: where a field ends is found as the loop goes, and its place is the marks'.
#[inline(always)]
#[cycle(render_flexible_render_fragment_render_fragments_render_indented_render_inner_render_node)]
fn render_fragments(
    s: &[u8],
    pen: &mut Pen<'_>,
    directly_in_block: bool,
    left: usize,
    marks: &[u64],
    base: usize,
)
    requires { (indent_of pen.old + left < 2 ^ 15) × (base + length s.now ≤ most_bytes) }
    ensures { Rendered (fragments_by directly_in_block (node_in (marked marks.now) left directly_in_block) base s.now) pen.old pen.new }
{
    let mut at = 3;
    while at < s.len() {
        let to = field_end(s, at);
        render_inner(&s[at..to], pen, directly_in_block, left, marks, base + at);
        end_fragment(pen, directly_in_block);
        at = to;
    }
}

// A fragment of a block, whose whole field is s. An empty one is not entered.
#[inline(always)]
#[cycle(render_flexible_render_fragment_render_fragments_render_indented_render_inner_render_node)]
fn render_inner(
    s: &[u8],
    pen: &mut Pen<'_>,
    directly_in_block: bool,
    left: usize,
    marks: &[u64],
    base: usize,
)
    requires { (indent_of pen.old + left < 2 ^ 15) × (base + length s.now ≤ most_bytes) }
    ensures { Rendered (fragment_in (marked marks.now) left directly_in_block base 3 s.now) pen.old pen.new }
{
    if s.len() <= 3 {
        return;
    }
    render_fragment(s, 3, pen, directly_in_block, left, marks, base);
}

// A fragment's nodes, from `from` on, by their places as there.
#[cycle(render_flexible_render_fragment_render_fragments_render_indented_render_inner_render_node)]
pub fn render_fragment(
    s: &[u8],
    from: usize,
    pen: &mut Pen<'_>,
    directly_in_block: bool,
    left: usize,
    marks: &[u64],
    base: usize,
)
    requires { (indent_of pen.old + left < 2 ^ 15) × (base + length s.now ≤ most_bytes) }
    ensures rendered { Rendered (fragment_in (marked marks.now) left directly_in_block base from s.now) pen.old pen.new }
    ensures same_page { pen.new.page.bytes.ghost_name ≡ pen.old.page.bytes.ghost_name }
{
    let mut at = from;
    while at < s.len() {
        let to = field_end(s, at);
        render_node(s, at, to, pen, directly_in_block, left, marks, base);
        at = to;
    }
}
