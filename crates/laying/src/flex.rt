// The first walk: the nodes of a fragment, a block's fragments. They call each other, inside one block more each time round.
// No `for` in their loops: a field ends where its own bytes say, and the next begins there.
ghost use Rattle.std.specs.Prelude.{◌≡◌, true, [], ◌+◌, ◌<◌, max, length, get_or, take};
ghost use Rattle.std.proofs.Math.Seq.{slice};
ghost use Rattle.rules.specs.Layout as rules;
ghost use Rattle.rules.specs.Walk.{is_block, in_fragment, in_block};
ghost use Rattle.shapes.specs.Shapes.{shape};
ghost use Rattle.verify.specs.Walked.{RestSaid, ValueSaid, Between};
ghost use Rattle.layout.specs.LaidIn.{fragment_in, flex_in};
ghost use Rattle.layout.specs.Stretches.{Path};
ghost use Rattle.laying.specs.Told.{Open};
ghost use Rattle.laying.specs.Beside.{Clear};
ghost use Rattle.laying.specs.Walks.{Indented, Decided, NodeWalked, FragmentsWalked, StretchWalked, FragmentWalked};

use crate::marks::{Marks, mark};
use crate::stretch::{ahead, behind};
use fields::parts::field_end_in;
use fields::{Field, field_in};
use rules::{INDENTATION, MOST_BLOCKS};
use shapes::ApproxLayout::{BlockOrMixed, Inline};
use shapes::{ApproxLayout, append};
use verify::tables;

// The inline maximum that is left after what is laid out so far.
fn room(inline_max: u16, block_max: u16, so_far: ApproxLayout) -> u16
    ensures { result ≡ rules.room inline_max block_max (shape so_far) }
{
    match so_far {
        Inline { worst, .. } => inline_max.saturating_sub(worst),
        BlockOrMixed { post, .. } => block_max.saturating_sub(post),
    }
}

// The block at `at` does not fit.
fn indented(bits: &mut Marks, at: usize, so_far: ApproxLayout) -> ApproxLayout
    requires { at < 60_000 }
    ensures { Indented bits.old at (shape so_far) (shape result) bits.new }
{
    mark(bits, at);
    append(so_far, BlockOrMixed { pre: 0, post: 0 })
}

// The block at `at`, whose fragments took up `own`: it stays inline where they fit the inline maximum, less what stands only in a block.
fn decide(
    bits: &mut Marks,
    at: usize,
    inline_max: u16,
    so_far: ApproxLayout,
    own: ApproxLayout,
) -> ApproxLayout
    requires { at < 60_000 }
    ensures { Decided bits.old at inline_max (shape so_far) (shape own) (shape result) bits.new }
{
    let Inline { worst, excess } = own else {
        return indented(bits, at, so_far);
    };
    let candidate = worst.saturating_sub(excess);
    if inline_max < candidate {
        return indented(bits, at, so_far);
    }
    let kept = Inline {
        worst: candidate,
        excess: 0,
    };
    append(so_far, kept)
}

// A block, from `at` to `to`, after what is laid out so far. File, marks and the two widths stay parameters of their own, no plainer as a struct: each call makes the widths
// anew, and a struct that borrows the rest is taken apart by every proof.
#[cycle(approx_flex_layout_approx_fragments_layout_approx_layout_approx_stretch_layout)]
fn approx_flex_layout(
    s: &[u8],
    bits: &mut Marks,
    at: usize,
    to: usize,
    inline_max: u16,
    block_max: u16,
    so_far: ApproxLayout,
    depth: usize,
) -> Option<ApproxLayout>
    requires { Clear bits.old s.now at × (Between s.now at (at + 3) to × (is_block (get_or s.now at 0) ≡ true)) }
    ensures { NodeWalked depth inline_max block_max (shape so_far) s.now at to bits.old result bits.new }
{
    if MOST_BLOCKS <= depth {
        return None;
    }
    let block = block_max.saturating_sub(INDENTATION);
    let from = at + 3;
    if s[at] == 3 {
        approx_fragments_layout(s, bits, from, to, block, block, depth + 1)?;
        return Some(append(so_far, BlockOrMixed { pre: 0, post: 0 }));
    }
    let most = room(inline_max, block_max, so_far);
    let l = approx_fragments_layout(s, bits, from, to, most.max(block), block, depth + 1)?;
    Some(decide(bits, at, most, so_far, l))
}

// The fragments of a block, from `from` to `end`, inside `depth` blocks with it.
#[cycle(approx_flex_layout_approx_fragments_layout_approx_layout_approx_stretch_layout)]
fn approx_fragments_layout(
    s: &[u8],
    bits: &mut Marks,
    from: usize,
    end: usize,
    inline_max: u16,
    block_max: u16,
    depth: usize,
) -> Option<ApproxLayout>
    requires { Clear bits.old s.now from × Between s.now 0 from end }
    ensures { FragmentsWalked depth inline_max block_max from s.now end bits.old result bits.new }
{
    let mut layout = Inline {
        worst: 0,
        excess: 0,
    };
    let mut at = from;
    // no plainer by an iterator: each field says where the next begins, and the first fault ends the walk
    while at < end {
        let f = field_in(s, at, end);
        let Field::Whole { tag, from: v, to } = f else {
            return None;
        };
        if tag != 8 {
            return None;
        }
        let l = approx_layout(s, bits, v, to, inline_max, block_max, depth)?;
        layout = append(layout, l);
        at = to;
    }
    Some(layout)
}

// The nodes of a stretch from `start` to `bound`, one after the other: each block is walked.
#[cycle(approx_flex_layout_approx_fragments_layout_approx_layout_approx_stretch_layout)]
fn approx_stretch_layout(
    s: &[u8],
    bits: &mut Marks,
    start: usize,
    bound: usize,
    end: usize,
    inline_max: u16,
    block_max: u16,
    so_far: ApproxLayout,
    depth: usize,
) -> Option<ApproxLayout>
    requires { Clear bits.old s.now start × (Between s.now 0 bound end × (Path (take end s.now) start bound × Open s.now end start bound)) }
    ensures { StretchWalked depth inline_max block_max start bound (shape so_far) s.now end bits.old result bits.new }
{
    let mut layout = so_far;
    let mut node = start;
    // as above
    while node < bound {
        let to = field_end_in(s, node, end);
        if !tables::is_block(s[node]) {
            node = to;
            continue;
        }
        let l = approx_flex_layout(s, bits, node, to, inline_max, block_max, layout, depth)?;
        layout = l;
        node = to;
    }
    Some(layout)
}

// The nodes of a fragment, from `from` to `end`, inside `depth` blocks, a stretch at a time.
#[cycle(approx_flex_layout_approx_fragments_layout_approx_layout_approx_stretch_layout)]
pub fn approx_layout(
    s: &[u8],
    bits: &mut Marks,
    from: usize,
    end: usize,
    inline_max: u16,
    block_max: u16,
    depth: usize,
) -> Option<ApproxLayout>
    requires { Clear bits.old s.now from × Between s.now 0 from end }
    ensures { FragmentWalked depth inline_max block_max from s.now end bits.old result bits.new }
{
    let mut layout = Inline {
        worst: 0,
        excess: 0,
    };
    let mut at = from;
    // a stretch says where the next begins, as a field does above
    while at < end {
        let st = ahead(s, at, end, layout)?;
        let l = approx_stretch_layout(
            s, bits, st.first, st.bound, end, inline_max, block_max, st.layout, depth,
        )?;
        layout = behind(l, st.last);
        at = st.stop;
    }
    Some(layout)
}
