// A stretch of a fragment's nodes, up to the next rigid block: its leaves are checked and their rigid layouts appended; of its blocks only the headers
// are looked at. No `for`: a field ends where its own bytes say, and the next begins there.
// A tag stays a byte of the file (`verify::tables`).
ghost use Rattle.std.specs.Prelude.{◌≡◌, ℕ, ◌<◌, eqb, if◌then◌else◌, MatchOption};
ghost use Rattle.shapes.specs.Shapes.{shape};
ghost use Rattle.verify.specs.Walked.{Between, Node};
ghost use Rattle.layout.specs.LaidIn.{behind_in};
ghost use Rattle.laying.specs.Told.{Wrong, Rest, NodeTold, StretchTold};

use crate::leaves::leaf;
use fields::{Field, field_in};
use shapes::ApproxLayout::{BlockOrMixed, Inline};
use shapes::{ApproxLayout, append};
use verify::tables;

// What is laid out with the stretch's rigid layouts; where its first 3 or 4 stands and its last one ends, both where it begins without one; where the
// stretch ends, and the rigid layout of the block that ends it, or part of a line without one.
#[derive(Debug, Clone, Copy, PartialEq, Eq)]
pub struct Stretch {
    pub layout: ApproxLayout,
    pub first: usize,
    pub bound: usize,
    pub stop: usize,
    pub last: ApproxLayout,
}

// The first 3 or 4 of the stretch, at a later one: `at` where none was seen, since the last then ends where the first stands. Where the stretch begins
// would say the same, but the loop below has no register left for it.
fn first_of(first: usize, bound: usize, at: usize) -> usize
    ensures { result ≡ (if eqb bound first then at else first) }
{
    if bound == first {
        return at;
    }
    first
}

// A node of the tag, from `at` to `to`: of a block the rigid layout alone.
fn rigid_node(s: &[u8], at: usize, to: usize, tag: u8) -> Option<ApproxLayout>
    requires { Node s.now tag at to }
    ensures { NodeTold s.now tag at to result }
{
    if tag == 3 {
        return Some(BlockOrMixed { pre: 0, post: 0 });
    }
    if tag == 4 {
        return Some(Inline {
            worst: 0,
            excess: 0,
        });
    }
    leaf(s, at, to, tag)
}

// The stretch that begins at `from`, of a fragment that ends at `end`, after what is laid out so far; none where something is wrong.
pub fn ahead(s: &[u8], from: usize, end: usize, so_far: ApproxLayout) -> Option<Stretch>
    requires { (from < end) × Between s.now 0 from end }
    ensures { MatchOption result ((d : ℕ) → Wrong (Rest d s.now end from)) (λ st. StretchTold s.now end from (shape so_far) (shape st.layout) st.first st.bound st.stop (shape st.last)) }
{
    let mut layout = so_far;
    let mut start = from;
    let mut bound = from;
    let mut at = from;
    // no plainer by an iterator: each field says where the next begins, and the first fault ends the stretch
    while at < end {
        let f = field_in(s, at, end);
        let Field::Whole { tag, from: v, to } = f else {
            return None;
        };
        if !tables::in_fragment(tag) {
            return None;
        }
        let own = rigid_node(s, at, to, tag)?;
        if tables::is_block(tag) {
            start = first_of(start, bound, at);
            bound = to;
        }
        match own {
            BlockOrMixed { pre, .. } => {
                let before = Inline {
                    worst: pre,
                    excess: 0,
                };
                return Some(Stretch {
                    layout: append(layout, before),
                    first: start,
                    bound,
                    stop: to,
                    last: own,
                });
            }
            // built again in place of `own`, so that `append` does not ask a second time which of the two it is
            Inline { worst, excess } => {
                layout = append(layout, Inline { worst, excess });
            }
        }
        at = to;
    }
    Some(Stretch {
        layout,
        first: start,
        bound,
        stop: end,
        last: Inline {
            worst: 0,
            excess: 0,
        },
    })
}

// Behind a stretch that is laid out: its block is followed by what that has on its last line.
pub fn behind(laid: ApproxLayout, last: ApproxLayout) -> ApproxLayout
    ensures { shape result ≡ behind_in (shape last) (shape laid) }
{
    match last {
        Inline { .. } => laid,
        BlockOrMixed { post, .. } => append(laid, BlockOrMixed { pre: 0, post }),
    }
}
