// Widths in tenths of a column, which stop at 65,535, and what a laid out piece takes up: part of a line, or several lines.

#![tactic(auto)]

ghost use Rattle.std.specs.Prelude.{◌≡◌};
ghost use Rattle.rules.specs.Layout.{◌⊕◌};
ghost use Rattle.shapes.specs.Shapes.{shape};

// What a piece takes up. Part of a line: its width, and how much of that comes from texts that stand only in a block. Several lines: so much on the
// first, so much on the last.
#[derive(Debug, Clone, Copy, PartialEq, Eq)]
pub enum ApproxLayout {
    Inline { worst: u16, excess: u16 },
    BlockOrMixed { pre: u16, post: u16 },
}

use ApproxLayout::{BlockOrMixed, Inline};

// What two pieces take up, one after the other.
pub fn append(a: ApproxLayout, b: ApproxLayout) -> ApproxLayout
    ensures { shape result ≡ shape a ⊕ shape b }
{
    match (a, b) {
        (
            Inline { worst, excess },
            Inline {
                worst: w,
                excess: e,
            },
        ) => Inline {
            worst: worst.saturating_add(w),
            excess: excess.saturating_add(e),
        },
        (Inline { worst, .. }, BlockOrMixed { pre, post }) => BlockOrMixed {
            pre: worst.saturating_add(pre),
            post,
        },
        (BlockOrMixed { pre, post }, Inline { worst, .. }) => BlockOrMixed {
            pre,
            post: post.saturating_add(worst),
        },
        (BlockOrMixed { pre, .. }, BlockOrMixed { post, .. }) => BlockOrMixed { pre, post },
    }
}
