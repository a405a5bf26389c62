// The table of fields: which tags are allowed where, and fixed lengths. A tag is a byte of the file and stays one: any of the 256 may stand there, and the rules'
// `allowed` and the contracts here speak of every one.
ghost use Rattle.std.specs.Prelude.{◌≡◌, ◌≤◌};
ghost use Rattle.rules.specs.Limits.{first_style, last_style};
ghost use Rattle.rules.specs.Walk.{allowed, right_length, is_block, in_fragment, in_anchor, in_styles};

use rules::{FIRST_STYLE, LAST_STYLE};

// A block, whose depth counts.
#[tactic(auto, unfolding(rules::specs::Walk::is_block))]
pub fn is_block(tag: u8) -> bool
    ensures { result ≡ is_block tag }
{
    matches!(tag, 3 | 4)
}

// Of a fragment: 1 to 7, after any.
#[tactic(auto, unfolding(rules::specs::Walk::allowed_to))]
pub fn in_fragment(tag: u8) -> bool
    ensures { result ≡ allowed in_fragment 0 tag }
{
    (1..=7).contains(&tag)
}

// Of an anchor, first: its name.
#[tactic(auto, unfolding(rules::specs::Walk::allowed_to))]
pub fn is_name(tag: u8) -> bool
    ensures { result ≡ allowed in_anchor 0 tag }
{
    matches!(tag, 18 | 19)
}

// Of a 16: the style's tags, rising.
#[tactic(auto, unfolding(rules::specs::Walk::allowed_to))]
pub fn in_styles(before: u8, tag: u8) -> bool
    ensures { result ≡ allowed in_styles before tag }
{
    (FIRST_STYLE..=LAST_STYLE).contains(&tag) && before < tag
}

// The length that a style's field has.
#[tactic(auto, unfolding(rules::specs::Walk::right_length))]
pub fn right_style_length(tag: u8, n: usize) -> bool
    requires { (first_style ≤ tag) × (tag ≤ last_style) }
    ensures { result ≡ right_length tag n }
{
    match tag {
        32 => n == 3,
        33 => n == 4,
        34 | 35 => n == 1,
        _ => n == 0,
    }
}
