// A writer's step by numbers: what a caller in C gives, as the types of `moves`.
ghost use Rattle.std.specs.Prelude.{◌≡◌, ◌<◌, ◌^◌};
ghost use Rattle.scribe.specs.InC.{numbered, style_in};

use moves::{Op, Style};

// A number of the writer's state. Std has no `From` of it, and `try_from` has a refusal that never comes.
pub fn from_state(n: u32) -> usize
    ensures { (result ≡ n) × (result < 2 ^ 32) }
{
    n as usize
}

// The last step's number. C gives a step by its number.
pub const LAST_STEP: u8 = 19;

// The step of a number; a larger number is the last one's too. No `From` of `u8`: it may stand beside `Op` alone, in `moves`, and the numbers are C's.
#[tactic(auto, unfolding(crate::specs::InC::numbered, crate::specs::InC::steps_in_order))]
pub fn numbered(step: u8) -> Op
    ensures { result ≡ numbered step }
{
    match step {
        0 => Op::Text,
        1 => Op::Space,
        2 => Op::Force,
        3 => Op::Conditional,
        4 => Op::OpenDefinition,
        5 => Op::OpenUse,
        6 => Op::CloseAnchor,
        7 => Op::OpenIndented,
        8 => Op::OpenFlexible,
        9 => Op::CloseBlock,
        10 => Op::OpenFragment,
        11 => Op::CloseFragment,
        12 => Op::BeginSpaceJoin,
        13 => Op::BeginSpaceJoinBehind,
        14 => Op::BeginCommaJoin,
        15 => Op::BeginCommaJoinBehind,
        16 => Op::NextEntry,
        17 => Op::EndSpaceJoin,
        18 => Op::EndCommaJoin,
        _ => Op::Finish,
    }
}

// The style that 18 bytes say: a flag is set where its byte is not 0. No `From`, as above: `Style` stands in `moves`, and the bytes are C's.
#[tactic(auto, unfolding(crate::specs::InC::style_in))]
pub fn style_in(s: &[u8; 18]) -> Style
    ensures { result ≡ style_in s.now }
{
    let colour = [s[2], s[3], s[4]];
    let opacity = [s[6], s[7], s[8], s[9]];
    Style {
        styled: s[0] != 0,
        has_colour: s[1] != 0,
        colour,
        has_opacity: s[5] != 0,
        opacity,
        has_thickness: s[10] != 0,
        thickness: s[11],
        has_size: s[12] != 0,
        size: s[13],
        subscript: s[14] != 0,
        superscript: s[15] != 0,
        dim: s[16] != 0,
        underline: s[17] != 0,
    }
}
