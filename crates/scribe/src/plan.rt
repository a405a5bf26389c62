// What each step does where it is allowed: what it puts, closes and opens. A kind of what is open is a number and no enum: it is part of an unfinished header's
// byte (docs/FORMAT, "While fields are open"), and the contracts of `fragment_here`, `text_here` and `depth_in` speak of every number. A `match` over it or over the steps stays:
// each arm says something of its own, and a table of closures would be no plainer.
ghost use Rattle.std.specs.Prelude.{◌≡◌, ◌||◌, ◌≤◌, eqb};
ghost use Rattle.moves.specs.Plans.{plan, fragment_here, depth_in, puts, shuts, opens, begins, next_plan, end_space_plan, end_comma_plan};

use crate::opened::ROOT;
use moves::{Op, Piece, Plan};
use rules::MOST_BLOCKS;

// The code of an anchor.
pub const ANCHOR: u8 = 224;

// The root, a block's fragment or an entry is open.
#[tactic(auto, unfolding(moves::specs::Plans::fragment_here))]
pub fn fragment_here(kind: usize) -> bool
    ensures { result ≡ fragment_here kind }
{
    kind <= 2 || kind == 8
}

// A text may stand there: a fragment or an anchor is open.
pub fn text_here(kind: usize) -> bool
    ensures { result ≡ (fragment_here kind || eqb kind 7) }
{
    fragment_here(kind) || kind == 7
}

// A block of either kind is open, and no fragment in it.
pub fn block_here(kind: usize) -> bool
    ensures { result ≡ (eqb kind 3 || eqb kind 4) }
{
    kind == 3 || kind == 4
}

// The blocks around the fragment that is open.
#[tactic(auto, unfolding(moves::specs::Plans::depth_in))]
pub fn depth_in(code: usize) -> usize
    requires { code ≤ 256 }
    ensures { (result ≡ depth_in code) × (result ≤ 32) }
{
    if code == ROOT { 0 } else { code % 32 + 1 }
}

#[tactic(auto, unfolding(moves::specs::Plans::puts))]
fn puts(allowed: bool, before: Piece) -> Plan
    ensures { result ≡ puts allowed before }
{
    shuts(allowed, before, 0, Piece::Nothing)
}

#[tactic(auto, unfolding(moves::specs::Plans::shuts))]
fn shuts(allowed: bool, before: Piece, closes: usize, behind: Piece) -> Plan
    ensures { result ≡ shuts allowed before closes behind }
{
    Plan {
        allowed,
        before,
        closes,
        opens: None,
        too_deep: false,
        behind,
    }
}

#[tactic(auto, unfolding(moves::specs::Plans::opens, moves::specs::Plans::shuts))]
fn opens(allowed: bool, before: Piece, closes: usize, code: u8, behind: Piece) -> Plan
    ensures { result ≡ opens allowed before closes code behind }
{
    Plan {
        opens: Some(code),
        ..shuts(allowed, before, closes, behind)
    }
}

// A block of a kind, whose depth counts, behind what is put before it.
#[tactic(auto, unfolding(moves::specs::Plans::begins, moves::specs::Plans::opens))]
fn begins(allowed: bool, before: Piece, kind: usize, depth: usize) -> Plan
    requires { (kind ≤ 6) × (depth ≤ 32) }
    ensures { result ≡ begins allowed before kind depth }
{
    Plan {
        too_deep: MOST_BLOCKS <= depth,
        ..opens(
            allowed,
            before,
            0,
            (32 * kind + depth) as u8,
            Piece::Nothing,
        )
    }
}

// The next entry of the join that is open, or its first.
#[tactic(auto, unfolding(moves::specs::Plans::next_plan))]
fn next_plan(kind: usize, around: u8) -> Plan
    requires { around ≤ 31 }
    ensures { result ≡ next_plan kind around }
{
    match kind {
        1 => opens(true, Piece::Nothing, 1, 32 + around, Piece::Space),
        2 => opens(true, Piece::CommaSpace, 1, 64 + around, Piece::Nothing),
        5 => opens(true, Piece::Nothing, 0, 32 + around, Piece::Space),
        6 => opens(true, Piece::Nothing, 0, 64 + around, Piece::Nothing),
        _ => puts(false, Piece::Nothing),
    }
}

#[tactic(auto, unfolding(moves::specs::Plans::end_space_plan))]
fn end_space_plan(kind: usize) -> Plan
    ensures { result ≡ end_space_plan kind }
{
    match kind {
        1 => shuts(true, Piece::Nothing, 2, Piece::Nothing),
        5 => shuts(true, Piece::Nothing, 1, Piece::Nothing),
        _ => puts(false, Piece::Nothing),
    }
}

// Alike in shape with the plan above: its kinds and pieces as parameters would be no plainer.
#[tactic(auto, unfolding(moves::specs::Plans::end_comma_plan))]
fn end_comma_plan(kind: usize) -> Plan
    ensures { result ≡ end_comma_plan kind }
{
    match kind {
        2 => shuts(true, Piece::LastComma, 2, Piece::Run),
        6 => shuts(true, Piece::Nothing, 1, Piece::Run),
        _ => puts(false, Piece::Nothing),
    }
}

// What the step does where the code says what is open; `own` where the open fragment has a node of its own.
#[tactic(auto, unfolding(moves::specs::Plans::plan))]
pub fn plan_of(op: Op, code: usize, own: bool) -> Plan
    requires { code ≤ 256 }
    ensures { result ≡ plan op code own }
{
    let kind = code / 32;
    let around = (code % 32) as u8;
    let here = fragment_here(kind);
    let block = block_here(kind);
    let depth = depth_in(code);
    match op {
        Op::Text => puts(text_here(kind), Piece::Run),
        Op::Space => puts(here, Piece::Space),
        Op::Force => puts(here, Piece::Force),
        Op::Conditional => puts(here, Piece::Conditional),
        Op::OpenDefinition => opens(here, Piece::Nothing, 0, ANCHOR, Piece::Definition),
        Op::OpenUse => opens(here, Piece::Nothing, 0, ANCHOR, Piece::Use),
        Op::CloseAnchor => shuts(kind == 7, Piece::Nothing, 1, Piece::Nothing),
        Op::OpenIndented => begins(here, Piece::Nothing, 3, depth),
        Op::OpenFlexible => begins(here, Piece::Nothing, 4, depth),
        Op::CloseBlock => shuts(block, Piece::Nothing, 1, Piece::Nothing),
        Op::OpenFragment => opens(block, Piece::Nothing, 0, around, Piece::Nothing),
        Op::CloseFragment => shuts(kind == 0, Piece::Nothing, 1, Piece::Nothing),
        Op::BeginSpaceJoin => begins(here, Piece::Run, 5, depth),
        Op::BeginSpaceJoinBehind => begins(here && own, Piece::Nothing, 5, depth),
        Op::BeginCommaJoin => begins(here, Piece::Run, 6, depth),
        Op::BeginCommaJoinBehind => begins(here && own, Piece::Nothing, 6, depth),
        Op::NextEntry => next_plan(kind, around),
        Op::EndSpaceJoin => end_space_plan(kind),
        Op::EndCommaJoin => end_comma_plan(kind),
        Op::Finish => puts(kind == 8, Piece::Nothing),
    }
}
