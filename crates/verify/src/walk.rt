// The walk: the fields of a fragment and of a block, from `from` to `end`, and the whole file.
// Each kind of value has a loop of its own (document 01's form): it moves by the length that the bytes say, and ends at a fault with its place.
// A tag stays a byte of the file (`verify::tables`).
ghost use Rattle.std.specs.Prelude.{◌≡◌, [], ℕ, ◌+◌};
ghost use Rattle.std.proofs.Math.Seq.{slice};
ghost use Rattle.rules.specs.Walk.{in_fragment, in_block};
ghost use Rattle.rules.specs.Answers.{check_answer, strict_check_answer};
ghost use Rattle.rules.specs.Result.{said, refusal, refused};
ghost use Rattle.rules.proofs.Refused.{StrictFault};
ghost use Rattle.verify.specs.Said.{verdict};
ghost use Rattle.verify.specs.Walked.{RestSaid, ValueSaid, Between, Node, Leaf, answer_in};

use crate::content::check_text;
use crate::front::no_field;
use crate::glance::is_quick;
use crate::inner::{check_anchor_fields, check_text_fields};
use crate::tables::{in_fragment, is_block};
use crate::verdict::{SOUND, Verdict, fault};
use fields::{Field, field_in};
use rules::{MOST_BLOCKS, MOST_BYTES, Refusal};

// The value of a node that is no block: the node stands from `at` to `to`.
fn check_leaf(s: &[u8], at: usize, to: usize, tag: u8, strict: bool) -> Verdict
    requires { Leaf s.now tag at to }
    ensures { (d : ℕ) → ValueSaid strict tag d at (slice (at + 3) to s.now) (verdict result) }
{
    let from = at + 3;
    if tag == 1 {
        return check_text_fields(s, from, to, at, strict);
    }
    if tag == 2 {
        return check_anchor_fields(s, from, to, at, strict);
    }
    if tag == 7 {
        return check_text(s, from, to, at, strict);
    }
    if from != to {
        return fault(5, at);
    }
    SOUND
}

// The value of a node, which stands from `at` to `to`, inside `depth` blocks.
#[cycle(check_block_check_fragment_check_node)]
fn check_node(s: &[u8], at: usize, to: usize, tag: u8, depth: usize, strict: bool) -> Verdict
    requires { Node s.now tag at to }
    ensures { ValueSaid strict tag depth at (slice (at + 3) to s.now) (verdict result) }
{
    if is_quick(s, at, to, tag, strict) {
        return SOUND;
    }
    if !is_block(tag) {
        return check_leaf(s, at, to, tag, strict);
    }
    if MOST_BLOCKS <= depth {
        return fault(6, at);
    }
    check_block(s, at + 3, to, depth + 1, strict)
}

// The nodes of a fragment, inside `depth` blocks.
#[cycle(check_block_check_fragment_check_node)]
fn check_fragment(s: &[u8], from: usize, end: usize, depth: usize, strict: bool) -> Verdict
    requires { Between s.now 0 from end }
    ensures { RestSaid strict in_fragment [] depth 0 0 from (slice from end s.now) (verdict result) }
{
    let mut at = from;
    while at < end {
        let f = field_in(s, at, end);
        let Field::Whole { tag, from: v, to } = f else {
            return no_field(at, end, in_fragment(s[at]));
        };
        if !in_fragment(tag) {
            return fault(4, at);
        }
        let said = check_node(s, at, to, tag, depth, strict);
        if said != SOUND {
            return said;
        }
        at = to;
    }
    SOUND
}

// The fragments of a block, inside `depth` blocks with it.
#[cycle(check_block_check_fragment_check_node)]
fn check_block(s: &[u8], from: usize, end: usize, depth: usize, strict: bool) -> Verdict
    requires { Between s.now 0 from end }
    ensures { RestSaid strict in_block [] depth 0 0 from (slice from end s.now) (verdict result) }
{
    let mut at = from;
    while at < end {
        let f = field_in(s, at, end);
        let Field::Whole { tag, from: v, to } = f else {
            return no_field(at, end, s[at] == 8);
        };
        if tag != 8 {
            return fault(4, at);
        }
        if v < to {
            let said = check_fragment(s, v, to, depth, strict);
            if said != SOUND {
                return said;
            }
        }
        at = to;
    }
    SOUND
}

// The refusal of the walk's number, in either mode, at a place. No `From`, since not every number is one.
#[tactic(auto, unfolding(rules::specs::Result::refusal))]
fn refused_by(number: usize, place: usize) -> Refusal
    requires { StrictFault number }
    ensures { refusal {A = ℕ} result ≡ refused number place }
{
    match number {
        3 => Refusal::Cut(place),
        4 => Refusal::WrongTag(place),
        5 => Refusal::WrongLength(place),
        6 => Refusal::TooDeep(place),
        7 => Refusal::NotUtf8(place),
        8 => Refusal::BadStyle(place),
        9 => Refusal::QuoteInAnchor(place),
        _ => Refusal::NulInText(place),
    }
}

// The file check in either mode: at most so many bytes, then the walk.
fn check_in(file: &[u8], strict: bool) -> Result<usize, Refusal>
    ensures { said result ≡ answer_in strict file.now }
{
    if MOST_BYTES < file.len() {
        return Err(Refusal::TooLong);
    }
    let said = check_fragment(file, 0, file.len(), 0, strict);
    if said == SOUND {
        return Ok(0);
    }
    Err(refused_by(said % 256, said / 256))
}

// The file check.
pub fn check(file: &[u8]) -> Result<usize, Refusal>
    ensures { said result ≡ check_answer file.now }
{
    check_in(file, false)
}

// The file check in strict mode, in which a text has no NUL.
pub fn check_strict(file: &[u8]) -> Result<usize, Refusal>
    ensures { said result ≡ strict_check_answer file.now }
{
    check_in(file, true)
}
