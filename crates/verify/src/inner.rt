// What holds no blocks: the fields of a 16, of a text and of an anchor. They stand from `from` to `end`, and the field that holds them at `place`.
// In strict mode a text has no NUL. Each kind of value has a function of its own (document 01's form); a loop moves by the length that the bytes say.
// The slice, its two places and the holder's stay apart: the contracts of `check_text_fields` and its like are over them (docs/CONTRACTS.md).
ghost use Rattle.std.specs.Prelude.{◌≡◌, Bool, List, [], ℕ, ◌<◌, get_or};
ghost use Rattle.std.proofs.Math.Seq.{slice};
ghost use Rattle.rules.specs.Walk.{in_text, in_anchor, in_styles};
ghost use Rattle.verify.specs.Said.{verdict};
ghost use Rattle.verify.specs.Walked.{RestSaid, Between, TextLeft, Named};

use crate::content::{check_name, check_text};
use crate::front::no_field;
use crate::glance::is_styled;
use crate::seen::{Seen, complete_styles};
use crate::style::{check_style, told};
use crate::tables::{in_styles, is_name};
use crate::verdict::{SOUND, Verdict, fault};
use fields::{Field, field_in};

// The fields of a 16.
fn check_styles(s: &[u8], from: usize, end: usize, place: usize) -> Verdict
    requires { Between s.now place from end }
    ensures { (strict : Bool) (d : ℕ) → RestSaid strict in_styles [] d 0 place from (slice from end s.now) (verdict result) }
{
    let mut at = from;
    let mut seen = Seen::nothing();
    while at < end {
        let f = field_in(s, at, end);
        let Field::Whole { tag, from: v, to } = f else {
            return no_field(at, end, in_styles(seen.before, s[at]));
        };
        if !in_styles(seen.before, tag) {
            return fault(4, at);
        }
        let c = check_style(&s[v..to], tag);
        let Ok(()) = c else {
            return told(c, at);
        };
        seen = seen.with(tag);
        at = to;
    }
    complete_styles(seen, place)
}

// The 17 of a text, which is next or missing, and nothing behind it.
fn check_last(s: &[u8], at: usize, end: usize, place: usize, strict: bool) -> Verdict
    requires { Between s.now place at end }
    ensures { (d before : ℕ) (ts : List ℕ) → TextLeft before ts s.now at end → RestSaid strict in_text ts d before place at (slice at end s.now) (verdict result) }
{
    if at == end {
        return fault(5, place);
    }
    let f = field_in(s, at, end);
    let Field::Whole { tag, from: v, to } = f else {
        return no_field(at, end, s[at] == 17);
    };
    if tag != 17 {
        return fault(4, at);
    }
    let said = check_text(s, v, to, at, strict);
    if said != SOUND {
        return said;
    }
    if to == end {
        return SOUND;
    }
    no_field(to, end, false)
}

// A text that begins with a 16.
fn check_styled(s: &[u8], from: usize, end: usize, place: usize, strict: bool) -> Verdict
    requires { Between s.now place from end × ((from < end) × (get_or s.now from 0 ≡ 16)) }
    ensures { (d : ℕ) → RestSaid strict in_text [] d 0 place from (slice from end s.now) (verdict result) }
{
    let f = field_in(s, from, end);
    let Field::Whole { tag, from: v, to } = f else {
        return no_field(from, end, true);
    };
    let said = check_styles(s, v, to, from);
    if said != SOUND {
        return said;
    }
    check_last(s, to, end, place, strict)
}

// The fields of a text: an optional 16, then one 17.
pub fn check_text_fields(s: &[u8], from: usize, end: usize, place: usize, strict: bool) -> Verdict
    requires { Between s.now place from end }
    ensures { (d : ℕ) → RestSaid strict in_text [] d 0 place from (slice from end s.now) (verdict result) }
{
    if from < end && s[from] == 16 {
        if is_styled(s, from, end, strict) {
            return SOUND;
        }
        return check_styled(s, from, end, place, strict);
    }
    check_last(s, from, end, place, strict)
}

// The texts of an anchor, behind its name.
fn check_runs(s: &[u8], from: usize, end: usize, place: usize, strict: bool) -> Verdict
    requires { Between s.now place from end }
    ensures { (d before : ℕ) (ts : List ℕ) → Named before ts → RestSaid strict in_anchor ts d before place from (slice from end s.now) (verdict result) }
{
    let mut at = from;
    while at < end {
        let f = field_in(s, at, end);
        let Field::Whole { tag, from: v, to } = f else {
            return no_field(at, end, s[at] == 1);
        };
        if tag != 1 {
            return fault(4, at);
        }
        let said = check_text_fields(s, v, to, at, strict);
        if said != SOUND {
            return said;
        }
        at = to;
    }
    SOUND
}

// The fields of an anchor: its name, then texts.
pub fn check_anchor_fields(s: &[u8], from: usize, end: usize, place: usize, strict: bool) -> Verdict
    requires { Between s.now place from end }
    ensures { (d : ℕ) → RestSaid strict in_anchor [] d 0 place from (slice from end s.now) (verdict result) }
{
    if from == end {
        return fault(5, place);
    }
    let f = field_in(s, from, end);
    let Field::Whole { tag, from: v, to } = f else {
        return no_field(from, end, is_name(s[from]));
    };
    if !is_name(tag) {
        return fault(4, from);
    }
    let said = check_name(s, v, to, from);
    if said != SOUND {
        return said;
    }
    check_runs(s, to, end, place, strict)
}
