// Quick looks at a text that is as most are: ASCII, with its styles in order. `true` says that it is sound, and `false` nothing: the exact check follows.
// A tag stays a byte of the file (`verify::tables`).
ghost use Rattle.std.specs.Prelude.{◌≡◌, true, false, [], ℕ, ◌+◌, ◌<◌, ◌≤◌, length, get_or, IfSome};
ghost use Rattle.std.proofs.Math.Seq.{slice};
ghost use Rattle.rules.specs.Utf8.{utf8};
ghost use Rattle.rules.specs.Result.{accepted};
ghost use Rattle.rules.specs.Walk.{in_text, in_styles};
ghost use Rattle.looks.specs.Calm.{Says};
ghost use Rattle.verify.specs.Walked.{RestSaid, ValueSaid, Between};
ghost use Rattle.verify.specs.Glanced.{Stands, Passed, PassedRight, RightFrom};

use crate::content::NONE;
use crate::style::{right_opacity, right_size, word};
use looks::{calm, calm_ahead};
use utf8::all_bits;

// The place behind a field of the tag and of n bytes, where one stands at `at`.
fn behind(s: &[u8], at: usize, stop: usize, tag: u8, n: usize) -> Option<usize>
    requires { (at ≤ stop) × (stop < length s.now) × (n ≤ 4) }
    ensures { IfSome result (Passed s.now stop tag n at) }
{
    if s[at] == tag && 3 + n <= stop - at && s[at + 1] == 0 && usize::from(s[at + 2]) == n {
        return Some(at + 3 + n);
    }
    None
}

// The place behind an opacity, where a right one stands at `at`.
fn behind_opacity(s: &[u8], at: usize, stop: usize) -> Option<usize>
    requires { (at ≤ stop) × (stop < length s.now) }
    ensures { IfSome result (PassedRight s.now stop 33 at) }
{
    let to = behind(s, at, stop, 33, 4)?;
    if right_opacity(word(&s[at + 3..to])) {
        Some(to)
    } else {
        None
    }
}

// The place behind a size, where a right one stands at `at`.
fn behind_size(s: &[u8], at: usize, stop: usize) -> Option<usize>
    requires { (at ≤ stop) × (stop < length s.now) }
    ensures { IfSome result (PassedRight s.now stop 35 at) }
{
    let to = behind(s, at, stop, 35, 1)?;
    if right_size(usize::from(s[at + 3])) {
        Some(to)
    } else {
        None
    }
}

// What is left of a 16: a 38, a 39, both or nothing.
fn right_end(s: &[u8], at: usize, stop: usize) -> bool
    requires { (at ≤ stop) × (stop < length s.now) }
    ensures { Says result (RightFrom 37 s.now stop at) }
{
    let dim = behind(s, at, stop, 38, 0).unwrap_or(at);
    behind(s, dim, stop, 39, 0).unwrap_or(dim) == stop
}

// What is left of a 16: a script at most, and what may stand behind it.
fn right_scripts(s: &[u8], at: usize, stop: usize) -> bool
    requires { (at ≤ stop) × (stop < length s.now) }
    ensures { Says result (RightFrom 35 s.now stop at) }
{
    if let Some(below) = behind(s, at, stop, 36, 0) {
        return right_end(s, below, stop);
    }
    let above = behind(s, at, stop, 37, 0).unwrap_or(at);
    right_end(s, above, stop)
}

// What is left of a 16: a thickness, a size, and what may stand behind them.
fn right_sizes(s: &[u8], at: usize, stop: usize) -> bool
    requires { (at ≤ stop) × (stop < length s.now) }
    ensures { Says result (RightFrom 33 s.now stop at) }
{
    let thick = behind(s, at, stop, 34, 1).unwrap_or(at);
    let sized = behind_size(s, thick, stop).unwrap_or(thick);
    right_scripts(s, sized, stop)
}

// The fields of a 16. Most are a colour alone.
fn right_styles(s: &[u8], from: usize, stop: usize) -> bool
    requires { (from ≤ stop) × (stop < length s.now) }
    ensures { Says result ((d place : ℕ) → Between s.now place from stop → RestSaid false in_styles [] d 0 place from (slice from stop s.now) (accepted tt)) }
{
    let mut at = from;
    if let Some(coloured) = behind(s, from, stop, 32, 3) {
        if coloured == stop {
            return true;
        }
        at = behind_opacity(s, coloured, stop).unwrap_or(coloured);
    }
    right_sizes(s, at, stop)
}

// Whether a 17 stands at `at` and reaches `end`.
pub fn fills(s: &[u8], at: usize, end: usize) -> bool
    requires { (at ≤ end) × (end ≤ length s.now) }
    ensures { Says result (Stands s.now 17 at end) }
{
    3 <= end - at
        && s[at] == 17
        && usize::from(s[at + 1]) * 256 + usize::from(s[at + 2]) == end - at - 3
}

// Bytes that are ASCII.
fn is_ascii(s: &[u8], from: usize, to: usize) -> bool
    requires { (from ≤ to) × (to ≤ length s.now) }
    ensures { Says result (utf8 (slice from to s.now) ≡ true) }
{
    calm_ahead(s, from, to, NONE) || all_bits(&s[from..to]) < 128
}

// A text that begins with a 16 of at most 255 bytes.
fn is_plainly_styled(s: &[u8], from: usize, end: usize) -> bool
    requires { (from < end) × (end ≤ length s.now) × (get_or s.now from 0 ≡ 16) }
    ensures { Says result ((d place : ℕ) → Between s.now place from end → RestSaid false in_text [] d 0 place from (slice from end s.now) (accepted tt)) }
{
    // by returns: what follows has a name, which stands behind the test that makes it right
    if end - from < 6 || s[from + 1] != 0 {
        return false;
    }
    let n = usize::from(s[from + 2]);
    if end - from - 6 < n {
        return false;
    }
    let stop = from + 3 + n;
    right_styles(s, from + 3, stop) && fills(s, stop, end) && is_ascii(s, stop + 3, end)
}

// The same; in strict mode nothing is said. The mode is asked here: one more test before the last look would make that a call, since the compiler takes
// what stands behind many tests for rare.
pub fn is_styled(s: &[u8], from: usize, end: usize, strict: bool) -> bool
    requires { (from < end) × (end ≤ length s.now) × (get_or s.now from 0 ≡ 16) }
    ensures { Says result ((d place : ℕ) → Between s.now place from end → RestSaid strict in_text [] d 0 place from (slice from end s.now) (accepted tt)) }
{
    !strict && is_plainly_styled(s, from, end)
}

// A 7, or a text of one 17, of few bytes in ASCII. The node of the tag stands from `at` to `to`. In strict mode nothing is said.
pub fn is_quick(s: &[u8], at: usize, to: usize, tag: u8, strict: bool) -> bool
    requires { Between s.now at (at + 3) to }
    ensures { Says result ((d : ℕ) → ValueSaid strict tag d at (slice (at + 3) to s.now) (accepted tt)) }
{
    if strict {
        return false;
    }
    let from = at + 3;
    match tag {
        7 => calm(s, from, to, NONE),
        1 => fills(s, from, to) && calm(s, from + 3, to, NONE),
        _ => false,
    }
}
