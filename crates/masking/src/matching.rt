// Where a second file first differs from the mask of a first. No mask is built.
ghost use Rattle.std.specs.Prelude.{◌≡◌, ◌+◌, ◌≤◌, min, length};
ghost use Rattle.rules.specs.Mask.{newlines, mask_byte, mask_bytes};
ghost use Rattle.pairs.specs.Pair.{first_difference};
ghost use Rattle.pairs.specs.Flat.{flags};
ghost use Rattle.masking.specs.Off.{Off, OffField};

use crate::tags::{is_text, masked, next_place};
use fields::{Field, field_in};

// A byte as it stands in the mask.
#[tactic(auto, unfolding(rules::specs::Mask::mask_byte))]
fn shown(b: u8, text: bool) -> u8
    ensures { result ≡ mask_byte newlines text b }
{
    if text {
        return masked(b);
    }
    b
}

// The first place from `from` on at which the second file is not the mask of the first, all bytes in texts or none; or `to`.
#[tactic(auto, using(crate::proofs::MatchLaws::none_same, crate::proofs::MatchLaws::one_same, crate::proofs::MatchLaws::off_here, crate::proofs::MatchLaws::off_nowhere))]
fn first_off(o: &[u8], m: &[u8], from: usize, to: usize, text: bool) -> usize
    requires { (from ≤ to) × (to ≤ length o.now) × (to ≤ length m.now) }
    ensures { Off o.now m.now text from to result }
{
    for i in from..to {
        if m[i] != shown(o[i], text) {
            return i;
        }
    }
    to
}

// The same of a field's three bytes and of what stands behind them, up to `end`.
#[tactic(auto, using(crate::proofs::MatchLaws::off_behind_header))]
fn off_in_field(o: &[u8], m: &[u8], at: usize, end: usize, text: bool) -> usize
    requires { (at ≤ end) × (end ≤ length o.now) × (end ≤ length m.now) × (at + 3 ≤ 100_000) }
    ensures { OffField o.now m.now text at end result }
{
    let from = (at + 3).min(end);
    let r = first_off(o, m, at, from, false);
    if r < from {
        return r;
    }
    first_off(o, m, from, end, text)
}

// Field by field of the first file.
pub fn difference(o: &[u8], m: &[u8]) -> usize
    requires { length o.now ≤ 60_000 }
    ensures { result ≡ first_difference m.now (mask_bytes newlines (flags o.now) o.now) }
{
    let n = o.len().min(m.len());
    let mut at = 0;
    // No `for`: the next field stands where this one says.
    while at < n {
        let f = field_in(o, at, o.len());
        let Field::Whole { tag, from, to } = f else {
            return first_off(o, m, at, n, false);
        };
        let end = next_place(tag, from, to).min(n);
        let r = off_in_field(o, m, at, end, is_text(tag));
        if r < end {
            return r;
        }
        at = end;
    }
    at
}
