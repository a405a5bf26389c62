// A node that is no block: its check, and its rigid layout.
// A tag stays a byte of the file (`verify::tables`).
ghost use Rattle.std.specs.Prelude.{◌≡◌, false, ℕ, ◌+◌, Some, IfSome};
ghost use Rattle.std.proofs.Math.Seq.{slice};
ghost use Rattle.verify.specs.Said.{verdict};
ghost use Rattle.verify.specs.Walked.{Between, Leaf, ValueSaid};
ghost use Rattle.laying.specs.Told.{Valued, LeafTold};

use looks::calm;
use rigid::{approx_rigid_layout, columns};
use shapes::ApproxLayout;
use shapes::ApproxLayout::{BlockOrMixed, Inline};
use verify::content::check_text;
use verify::glance::fills;
use verify::inner::{check_anchor_fields, check_text_fields};
use verify::verdict::{SOUND, Verdict};

// The width of a byte without a style.
const BYTE: u16 = 10;

// The check of a 1, a 2 or a 7. Tried: with `verify`'s `check_leaf` called from here it is no longer put in place there, and the file check runs 13 % more instructions for
// a code-like file, 26 % for many small nodes.
fn check_value(s: &[u8], at: usize, to: usize, tag: u8) -> Verdict
    requires { Leaf s.now tag at to × Valued tag }
    ensures { (d : ℕ) → ValueSaid false tag d at (slice (at + 3) to s.now) (verdict result) }
{
    let from = at + 3;
    if tag == 1 {
        return check_text_fields(s, from, to, at, false);
    }
    if tag == 2 {
        return check_anchor_fields(s, from, to, at, false);
    }
    check_text(s, from, to, at, false)
}

// Any of these, from `at` to `to`: the check, then the layout. Tried: `#[cold]` runs 5 % fewer instructions for empty texts, 12 % more for styled ones.
fn any_leaf(s: &[u8], at: usize, to: usize, tag: u8) -> Option<ApproxLayout>
    requires { Leaf s.now tag at to × Valued tag }
    ensures { LeafTold s.now tag at to result }
{
    if check_value(s, at, to, tag) != SOUND {
        return None;
    }
    Some(approx_rigid_layout(tag, s, at + 3, to))
}

// A text of one 17, of few bytes in ASCII and on one line. `None` says nothing.
fn quick_text(s: &[u8], at: usize, to: usize) -> Option<ApproxLayout>
    requires { Between s.now at (at + 3) to }
    ensures { IfSome result (λ own. LeafTold s.now 1 at to (Some own)) }
{
    let from = at + 3;
    let text = from + 3;
    if fills(s, from, to) && calm(s, text, to, b'\n') {
        return Some(Inline {
            worst: columns(to - text, BYTE),
            excess: 0,
        });
    }
    None
}

// A 7 of few bytes in ASCII and on one line. `None` says nothing.
fn quick_note(s: &[u8], at: usize, to: usize) -> Option<ApproxLayout>
    requires { Between s.now at (at + 3) to }
    ensures { IfSome result (λ own. LeafTold s.now 7 at to (Some own)) }
{
    let from = at + 3;
    if calm(s, from, to, b'\n') {
        let worst = columns(to - from, BYTE);
        return Some(Inline {
            worst,
            excess: worst,
        });
    }
    None
}

// A 5 or a 6.
fn empty_leaf(s: &[u8], at: usize, to: usize, tag: u8) -> Option<ApproxLayout>
    requires { Leaf s.now tag at to × ((tag ≡ 1 → ⊥) × ((tag ≡ 2 → ⊥) × (tag ≡ 7 → ⊥))) }
    ensures { LeafTold s.now tag at to result }
{
    if at + 3 != to {
        return None;
    }
    if tag == 5 {
        return Some(Inline {
            worst: BYTE,
            excess: 0,
        });
    }
    Some(BlockOrMixed { pre: 0, post: 0 })
}

// A 1, a 2 or a 7: quickly where it is plain.
fn valued_leaf(s: &[u8], at: usize, to: usize, tag: u8) -> Option<ApproxLayout>
    requires { Leaf s.now tag at to × Valued tag }
    ensures { LeafTold s.now tag at to result }
{
    if tag == 1 {
        if let Some(own) = quick_text(s, at, to) {
            return Some(own);
        }
        return any_leaf(s, at, to, tag);
    }
    if tag == 7 {
        if let Some(own) = quick_note(s, at, to) {
            return Some(own);
        }
    }
    any_leaf(s, at, to, tag)
}

// The node of the tag stands from `at` to `to`. A 5 and a 6 come first, and the others stand in a function of their own: those two need no room for what a call answers.
pub fn leaf(s: &[u8], at: usize, to: usize, tag: u8) -> Option<ApproxLayout>
    requires { Leaf s.now tag at to }
    ensures { LeafTold s.now tag at to result }
{
    if tag == 5 || tag == 6 {
        return empty_leaf(s, at, to, tag);
    }
    valued_leaf(s, at, to, tag)
}
