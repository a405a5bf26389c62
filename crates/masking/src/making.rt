// The mask of a file in a lent buffer.
ghost use Rattle.std.specs.Prelude.{◌≡◌, ◌++◌, ◌+◌, ◌-◌, ◌≤◌, length, take, drop};
ghost use Rattle.rules.specs.Result.{said};
ghost use Rattle.writing.specs.Written.{Written};
ghost use Rattle.pairs.specs.Masking.{mask_outcome};
ghost use Rattle.masking.specs.Value.{veiled, mask_value, flat_mask};

use crate::tags::{is_text, masked, next_place};
use fields::{Field, field_in};
use rules::Refusal;
use verify::walk::check;
use writing::put_bytes;

// The mask of a text over a slice of its length. No byte is tested against the slice's end, so that the compiler takes many at once.
#[tactic(auto, using(crate::proofs::VeilLaws::none_veiled, crate::proofs::VeilLaws::all_veiled, crate::proofs::VeilLaws::as_long))]
fn veil(to: &mut [u8], s: &[u8])
    requires { length to.old ≡ length s.now }
    ensures { to.new ≡ veiled s.now }
{
    for i in 0..s.len() {
        to[i] = masked(s[i]);
    }
}

#[tactic(auto, using(crate::proofs::VeilLaws::put_veil))]
fn put_masked(page: &mut [u8], at: usize, v: &[u8]) -> usize
    requires { at + length v.now ≤ length page.old }
    ensures { Written page.old at (veiled v.now) page.new result }
{
    veil(&mut page[at..at + v.len()], v);
    at + v.len()
}

// A value as it stands in the mask.
#[tactic(auto, unfolding(crate::specs::Value::mask_value))]
fn put_value(page: &mut [u8], at: usize, text: bool, v: &[u8]) -> usize
    requires { at + length v.now ≤ length page.old }
    ensures { Written page.old at (mask_value text v.now) page.new result }
{
    if text {
        return put_masked(page, at, v);
    }
    put_bytes(page, at, v)
}

// A field's three bytes, and what stands behind them up to the next field.
#[tactic(auto, using(crate::proofs::GoingLaws::value_fits))]
fn put_field(page: &mut [u8], file: &[u8], at: usize, next: usize, text: bool) -> usize
    requires { (at + 3 ≤ next) × (next ≤ length file.now) × (length file.now ≤ length page.old) }
    ensures { Written page.old at (take 3 (drop at file.now) ++ mask_value text (take (next - (at + 3)) (drop (at + 3) file.now))) page.new result }
{
    let from = at + 3;
    let value = put_bytes(page, at, &file[at..from]);
    put_value(page, value, text, &file[from..next])
}

// All fields of the file, one after the other, each to the place where it stands in the file.
fn put_mask(page: &mut [u8], file: &[u8]) -> usize
    requires { length file.now ≤ length page.old }
    ensures { Written page.old 0 (flat_mask file.now) page.new result }
{
    let mut at = 0;
    // No `for`: the next field stands where this one says.
    while at < file.len() {
        let f = field_in(file, at, file.len());
        let Field::Whole { tag, from, to } = f else {
            return at;
        };
        let next = next_place(tag, from, to);
        at = put_field(page, file, at, next, is_text(tag));
    }
    at
}

// The mask of a file: accepted with its length, which is the file's; a buffer that is too short is refused with the bytes needed. A refusal changes no byte.
pub fn mask_into(file: &[u8], page: &mut [u8]) -> Result<usize, Refusal>
    ensures { (said result, page.new) ≡ mask_outcome file.now page.old }
{
    check(file)?;
    if page.len() < file.len() {
        return Err(Refusal::PageTooShort(file.len()));
    }
    put_mask(page, file);
    Ok(file.len())
}
