// A style's field: its fixed length, and what it says.
// A tag stays a byte of the file (`verify::tables`).
ghost use Rattle.std.specs.Prelude.{◌≡◌, ℕ, ◌<◌, ◌≤◌, ◌^◌, length};
ghost use Rattle.rules.specs.Limits.{first_style, last_style};
ghost use Rattle.rules.specs.Bytes.{number};
ghost use Rattle.rules.specs.Walk.{right_opacity, right_size};
ghost use Rattle.verify.specs.Said.{verdict, styled};
ghost use Rattle.verify.specs.Contents.{style_verdict};

use crate::tables::right_style_length;
use crate::verdict::{SOUND, Verdict, fault};

// Why a style's field is refused, wherever it stands.
#[derive(Debug, Clone, Copy, PartialEq, Eq)]
pub enum StyleFault {
    WrongLength,
    BadStyle,
}

// What is said of a style's field, handed on as a verdict on the field at `place`.
#[tactic(auto, unfolding(crate::specs::Said::verdict, crate::specs::Said::styled))]
pub fn told(c: Result<(), StyleFault>, place: usize) -> Verdict
    requires { place < 2 ^ 48 }
    ensures { verdict result ≡ styled c place }
{
    match c {
        Ok(()) => SOUND,
        Err(StyleFault::WrongLength) => fault(5, place),
        Err(StyleFault::BadStyle) => fault(8, place),
    }
}

// Four bytes as a number, high byte first. Public, so that it stays, over std's.
#[tactic(auto, using(rules::proofs::Lengths::number_four))]
pub fn word(v: &[u8]) -> usize
    requires { length v.now ≡ 4 }
    ensures { result ≡ number v.now }
{
    u32::from_be_bytes([v[0], v[1], v[2], v[3]]) as usize
}

// +0, or the bits of a float from 1/1024 to 1.
#[tactic(auto, unfolding(rules::specs::Walk::right_opacity))]
pub fn right_opacity(bits: usize) -> bool
    ensures { result ≡ right_opacity bits }
{
    bits == 0 || (0x3a80_0000..=0x3f80_0000).contains(&bits)
}

// A signed byte that is at most 117.
#[tactic(auto, unfolding(rules::specs::Walk::right_size))]
pub fn right_size(b: usize) -> bool
    ensures { result ≡ right_size b }
{
    b <= 117 || 128 <= b
}

// The value of a style's field of the tag.
pub fn check_style(v: &[u8], tag: u8) -> Result<(), StyleFault>
    requires { (first_style ≤ tag) × (tag ≤ last_style) }
    ensures { (p : ℕ) → styled result p ≡ style_verdict tag v.now p }
{
    if !right_style_length(tag, v.len()) {
        return Err(StyleFault::WrongLength);
    }
    let right = match tag {
        33 => right_opacity(word(v)),
        35 => right_size(usize::from(v[0])),
        _ => true,
    };
    if right {
        Ok(())
    } else {
        Err(StyleFault::BadStyle)
    }
}
