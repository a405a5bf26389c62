// The bytes of texts and of anchors' names.
ghost use Rattle.std.specs.Prelude.{◌≡◌, not, ◌≤◌, length};
ghost use Rattle.std.proofs.Math.Seq.{slice};
ghost use Rattle.rules.specs.Bytes.{has};
ghost use Rattle.rules.specs.Result.{need, sound};
ghost use Rattle.rules.specs.Walk.{text_content, anchor_content, content_in};
ghost use Rattle.looks.specs.Calm.{Calm, Says};
ghost use Rattle.verify.specs.Said.{verdict};
ghost use Rattle.verify.specs.Walked.{Between};

use crate::verdict::{SOUND, Verdict, fault, in_turn};
use looks::calm;
use utf8::{Utf8, check_utf8, has_byte};

// No byte of ASCII is this one; the contract of `calm` asks for a byte.
pub const NONE: u8 = 255;

// A text's bytes are UTF-8. Most are short and ASCII, which a quick look finds.
fn check_bytes(s: &[u8], from: usize, to: usize, place: usize) -> Verdict
    requires { Between s.now place from to }
    ensures { verdict result ≡ sound (text_content (slice from to s.now)) place }
{
    if calm(s, from, to, NONE) {
        return SOUND;
    }
    let Utf8::Sound = check_utf8(&s[from..to]) else {
        return fault(7, place);
    };
    SOUND
}

// They have no NUL.
fn check_no_nul(s: &[u8], from: usize, to: usize, place: usize) -> Verdict
    requires { Between s.now place from to }
    ensures { verdict result ≡ need (not (has 0 (slice from to s.now))) 14 place }
{
    if has_byte(&s[from..to], 0) {
        return fault(14, place);
    }
    SOUND
}

// The bytes of a text whose field stands at `place`. In strict mode UTF-8 comes before the NUL.
pub fn check_text(s: &[u8], from: usize, to: usize, place: usize, strict: bool) -> Verdict
    requires { Between s.now place from to }
    ensures { verdict result ≡ sound (content_in strict 17 (slice from to s.now)) place }
{
    let bytes = check_bytes(s, from, to, place);
    if strict {
        let nul = check_no_nul(s, from, to, place);
        return in_turn(bytes, nul);
    }
    bytes
}

// A name of at most sixteen bytes: at once, or its beginning and its last eight.
fn is_calm_name(s: &[u8], from: usize, to: usize) -> bool
    requires { (from ≤ to) × (to ≤ length s.now) }
    ensures { Says result (Calm 34 s.now from to) }
{
    if to - from <= 8 {
        return calm(s, from, to, b'"');
    }
    let mid = to - 8;
    calm(s, from, mid, b'"') && calm(s, mid, to, b'"')
}

// An anchor's name. UTF-8 comes before the quote.
pub fn check_name(s: &[u8], from: usize, to: usize, place: usize) -> Verdict
    requires { Between s.now place from to }
    ensures { verdict result ≡ sound (anchor_content (slice from to s.now)) place }
{
    if is_calm_name(s, from, to) {
        return SOUND;
    }
    let v = &s[from..to];
    let Utf8::Sound = check_utf8(v) else {
        return fault(7, place);
    };
    if has_byte(v, b'"') {
        return fault(9, place);
    }
    SOUND
}
