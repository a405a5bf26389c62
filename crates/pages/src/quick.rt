// A short text of one line: where it begins, and that no newline is in it. On a plain page its bytes can then be written at once, for of the
// marks around it nothing shows there.
ghost use Rattle.std.specs.Prelude.{◌≡◌, true, IfSome, ◌-◌, ◌≤◌, length, take, drop};
ghost use Rattle.pages.specs.OneLines.{TextFrom, OneLine};

use fields::{Field, field_at};
use looks::lacks;

// Where the text of a run with the value v begins, if the text ends with v.
pub fn text_from(v: &[u8]) -> Option<usize>
    ensures { IfSome result (TextFrom v.now) }
{
    let Field::Whole { tag, from, to } = field_at(v, 0) else {
        return None;
    };
    if tag != 16 {
        return (to == v.len()).then_some(from);
    }
    let Field::Whole { from: f, to: e, .. } = field_at(v, to) else {
        return None;
    };
    (e == v.len()).then_some(f)
}

// Whether the bytes from..to are some, at most eight, and one line. `false` says nothing.
pub fn one_line(s: &[u8], from: usize, to: usize) -> bool
    requires { to ≤ length s.now }
    ensures { result ≡ true → OneLine (take (to - from) (drop from s.now)) }
{
    from < to && lacks(s, from, to, b'\n')
}

// The same of a longer text, by windows inside it, of which the last ends with it.
pub fn one_long_line(s: &[u8], from: usize, to: usize) -> bool
    requires { (from ≤ to) × (to ≤ length s.now) }
    ensures { result ≡ true → OneLine (take (to - from) (drop from s.now)) }
{
    if to - from < 8 {
        return false;
    }
    // by the windows' numbers: an iterator that steps by eight counts each byte between
    for n in 0..(to - from) / 8 {
        let at = from + 8 * n;
        if !lacks(s, at, at + 8, b'\n') {
            return false;
        }
    }
    lacks(s, to - 8, to, b'\n')
}
