// One house field at a place of a slice: a tag byte, a two-byte length, high byte first, then the value.

#![tactic(auto)]

ghost use Rattle.std.specs.Prelude.{◌≡◌, ◌<◌, ◌≤◌, length, take};
ghost use Rattle.fields.specs.FieldAt.{field_at};

pub mod parts;

// An enum, which callers open by `let .. else`: document 01's form.
#[derive(Debug, Clone, Copy, PartialEq, Eq)]
pub enum Field {
    // the whole field is there: its value stands from `from` to `to`, and its tag is a byte of the file, any of the 256
    Whole { tag: u8, from: usize, to: usize },
    // its three bytes are there, and its length passes the end
    Past(u8),
    // under three bytes are left
    Cut,
}

// The field at `at`, of what ends at `end`. A place inside the bytes costs less to hand on than a slice of them.
#[tactic(auto, using(crate::proofs::Laws::cut_in, crate::proofs::Laws::past_in))]
pub fn field_in(s: &[u8], at: usize, end: usize) -> Field
    requires { (at ≤ end) × (end ≤ length s.now) }
    ensures { result ≡ field_at (take end s.now) at }
{
    if end - at < 3 {
        return Field::Cut;
    }
    let from = at + 3;
    let n = usize::from(u16::from_be_bytes([s[at + 1], s[at + 2]]));
    if n <= end - from {
        return Field::Whole {
            tag: s[at],
            from,
            to: from + n,
        };
    }
    Field::Past(s[at])
}

#[tactic(auto, using(crate::proofs::Laws::cut, crate::proofs::Laws::at_the_end))]
pub fn field_at(s: &[u8], at: usize) -> Field
    ensures { result ≡ field_at s.now at }
{
    if s.len() < at {
        return Field::Cut;
    }
    field_in(s, at, s.len())
}
