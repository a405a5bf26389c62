// Going over the fields of a part of a file: where the next one ends. Every part has a next end, also one whose bytes are no fields.
ghost use Rattle.std.specs.Prelude.{◌<◌, ◌≤◌, length, take};
ghost use Rattle.fields.specs.Walk.{Ends};

use crate::{Field, field_in};

// Where the field at `at` ends, of what ends at `end`; a field that is cut ends there too.
#[tactic(auto, using(crate::proofs::Spans::in_whole, crate::proofs::Spans::in_not_whole))]
pub fn field_end_in(s: &[u8], at: usize, end: usize) -> usize
    requires { (at < end) × (end ≤ length s.now) }
    ensures { Ends (take end s.now) at result }
{
    let Field::Whole { to, .. } = field_in(s, at, end) else {
        return end;
    };
    to
}

// The same of all of s.
#[tactic(auto, using(crate::proofs::Spans::ends_in_all))]
pub fn field_end(s: &[u8], at: usize) -> usize
    requires { at < length s.now }
    ensures { Ends s.now at result }
{
    field_end_in(s, at, s.len())
}
