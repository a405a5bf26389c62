// Where a field should stand and none does.
ghost use Rattle.std.specs.Prelude.{◌≡◌, ◌+◌, ◌<◌, ◌≤◌, ◌^◌, leb};
ghost use Rattle.verify.specs.Said.{verdict};
ghost use Rattle.verify.specs.Fronts.{no_field};

use crate::verdict::{Verdict, fault};

// What is wrong at `at`, where no whole field stands before `end`: under three bytes are left, or else the tag is wrong, or the length passes the end.
#[tactic(auto, using(crate::proofs::FrontLaws::no_three, crate::proofs::FrontLaws::past_end, crate::proofs::FrontLaws::wrong_tag))]
pub fn no_field(at: usize, end: usize, right: bool) -> Verdict
    requires { (at ≤ end) × (end < 2 ^ 48) }
    ensures { verdict result ≡ no_field (leb (at + 3) end) right at }
{
    // Two tests: with `||` the file check takes 1.2 % more instructions on `samples/call.fragment`.
    if end - at < 3 {
        return fault(3, at);
    }
    if right {
        return fault(3, at);
    }
    fault(4, at)
}
