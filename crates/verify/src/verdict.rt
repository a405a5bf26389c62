// What a check of a part of a file says, in one number: 0 where all is sound, else 256 times the place of the first fault, and its number. Tried:
// `Result<(), Refusal>` and `?` prove, but go through memory at each field. The check takes up to 10 % more instructions, and HTML of small nodes of 10 KB falls to 3.4 times
// as fast as the Rust, under its goal of 3.5, which this form meets (docs/SPEED.md).
ghost use Rattle.std.specs.Prelude.{◌≡◌, ◌<◌, ◌^◌};
ghost use Rattle.rules.specs.Result.{refused};
ghost use Rattle.verify.specs.Said.{verdict, both_said};

pub type Verdict = usize;

pub const SOUND: Verdict = 0;

#[tactic(auto, using(crate::proofs::SaidLaws::fault_said))]
pub fn fault(number: usize, place: usize) -> Verdict
    requires { (0 < number) × ((number < 256) × (place < 2 ^ 48)) }
    ensures { verdict result ≡ refused number place }
{
    place * 256 + number
}

// Two checks, one after the other: the second answers where the first finds nothing.
#[tactic(auto, using(crate::proofs::SaidLaws::sound_first, crate::proofs::SaidLaws::faulty_first))]
pub fn in_turn(first: Verdict, second: Verdict) -> Verdict
    ensures { verdict result ≡ both_said (verdict first) (verdict second) }
{
    if first == SOUND { second } else { first }
}
