// An answer in document 01's words: a refusal's number and place, and the one number that says an answer to a caller in C.

#![tactic(auto)]

ghost use Rattle.std.specs.Prelude.{◌≡◌, ℕ, ◌<◌, ◌^◌};
ghost use Rattle.rules.specs.Result.{refused, refusal};
ghost use Rattle.rules.specs.Answers.{coded};
ghost use Rattle.answers.specs.ByNumber.{said};

use rules::Refusal;
use std::fmt;

// The number is what the programs print and what C gets (include/hazomeny.h).
#[derive(Debug, Clone, Copy, PartialEq, Eq)]
pub struct Numbered {
    pub number: u64,
    pub place: usize,
}

impl From<Refusal> for Numbered {
    ghost from_gives = { λ r n. refusal {A = ℕ} r ≡ refused n.number n.place };

    #[tactic(auto, unfolding(rules::specs::Result::refusal))]
    fn from(r: Refusal) -> Numbered {
        let (number, place) = match r {
            Refusal::TooLong => (1, 0),
            Refusal::TooWide => (2, 0),
            Refusal::Cut(p) => (3, p),
            Refusal::WrongTag(p) => (4, p),
            Refusal::WrongLength(p) => (5, p),
            Refusal::TooDeep(p) => (6, p),
            Refusal::NotUtf8(p) => (7, p),
            Refusal::BadStyle(p) => (8, p),
            Refusal::QuoteInAnchor(p) => (9, p),
            Refusal::PageTooShort(needed) => (10, needed),
            Refusal::NulInText(p) => (14, p),
        };
        Numbered { number, place }
    }
}

impl fmt::Display for Numbered {
    fn fmt<W: fmt::Write>(&self, f: &mut fmt::Formatter<W>) -> fmt::Result {
        write!(f, "refused {} at {}", self.number, self.place)
    }
}

// 256 times the count or the place, and the refusal's number, which is 0 where the answer is no refusal: whatever the number and the place.
#[tactic(auto, unfolding(rules::specs::Answers::coded, crate::specs::ByNumber::said))]
pub fn in_one(a: Result<usize, Numbered>) -> u64
    requires { coded (said a) < 2 ^ 64 }
    ensures { result ≡ coded (said a) }
{
    match a {
        Ok(n) => (n as u64) * 256,
        Err(t) => (t.place as u64) * 256 + t.number,
    }
}
