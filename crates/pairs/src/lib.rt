// A file's mask, and a file and its mask together: refusals, definitions and theorems. The code is the crate `masking`.

#![tactic(auto)]

ghost use Rattle.std.specs.Prelude.{◌≡◌, ℕ};
ghost use Rattle.rules.specs.Result.{refused};
ghost use Rattle.pairs.specs.declared.Refusal.TheVariants.{File};
ghost use Rattle.pairs.specs.Pair.{refusal};

use answers::Numbered;

// Why a file and its mask are refused: a file's own refusal; 12, the second is not the mask of the first from a place on; 13, no text stands at the place.
#[derive(Debug, Clone, Copy, PartialEq, Eq)]
pub enum Refusal {
    File(rules::Refusal),
    NotMask(usize),
    NoText(usize),
}

impl From<rules::Refusal> for Refusal {
    ghost from_gives = { λ r e. e ≡ File r };

    fn from(r: rules::Refusal) -> Refusal {
        Refusal::File(r)
    }
}

impl From<Refusal> for Numbered {
    ghost from_gives = { λ r n. refusal {A = ℕ} r ≡ refused n.number n.place };

    #[tactic(auto, unfolding(crate::specs::Pair::refusal))]
    fn from(r: Refusal) -> Numbered {
        match r {
            Refusal::File(own) => Numbered::from(own),
            Refusal::NotMask(place) => Numbered { number: 12, place },
            Refusal::NoText(place) => Numbered { number: 13, place },
        }
    }
}
