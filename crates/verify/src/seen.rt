// The tags that a 16 has had so far: the last one, and those that matter at its end; and what is wrong there.
// A tag stays a byte of the file (`verify::tables`).
ghost use Rattle.std.specs.Prelude.{◌≡◌, ◌<◌, ◌^◌};
ghost use Rattle.rules.specs.Result.{sound};
ghost use Rattle.verify.specs.Said.{verdict};
ghost use Rattle.verify.specs.Seeing.{nothing_seen, seen_with, complete_seen};

use crate::verdict::{SOUND, Verdict, fault};

#[derive(Debug, Clone, Copy, PartialEq, Eq, Default)]
pub struct Seen {
    pub before: u8,
    pub colour: bool,
    pub opacity: bool,
    pub subscript: bool,
    pub superscript: bool,
}

impl Seen {
    #[tactic(auto, unfolding(crate::specs::Seeing::nothing_seen))]
    pub fn nothing() -> Self
        ensures { result ≡ nothing_seen }
    {
        Self::default()
    }

    #[tactic(auto, unfolding(crate::specs::Seeing::seen_with))]
    pub fn with(self, tag: u8) -> Self
        ensures { result ≡ seen_with self tag }
    {
        Self {
            before: tag,
            colour: self.colour || tag == 32,
            opacity: self.opacity || tag == 33,
            subscript: self.subscript || tag == 36,
            superscript: self.superscript || tag == 37,
        }
    }
}

// A 16 needs colour with opacity, and has one script at most.
#[tactic(auto, using(crate::proofs::SeenLaws::no_colour, crate::proofs::SeenLaws::two_scripts, crate::proofs::SeenLaws::whole_style), unfolding(crate::specs::Said::verdict))]
pub fn complete_styles(seen: Seen, place: usize) -> Verdict
    requires { place < 2 ^ 48 }
    ensures { verdict result ≡ sound (complete_seen seen) place }
{
    if (seen.opacity && !seen.colour) || (seen.subscript && seen.superscript) {
        return fault(8, place);
    }
    SOUND
}
