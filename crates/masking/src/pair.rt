// A file and its mask, checked together with a place: the first file, the second, 12, 13.
ghost use Rattle.std.specs.Prelude.{◌≡◌, ◌≤◌, length};
ghost use Rattle.pairs.specs.Pair.{said, pair_answer};
ghost use Rattle.pairs.specs.Flat.{length_at_place, found_length};
ghost use Rattle.masking.specs.Answered.{flat_answer};

use crate::finding::find_text;
use crate::matching::difference;
use pairs::Refusal;
use verify::walk::check;

// The text at the place, or 13.
#[tactic(auto, using(crate::proofs::PairLaws::text_or_13))]
fn text_there(original: &[u8], place: usize) -> Result<usize, Refusal>
    ensures { said result ≡ found_length place (length_at_place original.now place) }
{
    find_text(original, place).ok_or(Refusal::NoText(place))
}

// Two files that are accepted: 12, then 13.
fn matched(original: &[u8], mask: &[u8], place: usize) -> Result<usize, Refusal>
    requires { length original.now ≤ 60_000 }
    ensures { said result ≡ flat_answer original.now mask.now place }
{
    let d = difference(original, mask);
    if d != mask.len() || d != original.len() {
        return Err(Refusal::NotMask(d));
    }
    text_there(original, place)
}

// Original and mask: the length of the text whose field stands at the place.
pub fn check_pair(original: &[u8], mask: &[u8], place: usize) -> Result<usize, Refusal>
    ensures { said result ≡ pair_answer original.now mask.now place }
{
    check(original)?;
    check(mask)?;
    matched(original, mask, place)
}
