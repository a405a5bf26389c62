// The text of a pair, for a reader with the right to names or without it.
ghost use Rattle.std.specs.Prelude.{◌≡◌};
ghost use Rattle.pairs.specs.Pair.{given_text};

use crate::pair::check_pair;

// A part of the original or of its mask, and no copy: the value of the 17 or 7 at the place; empty where the pair's check refuses.
pub fn text_part<'a>(original: &'a [u8], mask: &'a [u8], place: usize, names: bool) -> &'a [u8]
    ensures { result.now ≡ given_text original.now mask.now place names }
{
    let Ok(n) = check_pair(original, mask, place) else {
        return &original[0..0];
    };
    let from = place + 3;
    if names {
        return &original[from..from + n];
    }
    &mask[from..from + n]
}
