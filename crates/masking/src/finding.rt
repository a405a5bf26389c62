// The text whose field stands at a place.
// A tag stays a byte of the file (`verify::tables`).
ghost use Rattle.std.specs.Prelude.{◌≡◌, ◌&&◌, eqb};
ghost use Rattle.rules.specs.Walk.{is_text};
ghost use Rattle.pairs.specs.Flat.{length_at_place};
ghost use Rattle.masking.specs.Finding.{found};

use crate::tags::{is_text, next_place};
use fields::{Field, field_in};

// Whether it is a text, and stands at the place that is asked for.
fn is_asked(tag: u8, at: usize, place: usize) -> bool
    ensures { result ≡ (is_text tag && eqb at place) }
{
    is_text(tag) && at == place
}

// The text's length, or that none stands there: field by field, up to the one that is asked for.
pub fn find_text(file: &[u8], place: usize) -> Option<usize>
    ensures { found result ≡ length_at_place file.now place }
{
    let mut at = 0;
    // No `for`: the next field stands where this one says.
    while at < file.len() {
        let f = field_in(file, at, file.len());
        let Field::Whole { tag, from, to } = f else {
            return None;
        };
        if is_asked(tag, at, place) {
            return Some(to - from);
        }
        at = next_place(tag, from, to);
    }
    None
}
