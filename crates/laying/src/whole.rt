// Layout of a whole file at a width: the first walk, which marks what changes, then the marks.
ghost use Rattle.std.specs.Prelude.{◌≡◌, ◌*◌, ◌≤◌, length};
ghost use Rattle.rules.specs.Limits.{most_bytes, most_columns};
ghost use Rattle.rules.specs.Result.{said};
ghost use Rattle.rules.specs.Answers.{layout_outcome};
ghost use Rattle.laying.specs.Beside.{Clear};
ghost use Rattle.laying.specs.Outcomes.{FirstWalk};

use crate::flex::approx_layout;
use crate::marks::{Marks, WORDS, show_all};
use rules::{MOST_BYTES, MOST_COLUMNS, Refusal};
use shapes::ApproxLayout;
use verify::walk::check;

// A width in tenths of a column.
fn tenths(width: usize) -> u16
    requires { width ≤ most_columns }
    ensures { result ≡ 10 * width }
{
    10 * (width as u16)
}

// Answers a layout where the file is accepted, with the marks of what its layout changes; else none, and the check then says exactly why.
pub fn first_walk(file: &[u8], width: usize, bits: &mut Marks) -> Option<ApproxLayout>
    requires { (length file.now ≤ most_bytes) × ((width ≤ most_columns) × Clear bits.old file.now 0) }
    ensures { FirstWalk width file.now result bits.new }
{
    let w = tenths(width);
    approx_layout(file, bits, 0, file.len(), w, w, 0)
}

// Answers how many tags changed; a refusal changes none.
pub fn layout_with_max_line_width(file: &mut [u8], width: usize) -> Result<usize, Refusal>
    ensures { (said result, file.new) ≡ layout_outcome width file.old }
{
    if MOST_BYTES < file.len() {
        return Err(Refusal::TooLong);
    }
    if MOST_COLUMNS < width {
        return Err(Refusal::TooWide);
    }
    // fixed memory: there is no heap
    let mut bits = [0u64; WORDS];
    if first_walk(file, width, &mut bits).is_none() {
        return check(file);
    }
    Ok(show_all(file, &bits))
}
