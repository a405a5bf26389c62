// Printing a file at a width in one call. The first walk checks the file and lays it out beside it, and the page is written as the marks show it; the file is only read.

#![tactic(auto)]

ghost use Rattle.std.specs.Prelude.{◌≡◌};
ghost use Rattle.rules.specs.Result.{said};
ghost use Rattle.rules.specs.Prints.{print_outcome};

use laying::marks::WORDS;
use laying::whole::first_walk;
use pages::frame::Kind;
use pages::whole::render_shown;
use rules::{MOST_BYTES, MOST_COLUMNS, Refusal};
use verify::walk::check;

// Answers the page's length, and writes the plain page of the file laid out at the width from the page's start; a refusal changes no byte.
pub fn print_at(file: &[u8], width: usize, page: &mut [u8]) -> Result<usize, Refusal>
    ensures { (said result, page.new) ≡ print_outcome width file.now page.old }
{
    if MOST_BYTES < file.len() {
        return Err(Refusal::TooLong);
    }
    if MOST_COLUMNS < width {
        return Err(Refusal::TooWide);
    }
    // fixed memory: there is no heap
    let mut bits = [0u64; WORDS];
    if first_walk(file, width, &mut bits).is_none() {
        return check(file);
    }
    render_shown(Kind::Plain, file, &bits, page)
}
