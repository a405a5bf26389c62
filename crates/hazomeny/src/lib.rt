// The public entries: each is total and terminates, has no preconditions, and answers as document 01 says. The C names take slices and numbers
// and answer in one number (`coded` of rules); `hazomeny_c` exports them. The writer's entries in Rattle are `scribe::held`; here is its C name.

#![tactic(auto)]

ghost use Rattle.std.specs.Prelude.{◌≡◌};
ghost use Rattle.rules.specs.Result.{said};
ghost use Rattle.scribe.specs.InC.{write_in_c, Leaves};
ghost use Rattle.pairs.specs.Masking.{mask_outcome};
ghost use Rattle.pairs.specs.Pair as pairs;
ghost use Rattle.pairs.specs.Pair.{pair_answer, given_text};
ghost use Rattle.rules.specs.Prints.{print_outcome};
ghost use Rattle.rules.specs.Answers.{check_answer, layout_outcome, plain_outcome, body_outcome, document_outcome, strict_check_answer, strict_body_outcome, strict_document_outcome, coded, coded_outcome};

use answers::{Numbered, in_one};
use laying::whole::layout_with_max_line_width;
use masking::making::mask_into;
use masking::pair::check_pair;
use masking::reading::text_part;
use pages::frame::Kind;
use pages::whole::render_page;
use prints::print_at;
use quick::steps::{LAST_QUICK, quick_step};
use rules::Refusal;
use scribe::numbers::{LAST_STEP, from_state, numbered, style_in};
use scribe::stepping::step_near;
use verify::walk::{check, check_strict};

// The file check: accepted with 0, or the first fault's number and place.
pub fn check_file(file: &[u8]) -> Result<usize, Refusal>
    ensures { said result ≡ check_answer file.now }
{
    check(file)
}

pub fn hazomeny_check(file: &[u8]) -> u64
    ensures { result ≡ coded (check_answer file.now) }
{
    in_one(check_file(file).map_err(Numbered::from))
}

// The file check for strict HTML: a NUL in a text is refused too, by 14.
pub fn check_file_strict(file: &[u8]) -> Result<usize, Refusal>
    ensures { said result ≡ strict_check_answer file.now }
{
    check_strict(file)
}

pub fn hazomeny_check_strict(file: &[u8]) -> u64
    ensures { result ≡ coded (strict_check_answer file.now) }
{
    in_one(check_file_strict(file).map_err(Numbered::from))
}

// Layout in place, at a width in columns: accepted with the number of tags that changed from 4 to 3; a refusal changes no byte.
pub fn layout_file(file: &mut [u8], width: usize) -> Result<usize, Refusal>
    ensures { (said result, file.new) ≡ layout_outcome width file.old }
{
    layout_with_max_line_width(file, width)
}

pub fn hazomeny_layout(file: &mut [u8], width: usize) -> u64
    ensures { (result, file.new) ≡ coded_outcome (layout_outcome width file.old) }
{
    in_one(layout_file(file, width).map_err(Numbered::from))
}

// The plain page, of a file laid out or not: accepted with the page's length, written from the page's start, and later bytes as they were;
// a page that is too short is refused with the bytes needed. A refusal changes no byte.
pub fn plain_page(file: &[u8], page: &mut [u8]) -> Result<usize, Refusal>
    ensures { (said result, page.new) ≡ plain_outcome file.now page.old }
{
    render_page(Kind::Plain, file, page)
}

pub fn hazomeny_plain(file: &[u8], page: &mut [u8]) -> u64
    ensures { (result, page.new) ≡ coded_outcome (plain_outcome file.now page.old) }
{
    in_one(plain_page(file, page).map_err(Numbered::from))
}

// The plain page of a file at a width: layout and plain page in one, with the file only read. Refusals as layout's, then 10. It is for the command and for
// `./bench`; the header and the bindings have no name for it.
pub fn hazomeny_print(file: &[u8], width: usize, page: &mut [u8]) -> u64
    ensures { (result, page.new) ≡ coded_outcome (print_outcome width file.now page.old) }
{
    in_one(print_at(file, width, page).map_err(Numbered::from))
}

// The HTML body: one `pre` element. Otherwise as the plain page.
pub fn html_body(file: &[u8], page: &mut [u8]) -> Result<usize, Refusal>
    ensures { (said result, page.new) ≡ body_outcome file.now page.old }
{
    render_page(Kind::Body, file, page)
}

pub fn hazomeny_html_body(file: &[u8], page: &mut [u8]) -> u64
    ensures { (result, page.new) ≡ coded_outcome (body_outcome file.now page.old) }
{
    in_one(html_body(file, page).map_err(Numbered::from))
}

// The HTML document: the body in its frame, with the one style element. Otherwise as the plain page.
pub fn html_document(file: &[u8], page: &mut [u8]) -> Result<usize, Refusal>
    ensures { (said result, page.new) ≡ document_outcome file.now page.old }
{
    render_page(Kind::Document, file, page)
}

pub fn hazomeny_html_document(file: &[u8], page: &mut [u8]) -> u64
    ensures { (result, page.new) ≡ coded_outcome (document_outcome file.now page.old) }
{
    in_one(html_document(file, page).map_err(Numbered::from))
}

// The HTML body in which a CR of a text is `&#13;`, so that a browser keeps it. A file with a NUL in a text, which no browser keeps, is refused by 14.
pub fn html_body_strict(file: &[u8], page: &mut [u8]) -> Result<usize, Refusal>
    ensures { (said result, page.new) ≡ strict_body_outcome file.now page.old }
{
    render_page(Kind::StrictBody, file, page)
}

pub fn hazomeny_html_body_strict(file: &[u8], page: &mut [u8]) -> u64
    ensures { (result, page.new) ≡ coded_outcome (strict_body_outcome file.now page.old) }
{
    in_one(html_body_strict(file, page).map_err(Numbered::from))
}

// The document of that body.
pub fn html_document_strict(file: &[u8], page: &mut [u8]) -> Result<usize, Refusal>
    ensures { (said result, page.new) ≡ strict_document_outcome file.now page.old }
{
    render_page(Kind::StrictDocument, file, page)
}

pub fn hazomeny_html_document_strict(file: &[u8], page: &mut [u8]) -> u64
    ensures { (result, page.new) ≡ coded_outcome (strict_document_outcome file.now page.old) }
{
    in_one(html_document_strict(file, page).map_err(Numbered::from))
}

// The mask of a file: every byte of a text but newlines is `x`. Accepted with its length, written from the page's start; otherwise as the plain page.
pub fn mask_file(file: &[u8], page: &mut [u8]) -> Result<usize, Refusal>
    ensures { (said result, page.new) ≡ mask_outcome file.now page.old }
{
    mask_into(file, page)
}

pub fn hazomeny_mask(file: &[u8], page: &mut [u8]) -> u64
    ensures { (result, page.new) ≡ coded_outcome (mask_outcome file.now page.old) }
{
    in_one(mask_file(file, page).map_err(Numbered::from))
}

// Original and mask together with a place: accepted with the length of the text whose field stands there. 12 where the second is not the mask of the
// first, 13 where no text's field stands there.
pub fn check_texts(original: &[u8], mask: &[u8], place: usize) -> Result<usize, pairs::Refusal>
    ensures { pairs.said result ≡ pair_answer original.now mask.now place }
{
    check_pair(original, mask, place)
}

pub fn hazomeny_pair(original: &[u8], mask: &[u8], place: u32) -> u64
    ensures { result ≡ coded (pair_answer original.now mask.now place) }
{
    in_one(check_texts(original, mask, place as usize).map_err(Numbered::from))
}

// The text that a reader is given, with the right to names or without it: a part of the original or of the mask, empty where the check refuses.
pub fn text_of_pair<'a>(original: &'a [u8], mask: &'a [u8], place: usize, names: bool) -> &'a [u8]
    ensures { result.now ≡ given_text original.now mask.now place names }
{
    text_part(original, mask, place, names)
}

// Any step, whatever stands in its way. A number that is no step's is refused by 11: C gives a step by its number.
fn any_step(file: &mut [u8], state: &mut [u32; 2], step: u8, style: &[u8; 18], text: &[u8]) -> u64
    ensures { Leaves result file.new state.new (write_in_c step style.now text.now file.old state.old) }
{
    let at = from_state(state[0]);
    let top = from_state(state[1]);
    if LAST_STEP < step {
        return (at as u64) * 256 + 11;
    }
    let m = step_near(file, at, top, numbered(step), style_in(style), text);
    state[0] = m.at as u32;
    state[1] = m.top as u32;
    let a = m.answer;
    in_one(a.map_err(Numbered::from))
}

// One step of a writer over `file`, by numbers: `state` has how far the file is written, and the place of the innermost open field and 1, or 0. A
// refusal changes no byte and no number.
pub fn hazomeny_write(
    file: &mut [u8],
    state: &mut [u32; 2],
    step: u8,
    style: &[u8; 18],
    text: &[u8],
) -> u64
    ensures { Leaves result file.new state.new (write_in_c step style.now text.now file.old state.old) }
{
    if LAST_QUICK < step {
        return any_step(file, state, step, style, text);
    }
    let Some(q) = quick_step(
        file,
        from_state(state[0]),
        from_state(state[1]),
        step,
        style,
        text,
    ) else {
        return any_step(file, state, step, style, text);
    };
    state[0] = q.at as u32;
    state[1] = q.top as u32;
    (q.at as u64) * 256
}
