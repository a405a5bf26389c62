// The page of a whole file: checked, measured where it might not fit, then written.

#![tactic(auto, unfolding(crate::specs::Kinds::html_fits, crate::specs::Kinds::longest_for, crate::specs::Kinds::surely_fits, rules::specs::Result::said, rules::specs::Result::refusal))]

ghost use Rattle.std.specs.Prelude.{◌≡◌, ◌≤◌, length};
ghost use Rattle.rules.specs.Limits.{most_bytes};
ghost use Rattle.rules.specs.Result.{said};
ghost use Rattle.rules.specs.Marks.{painted};
ghost use Rattle.rules.proofs.Marked.{ShownBy};
ghost use Rattle.rules.specs.Alike.{tree_of};
ghost use Rattle.rules.specs.Answers.{check_answer_by};
ghost use Rattle.writing.specs.Written.{Written};
ghost use Rattle.pages.specs.Kinds.{page_kind, page_in, html_fits, surely_fits, page_outcome};

use crate::frame::{Kind, form_of, framing_of, put_foot, put_head};
use crate::walk::render_fragment;
use lines::start;
use pens::pen::Pen;
use pens::state::Form;
use rules::{HTML_FRAME, HTML_PER_BYTE, MOST_BLOCKS, PLAIN_PER_BYTE, Refusal};
use verify::walk::{check, check_strict};
use writing::Page;

// The page as far as it goes, with all of it put on it.
fn rendered<'p>(kind: Kind, file: &[u8], marks: &[u64], bytes: &'p mut [u8]) -> Page<'p>
    requires { length file.now ≤ most_bytes }
    ensures same_page { result.bytes.ghost_name ≡ bytes.entry.ghost_name }
    ensures written { Written bytes.old 0 (page_in kind marks.now file.now) result.bytes.now result.at }
{
    let framing = framing_of(kind);
    let mut pen = Pen {
        page: Page { bytes, at: 0 },
        machine: start(),
        form: form_of(kind),
    };
    put_head(&mut pen.page, framing);
    render_fragment(file, 0, &mut pen, false, MOST_BLOCKS, marks, 0);
    put_foot(&mut pen.page, framing);
    let Pen { page, .. } = pen;
    page
}

// Writes the page as far as it goes, and answers how many bytes all of it needs.
fn render(kind: Kind, file: &[u8], marks: &[u64], page: &mut [u8]) -> usize
    requires { length file.now ≤ most_bytes }
    ensures { Written page.old 0 (page_in kind marks.now file.now) page.new result }
{
    let page = rendered(kind, file, marks, page);
    page.at
}

// Whether an HTML page of a file of n bytes fits without being measured: what stands around the items, and at most HTML_PER_BYTE for each byte.
fn html_fits(n: usize, room: usize) -> bool
    ensures { result ≡ html_fits n room }
{
    HTML_FRAME <= room && n <= (room - HTML_FRAME) / HTML_PER_BYTE
}

// The same of any page; a plain page has at most PLAIN_PER_BYTE for each byte.
fn surely_fits(kind: Kind, n: usize, room: usize) -> bool
    ensures { result ≡ surely_fits kind n room }
{
    // a `match` over an enum's cases: each says something of its own, and a table of closures would be no plainer
    match kind {
        Kind::Plain => n <= room / PLAIN_PER_BYTE,
        _ => html_fits(n, room),
    }
}

// The file check, in the kind's mode.
fn check_for(kind: Kind, file: &[u8]) -> Result<usize, Refusal>
    ensures { said result ≡ check_answer_by (tree_of (page_kind kind)) file.now }
{
    match form_of(kind) {
        Form::Strict => check_strict(file),
        _ => check(file),
    }
}

// The page of an accepted file as its marks show it: answers the page's length, and writes it from the page's start; a refusal changes no byte.
pub fn render_shown(
    kind: Kind,
    file: &[u8],
    marks: &[u64],
    page: &mut [u8],
) -> Result<usize, Refusal>
    requires { ShownBy (tree_of (page_kind kind)) file.now (painted marks.now file.now) }
    ensures { (said result, page.new) ≡ page_outcome kind (painted marks.now file.now) page.old }
{
    if surely_fits(kind, file.len(), page.len()) {
        return Ok(render(kind, file, marks, page));
    }
    let needed = render(kind, file, marks, &mut []);
    if page.len() < needed {
        return Err(Refusal::PageTooShort(needed));
    }
    Ok(render(kind, file, marks, page))
}

// The same of any file, with its own tags.
pub fn render_page(kind: Kind, file: &[u8], page: &mut [u8]) -> Result<usize, Refusal>
    ensures { (said result, page.new) ≡ page_outcome kind file.now page.old }
{
    check_for(kind, file)?;
    render_shown(kind, file, &[], page)
}
