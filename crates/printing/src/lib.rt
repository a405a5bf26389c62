// Printing a page that is asked for in some input: two bytes of width, high byte first, and a file. The file's page at the width is printed and nothing
// more; a refusal prints `refused N at P` and a newline.

#![tactic(auto)]

ghost use Rattle.std.specs.Prelude.{◌≡◌, ◌≤◌, length};
ghost use Rattle.printing.specs.Shown.{Shown};
ghost use Rattle.printing.specs.Asked.{width_in, with_page, with_mask, laid_at, asked, plainly_asked};

use hazomeny::{check_file_strict, html_document, html_document_strict, layout_file, mask_file};
use prints::print_at;
use rules::{MOST_BYTES, Refusal};
use std::io;
use telling::{end_line, tell_refusal};

// Room for a file, and for one byte more than it may have: a longer one is refused, and no more of it is read.
pub const FILE: usize = MOST_BYTES + 1;

// The same behind two bytes of width.
pub const INPUT: usize = 2 + FILE;

// What is printed of the file. No closure in its place: the contracts name the page by it, and a refusal asks it too.
#[derive(Debug, Clone, Copy, PartialEq, Eq)]
pub enum Wanted {
    Document,
    StrictDocument,
}

fn refuse(rt: &impl Print, r: Refusal) -> io::Result<()> {
    tell_refusal(rt, r)?;
    end_line(rt)
}

// The bytes of the page that the answer counts.
fn print_answer(rt: &impl Print, page: &[u8], a: Result<usize, Refusal>) -> io::Result<()>
    requires { Shown a page.now }
{
    match a {
        Ok(n) => rt.write_all(&page[..n]),
        Err(r) => refuse(rt, r),
    }
}

// The two bytes before a file.
fn width_in(input: &[u8]) -> usize
    requires { 2 ≤ length input.now }
    ensures { result ≡ width_in input.now }
{
    usize::from(u16::from_be_bytes([input[0], input[1]]))
}

fn print_page(rt: &impl Print, wanted: Wanted, file: &[u8], page: &mut [u8]) -> io::Result<()>
    ensures { page.new ≡ with_page wanted file.now page.old }
{
    // a `match` over an enum's cases: each says something of its own, and a table of closures would be no plainer
    match wanted {
        Wanted::Document => {
            let a = html_document(file, page);
            print_answer(rt, page, a)
        }
        Wanted::StrictDocument => {
            let a = html_document_strict(file, page);
            print_answer(rt, page, a)
        }
    }
}

// The refusal of a file that was not laid out. Where layout refuses it in the walk, it may have a NUL in a text before that fault, which strict mode
// refuses first.
fn first_refusal(wanted: Wanted, file: &[u8], r: Refusal) -> Refusal {
    if wanted == Wanted::Document || r == Refusal::TooWide {
        return r;
    }
    check_file_strict(file).err().unwrap_or(r)
}

// The file laid out at the width, then its page. Places count from the file's start.
fn lay_out_and_print(
    rt: &impl Print,
    wanted: Wanted,
    file: &mut [u8],
    width: usize,
    page: &mut [u8],
) -> io::Result<()>
    ensures { (file.new, page.new) ≡ laid_at wanted width file.old page.old }
{
    match layout_file(file, width) {
        Ok(_) => print_page(rt, wanted, file, page),
        Err(r) => refuse(rt, first_refusal(wanted, file, r)),
    }
}

// What is left in the input and in the page is told; what goes to standard output is the page's bytes, or the refusal.
pub fn print_asked(
    rt: &impl Print,
    wanted: Wanted,
    input: &mut [u8],
    page: &mut [u8],
) -> io::Result<()>
    ensures { (input.new, page.new) ≡ asked wanted input.old page.old }
{
    if input.len() < 2 {
        return refuse(rt, Refusal::Cut(0));
    }
    let width = width_in(input);
    lay_out_and_print(rt, wanted, &mut input[2..], width, page)
}

// The same for the plain page, in one call that only reads the input.
pub fn print_plain(rt: &impl Print, input: &[u8], page: &mut [u8]) -> io::Result<()>
    ensures { page.new ≡ plainly_asked input.now page.old }
{
    if input.len() < 2 {
        return refuse(rt, Refusal::Cut(0));
    }
    let a = print_at(&input[2..], width_in(input), page);
    print_answer(rt, page, a)
}

// The mask of a file, and nothing more; or the refusal.
pub fn print_mask(rt: &impl Print, file: &[u8], page: &mut [u8]) -> io::Result<()>
    ensures { page.new ≡ with_mask file.now page.old }
{
    let a = mask_file(file, page);
    print_answer(rt, page, a)
}

// Room for a document of 4 MiB, about twice the longest that a file can have.
pub const ROOM: usize = 4194304;

// The same as `print_asked`. The page is passed as an array, so that a program's proof takes its length from its type.
pub fn print_on(
    rt: &impl Print,
    wanted: Wanted,
    input: &mut [u8],
    page: &mut [u8; ROOM],
) -> io::Result<()>
    ensures { (input.new, page.new) ≡ asked wanted input.old page.old }
{
    print_asked(rt, wanted, input, page)
}
