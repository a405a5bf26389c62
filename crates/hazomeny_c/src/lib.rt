// The names that a caller in C has, in libhazomeny.a: each calls the function of its name in hazomeny and promises what that one does.

#![tactic(auto)]

ghost use Rattle.std.specs.Prelude.{◌≡◌};
ghost use Rattle.scribe.specs.InC.{write_in_c, Leaves};
ghost use Rattle.pairs.specs.Masking.{mask_outcome};
ghost use Rattle.pairs.specs.Pair.{pair_answer};
ghost use Rattle.rules.specs.Prints.{print_outcome};
ghost use Rattle.rules.specs.Answers.{check_answer, layout_outcome, plain_outcome, body_outcome, document_outcome, strict_check_answer, strict_body_outcome, strict_document_outcome, coded, coded_outcome};

#[unsafe(no_mangle)]
pub extern "C" fn hazomeny_check(file: &[u8]) -> u64
    ensures { result ≡ coded (check_answer file.now) }
{
    hazomeny::hazomeny_check(file)
}

#[unsafe(no_mangle)]
pub extern "C" fn hazomeny_check_strict(file: &[u8]) -> u64
    ensures { result ≡ coded (strict_check_answer file.now) }
{
    hazomeny::hazomeny_check_strict(file)
}

#[unsafe(no_mangle)]
pub extern "C" fn hazomeny_layout(file: &mut [u8], width: usize) -> u64
    ensures { (result, file.new) ≡ coded_outcome (layout_outcome width file.old) }
{
    hazomeny::hazomeny_layout(file, width)
}

#[unsafe(no_mangle)]
pub extern "C" fn hazomeny_plain(file: &[u8], page: &mut [u8]) -> u64
    ensures { (result, page.new) ≡ coded_outcome (plain_outcome file.now page.old) }
{
    hazomeny::hazomeny_plain(file, page)
}

#[unsafe(no_mangle)]
pub extern "C" fn hazomeny_print(file: &[u8], width: usize, page: &mut [u8]) -> u64
    ensures { (result, page.new) ≡ coded_outcome (print_outcome width file.now page.old) }
{
    hazomeny::hazomeny_print(file, width, page)
}

#[unsafe(no_mangle)]
pub extern "C" fn hazomeny_html_body(file: &[u8], page: &mut [u8]) -> u64
    ensures { (result, page.new) ≡ coded_outcome (body_outcome file.now page.old) }
{
    hazomeny::hazomeny_html_body(file, page)
}

#[unsafe(no_mangle)]
pub extern "C" fn hazomeny_html_document(file: &[u8], page: &mut [u8]) -> u64
    ensures { (result, page.new) ≡ coded_outcome (document_outcome file.now page.old) }
{
    hazomeny::hazomeny_html_document(file, page)
}

#[unsafe(no_mangle)]
pub extern "C" fn hazomeny_html_body_strict(file: &[u8], page: &mut [u8]) -> u64
    ensures { (result, page.new) ≡ coded_outcome (strict_body_outcome file.now page.old) }
{
    hazomeny::hazomeny_html_body_strict(file, page)
}

#[unsafe(no_mangle)]
pub extern "C" fn hazomeny_html_document_strict(file: &[u8], page: &mut [u8]) -> u64
    ensures { (result, page.new) ≡ coded_outcome (strict_document_outcome file.now page.old) }
{
    hazomeny::hazomeny_html_document_strict(file, page)
}

#[unsafe(no_mangle)]
pub extern "C" fn hazomeny_mask(file: &[u8], page: &mut [u8]) -> u64
    ensures { (result, page.new) ≡ coded_outcome (mask_outcome file.now page.old) }
{
    hazomeny::hazomeny_mask(file, page)
}

#[unsafe(no_mangle)]
pub extern "C" fn hazomeny_pair(original: &[u8], mask: &[u8], place: u32) -> u64
    ensures { result ≡ coded (pair_answer original.now mask.now place) }
{
    hazomeny::hazomeny_pair(original, mask, place)
}

#[unsafe(no_mangle)]
pub extern "C" fn hazomeny_write(
    file: &mut [u8],
    state: &mut [u32; 2],
    step: u8,
    style: &[u8; 18],
    text: &[u8],
) -> u64
    ensures { Leaves result file.new state.new (write_in_c step style.now text.now file.old state.old) }
{
    hazomeny::hazomeny_write(file, state, step, style, text)
}
