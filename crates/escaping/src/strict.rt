// Texts in strict mode. A CR is escaped too, since a browser would take it for the end of a line.
ghost use Rattle.std.specs.Prelude.{map};
ghost use Rattle.rules.specs.Answers.{itself};
ghost use Rattle.rules.specs.Html.{strict_escape, escaped, items_html};
ghost use Rattle.rules.specs.Lines.{char, copied};
ghost use Rattle.rules.specs.Plain.{fill};
ghost use Rattle.writing.specs.Written.{Put};
ghost use Rattle.escaping.specs.Returns.{FirstReturn};

use crate::escapes::{WINDOW, put_escaped};
use looks::first_by_windows;
use writing::Page;

// How many bytes stand before the first CR.
fn first_return(text: &[u8]) -> usize
    ensures { FirstReturn text.now result }
{
    first_by_windows::<WINDOW, _>(text, |b| b == b'\r')
}

// A CR. It has a function of its own so that the loop does not carry the escape along.
fn put_return(page: &mut Page<'_>)
    ensures { Put page.old (fill itself (escaped (strict_escape 13) 13)) page.new }
{
    page.put_bytes(b"&#13;");
}

// A whole text: the bytes up to a CR as in any mode, then the CR, and so on.
pub fn put_strict(page: &mut Page<'_>, text: &[u8])
    ensures { Put page.old (fill itself (items_html strict_escape (map (λ y. char (copied y)) text.now))) page.new }
{
    // `i` goes on by a CR and the part behind it: a `for` over the bytes would count what the part has passed.
    let mut i = first_return(text);
    put_escaped(page, &text[..i]);
    while i < text.len() {
        put_return(page);
        let from = i + 1;
        i = from + first_return(&text[from..]);
        put_escaped(page, &text[from..i]);
    }
}
