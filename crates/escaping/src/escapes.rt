// Texts. Only the two bytes that would begin markup are escaped: in a text no other byte is special.
ghost use Rattle.std.specs.Prelude.{◌≡◌, map, true, false, ◌+◌, ◌≤◌, length};
ghost use Rattle.rules.specs.Answers.{itself};
ghost use Rattle.rules.specs.Html.{escape, escaped, items_html};
ghost use Rattle.rules.specs.Lines.{char, copied};
ghost use Rattle.rules.specs.Plain.{fill};
ghost use Rattle.writing.specs.Written.{Written, Put};
ghost use Rattle.escaping.specs.Runs.{PlainTo, Copied, Begun};

use looks::{first_by_windows, is_clear};
use writing::Page;

// One byte. It has a function of its own so that the loop does not carry the escapes along.
fn put_escape(page: &mut Page<'_>, b: u8)
    ensures { Put page.old (fill itself (escaped (escape b) b)) page.new }
{
    match b {
        b'&' => page.put_bytes(b"&amp;"),
        b'<' => page.put_bytes(b"&lt;"),
        _ => page.put(b),
    }
}

// So many bytes are looked at together.
pub(crate) const WINDOW: usize = 8;

// One of the two bytes that are escaped.
fn is_escaped(b: u8) -> bool
    ensures { result ≡ false → (b ≡ 38 → ⊥) × (b ≡ 60 → ⊥) }
{
    b == b'&' || b == b'<'
}

// A window on the page, by value, so that the machine reads all of it before it writes one. No byte is tested against the page's end.
fn paste(bytes: &mut [u8], at: usize, w: [u8; WINDOW])
    requires { at + 8 ≤ length bytes.old }
    ensures { Written bytes.old at w bytes.new (at + 8) }
{
    bytes[at..at + WINDOW].copy_from_slice(&w);
}

// The windows in which nothing is escaped, copied; how many bytes they are. A `for` over chunks would count them once more to say how many.
fn copy_windows(bytes: &mut [u8], at: usize, text: &[u8]) -> usize
    requires { at + length text.now ≤ length bytes.old }
    ensures { Copied bytes.old at text.now bytes.new result }
{
    let mut n = 0;
    while let Some(w) = text[n..].first_chunk() {
        if !is_clear::<WINDOW, _>(text, n, is_escaped) {
            return n;
        }
        paste(bytes, at + n, *w);
        n += WINDOW;
    }
    n
}

// The bytes up to the first that is escaped, copied; how many. No byte is tested against the page's end.
fn copy_plain(bytes: &mut [u8], at: usize, text: &[u8]) -> usize
    requires { at + length text.now ≤ length bytes.old }
    ensures { Copied bytes.old at text.now bytes.new result }
{
    let copied = copy_windows(bytes, at, text);
    for n in copied..text.len() {
        if is_escaped(text[n]) {
            return n;
        }
        bytes[at + n] = text[n];
    }
    text.len()
}

// How many bytes stand before the first that is escaped.
fn plain_end(text: &[u8]) -> usize
    ensures { PlainTo text.now result }
{
    first_by_windows::<WINDOW, _>(text, is_escaped)
}

// These bytes as far as they fit, as in measuring, where nothing does; how many they are.
fn put_fitting(page: &mut Page<'_>, text: &[u8]) -> usize
    ensures { Begun page.old text.now page.new result }
{
    let n = plain_end(text);
    page.put_bytes(&text[..n]);
    n
}

// Some bytes of a text that are left as they are; how many.
fn put_plain(page: &mut Page<'_>, text: &[u8]) -> usize
    ensures { Begun page.old text.now page.new result }
{
    let at = page.at;
    if at < page.bytes.len() && text.len() <= page.bytes.len() - at {
        let n = copy_plain(&mut *page.bytes, at, text);
        page.at = at + n;
        return n;
    }
    put_fitting(page, text)
}

// A whole text: a run of bytes that are left as they are, then one byte by itself, and so on.
pub fn put_escaped(page: &mut Page<'_>, text: &[u8])
    ensures { Put page.old (fill itself (items_html escape (map (λ y. char (copied y)) text.now))) page.new }
{
    // `i` goes on by a run and the byte behind it: a `for` over the bytes would count what the run has passed.
    let mut i = 0;
    while i < text.len() {
        i += put_plain(page, &text[i..]);
        if i < text.len() {
            put_escape(page, text[i]);
            i += 1;
        }
    }
}
