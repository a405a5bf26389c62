// Texts: without a style, with a colour, with any style.
ghost use Rattle.std.specs.Prelude.{◌≡◌, true, false, ◌≤◌, length};
ghost use Rattle.moves.specs.declared.Style.{Style};
ghost use Rattle.moves.specs.declared.Piece.TheVariants.{Run, Conditional};
ghost use Rattle.scripts.specs.Steps.{style_checks};
ghost use Rattle.moves.specs.Style.{style_of, style_part};
ghost use Rattle.moves.specs.Plans.{first_fault, sane, puts};
ghost use Rattle.scribe.specs.InC.{flag, style_in};
ghost use Rattle.quick.specs.Quick.{Quickly, PutsText, ColourAlone};

use crate::adding::{has_room, leaf, plain};
use scribe::checks::check_style;
use scribe::numbers::style_in;
use scribe::put::{put_field, put_header};
use scribe::stepping::Spot;
use scribe::style::{put_run, style_size};
use writing::put_bytes;

// A text's node, of the field 16 that its style is, or of nothing, and the text.
fn node(buf: &mut [u8], at: usize, top: usize, style: &[u8], v: &[u8]) -> Option<Spot>
    requires top_value { sane (length buf.old) at top ≡ true }
    requires style_len_bound { length style.now ≤ 59 }
    ensures { (st : Style) → style_part st ≡ style.now → first_fault (style_checks (style_of st)) ≡ 0 → PutsText result buf.old buf.new at top st v.now }
{
    if !has_room(buf.len(), at, 6 + style.len(), v.len()) {
        return None;
    }
    let a = put_header(buf, at, 1, style.len() + 3 + v.len());
    let b = put_bytes(buf, a, style);
    let next = put_field(buf, b, 17, v);
    Some(Spot { at: next, top })
}

// A colour is all that the style says.
fn is_colour(s: &[u8; 18]) -> bool
    ensures { result ≡ true → ColourAlone s.now }
{
    s[1] != 0 && (s[5] | s[10] | s[12] | s[14] | s[15] | s[16] | s[17]) == 0
}

// A text whose style is a colour.
fn coloured(buf: &mut [u8], at: usize, top: usize, s: &[u8; 18], v: &[u8]) -> Option<Spot>
    requires top_value { sane (length buf.old) at top ≡ true }
    requires s_value { (flag s.now 0 ≡ true) × ColourAlone s.now }
    ensures { PutsText result buf.old buf.new at top (style_in s.now) v.now }
{
    let colour = [16, 0, 6, 32, 0, 3, s[2], s[3], s[4]];
    node(buf, at, top, &colour, v)
}

// A text with any style.
fn styled(buf: &mut [u8], at: usize, top: usize, s: &[u8; 18], v: &[u8]) -> Option<Spot>
    requires { sane (length buf.old) at top ≡ true }
    ensures { PutsText result buf.old buf.new at top (style_in s.now) v.now }
{
    let st = style_in(s);
    let Ok(_) = check_style(st, at) else {
        return None;
    };
    if !has_room(buf.len(), at, 6 + style_size(st), v.len()) {
        return None;
    }
    let next = put_run(buf, at, st, v);
    Some(Spot { at: next, top })
}

// A text by what its style says.
fn by_style(buf: &mut [u8], at: usize, top: usize, s: &[u8; 18], v: &[u8]) -> Option<Spot>
    requires { sane (length buf.old) at top ≡ true }
    ensures { PutsText result buf.old buf.new at top (style_in s.now) v.now }
{
    if s[0] == 0 {
        node(buf, at, top, b"", v)
    } else if is_colour(s) {
        coloured(buf, at, top, s, v)
    } else {
        styled(buf, at, top, s, v)
    }
}

pub fn text(
    buf: &mut [u8],
    at: usize,
    top: usize,
    allowed: bool,
    s: &[u8; 18],
    v: &[u8],
) -> Option<Spot>
    requires { sane (length buf.old) at top ≡ true }
    ensures { Quickly result buf.old buf.new at top (puts allowed Run) (style_in s.now) v.now }
{
    if !allowed || !plain(v) {
        return None;
    }
    by_style(buf, at, top, s, v)
}

pub fn conditional(buf: &mut [u8], at: usize, top: usize, allowed: bool, v: &[u8]) -> Option<Spot>
    requires { sane (length buf.old) at top ≡ true }
    ensures { (st : Style) → Quickly result buf.old buf.new at top (puts allowed Conditional) st v.now }
{
    if !plain(v) {
        return None;
    }
    leaf(buf, at, top, allowed, 7, v)
}
