// What is wrong in what a step brings, as the step's refusal; and how many bytes it is.
ghost use Rattle.std.specs.Prelude.{◌≡◌, ◌+◌, ◌≤◌, min, length};
ghost use Rattle.rules.specs.Result.{sound};
ghost use Rattle.rules.specs.Walk.{text_content, anchor_content};
ghost use Rattle.scripts.specs.Steps.{style_checks, run_checks};
ghost use Rattle.moves.specs.Style.{style_of, run, bad_style};
ghost use Rattle.moves.specs.Plans.{piece_checks, plan_checks, piece_size, header_size, plan_size};
ghost use Rattle.moves.specs.Stepped.{checked};

use crate::style::style_size;
use moves::{Piece, Plan, Refusal, Style};
use utf8::{Utf8, check_utf8, has_byte};
use verify::style::{right_opacity, right_size, word};

fn check_text(v: &[u8], at: usize) -> Result<(), Refusal>
    ensures { checked result ≡ sound (text_content v.now) at }
{
    let Utf8::Sound = check_utf8(v) else {
        return Err(Refusal::NotUtf8(at));
    };
    Ok(())
}

// UTF-8 comes before the quote.
fn check_name(v: &[u8], at: usize) -> Result<(), Refusal>
    ensures { checked result ≡ sound (anchor_content v.now) at }
{
    check_text(v, at)?;
    if has_byte(v, b'"') {
        return Err(Refusal::QuoteInAnchor(at));
    }
    Ok(())
}

// A style's values, then what they have together.
#[tactic(auto, unfolding(moves::specs::Style::bad_style))]
fn is_bad(st: Style) -> bool
    ensures { result ≡ bad_style st }
{
    let bits = st.opacity;
    (st.has_opacity && !right_opacity(word(&bits)))
        || (st.has_size && !right_size(usize::from(st.size)))
        || (st.has_opacity && !st.has_colour)
        || (st.subscript && st.superscript)
}

pub fn check_style(st: Style, at: usize) -> Result<(), Refusal>
    ensures { checked result ≡ sound (style_checks (style_of st)) at }
{
    if st.styled && is_bad(st) {
        return Err(Refusal::BadStyle(at));
    }
    Ok(())
}

// The style comes first.
fn check_run(st: Style, v: &[u8], at: usize) -> Result<(), Refusal>
    ensures { checked result ≡ sound (run_checks (run st v.now)) at }
{
    check_style(st, at)?;
    check_text(v, at)
}

#[tactic(auto, unfolding(moves::specs::Plans::piece_checks, moves::specs::Stepped::checked, rules::specs::Result::sound))]
fn check_piece(piece: Piece, st: Style, v: &[u8], at: usize) -> Result<(), Refusal>
    ensures { checked result ≡ sound (piece_checks piece st v.now) at }
{
    match piece {
        Piece::Run => check_run(st, v, at),
        Piece::Conditional => check_text(v, at),
        Piece::Definition | Piece::Use => check_name(v, at),
        Piece::Nothing | Piece::Space | Piece::Force | Piece::CommaSpace | Piece::LastComma => {
            Ok(())
        }
    }
}

// What is put before, what is put behind, then the depth of the block between them.
pub fn check_plan(p: Plan, st: Style, v: &[u8], at: usize) -> Result<(), Refusal>
    ensures { checked result ≡ sound (plan_checks p st v.now) at }
{
    check_piece(p.before, st, v, at)?;
    check_piece(p.behind, st, v, at)?;
    if p.too_deep {
        return Err(Refusal::TooDeep(at));
    }
    Ok(())
}

// A piece's bytes, of a text of n.
#[tactic(auto, unfolding(moves::specs::Plans::piece_size))]
fn piece_size(piece: Piece, st: Style, n: usize) -> usize
    requires { n ≤ 65_536 }
    ensures { (result ≡ piece_size piece st n) × (result ≤ 70_000) }
{
    match piece {
        Piece::Nothing => 0,
        Piece::Run => 6 + style_size(st) + n,
        Piece::Space | Piece::Force => 3,
        Piece::Conditional | Piece::Definition | Piece::Use => 3 + n,
        Piece::CommaSpace => 10,
        Piece::LastComma => 4,
    }
}

#[tactic(auto, unfolding(moves::specs::Plans::header_size))]
fn header_size(opens: Option<u8>) -> usize
    ensures { (result ≡ header_size opens) × (result ≤ 3) }
{
    match opens {
        Some(_) => 3,
        None => 0,
    }
}

// The bytes that a step puts, of a text as long as it matters: a longer one fits no file.
#[tactic(auto, unfolding(moves::specs::Plans::plan_size))]
pub fn plan_size(p: Plan, st: Style, n: usize) -> usize
    ensures { (result ≡ plan_size p st (min n 65_536)) × (result ≤ 150_000) }
{
    let m = n.min(65536);
    piece_size(p.before, st, m) + header_size(p.opens) + piece_size(p.behind, st, m)
}
