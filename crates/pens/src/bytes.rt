// The bytes of a text: its first line, then the later ones, one by one or as they stand.
ghost use Rattle.std.specs.Prelude.{◌≡◌, true, ◌∷◌, ◌<◌, ◌^◌};
ghost use Rattle.rules.specs.Bytes.{newline};
ghost use Rattle.rules.specs.Lines.{new_line, text_ops};
ghost use Rattle.pens.specs.Ops.{later_in};
ghost use Rattle.pens.specs.Ran.{machine, form, indent_of, Rendered};
ghost use Rattle.pens.specs.States.{at_margin};

use crate::pen::{Pen, begin_line, interpret_part, line_part};
use crate::state::{machine_behind, plain_at_margin};
use texts::first_line_end;

// At the margin of a plain page: a new line and the text on it. No line is indented there, so the text is written as it stands.
fn put_verbatim(pen: &mut Pen<'_>, v: &[u8])
    requires { at_margin (form pen.old) (machine pen.old) ≡ true }
    ensures { Rendered (new_line ∷ text_ops newline v.now) pen.old pen.new }
{
    pen.page.put(b'\n');
    pen.page.put_bytes(v);
    pen.machine = machine_behind(v);
}

// The lines of a text behind its first: for each a new line and the part on it. What is left begins with a newline.
fn render_lines(later: &[u8], pen: &mut Pen<'_>)
    ensures { Rendered (later_in later.now) pen.old pen.new }
{
    let mut rest = later;
    // no plainer by a `for`: each line says where the next begins
    while let Some((_, text)) = rest.split_first() {
        let (line, behind) = text.split_at(first_line_end(text));
        begin_line(pen);
        line_part(pen, line);
        rest = behind;
    }
}

// The same lines, at the margin of a plain page all at once.
fn render_later(later: &[u8], pen: &mut Pen<'_>)
    ensures { Rendered (later_in later.now) pen.old pen.new }
{
    let Some((_, text)) = later.split_first() else {
        return;
    };
    if plain_at_margin(pen.form, &pen.machine) {
        return put_verbatim(pen, text);
    }
    render_lines(later, pen);
}

// The bytes of a text: the part before the first newline, then the later lines.
pub fn render_bytes(v: &[u8], pen: &mut Pen<'_>)
    requires { indent_of pen.old < 2 ^ 15 }
    ensures { Rendered (text_ops newline v.now) pen.old pen.new }
{
    let (first, later) = v.split_at(first_line_end(v));
    interpret_part(pen, first);
    render_later(later, pen);
}
