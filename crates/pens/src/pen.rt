// The pen: the line machine, and how far the page is written. One operation at a time.

#![tactic(auto, unfolding(crate::specs::Ran::shown, lines::specs::Said::own, lines::specs::Said::copies))]

ghost use Rattle.std.specs.Prelude.{◌≡◌, [], ◌∷◌, ◌<◌, ◌^◌, length, if◌then◌else◌};
ghost use Rattle.writing.specs.Written.{Put};
ghost use Rattle.lines.specs.Said.{before_bytes, break_of, copies, own};
ghost use Rattle.lines.specs.declared.LineOp.TheVariants as LineOp;
ghost use Rattle.pens.specs.declared.state.Form.TheVariants as Form;
ghost use Rattle.pens.specs.States.{Fresh};
ghost use Rattle.rules.specs.Lines.{indent, unindent, break};
ghost use Rattle.pens.specs.Ran.{shown, machine, form, indent_of, IsMark, Ran, Interpreted, Rendered};

use crate::ready::{put_break, put_indent, put_ready};
use crate::state::{Form, line_ready, nothing_shows, on_line};
use escaping::escapes::put_escaped;
use escaping::strict::put_strict;
use lines::{
    Before, Break, LineOp, LineState, Machine, break_if_within_line, pop_indent, push_indent, step,
};
use markup::anchors::{put_close_anchor, put_open_anchor};
use markup::tags::{put_close_tag, put_open_tag};
use styles::read_styles;
use writing::Page;

// A pen on a page: what it writes stands there, as far as the page goes.
#[derive(Drop)]
pub struct Pen<'p> {
    pub page: Page<'p>,
    pub machine: Machine,
    pub form: Form,
}

// A newline, where there is one.
fn put_new_line(page: &mut Page<'_>, there: bool)
    ensures { Put page.old (if there then 10 ∷ [] else []) page.new }
{
    if there {
        page.put(b'\n');
    }
}

// What stands before an item.
fn put_before(page: &mut Page<'_>, b: Before)
    ensures { Put page.old (before_bytes b) page.new }
{
    put_break(page, b.waiting);
    put_new_line(page, b.new_line);
    page.put_spaces(b.spaces);
}

// An anchor around nothing.
fn put_empty_anchor(page: &mut Page<'_>, is_def: bool, name: &[u8])
    ensures { Put page.old (shown Form.Html (own (LineOp.EmptyAnchor is_def) name.now)) page.new }
{
    put_open_anchor(page, is_def, name);
    put_close_anchor(page);
}

// In HTML: the tags of a mark. Both modes have the same. It is long, and stays out of `put_mark`, which is short and runs for every mark.
#[inline(never)]
fn put_html(page: &mut Page<'_>, op: LineOp, text: &[u8])
    requires { op ≡ LineOp.AppendToLine → ⊥ }
    ensures { Put page.old (shown Form.Html (own op text.now)) page.new }
{
    // a `match` over an enum's cases: each says something of its own, and a table of closures would be no plainer
    match op {
        LineOp::PushIndent => {}
        LineOp::PopIndent => {}
        LineOp::PushStyles => put_open_tag(page, read_styles(text)),
        LineOp::PopStyles => put_close_tag(page, read_styles(text)),
        LineOp::PushAnchor { is_def } => put_open_anchor(page, is_def, text),
        LineOp::PopAnchor => put_close_anchor(page),
        LineOp::EmptyAnchor { is_def } => put_empty_anchor(page, is_def, text),
        LineOp::AppendToLine => {}
        LineOp::StartNewLine => {}
        LineOp::BreakIfWithinLine(_) => {}
    }
}

// A mark's tags, of which nothing shows on a plain page. A `match`, here and below, as in `put_html`.
fn put_mark(page: &mut Page<'_>, form: Form, op: LineOp, text: &[u8])
    requires { op ≡ LineOp.AppendToLine → ⊥ }
    ensures { Put page.old (shown form (own op text.now)) page.new }
{
    match form {
        Form::Plain => {}
        _ => put_html(page, op, text),
    }
}

// A part in strict mode. It is long, and stays out of `put_part`, which is short and runs for every part.
#[inline(never)]
fn put_strictly(page: &mut Page<'_>, text: &[u8])
    ensures { Put page.old (shown Form.Strict (copies text.now)) page.new }
{
    put_strict(page, text);
}

// A part's bytes: as they are, or escaped.
fn put_part(page: &mut Page<'_>, form: Form, text: &[u8])
    ensures { Put page.old (shown form (copies text.now)) page.new }
{
    match form {
        Form::Plain => page.put_bytes(text),
        Form::Html => put_escaped(page, text),
        Form::Strict => put_strictly(page, text),
    }
}

// What an operation itself shows: a part's bytes, or a mark's tags.
fn put_own(page: &mut Page<'_>, form: Form, op: LineOp, text: &[u8])
    ensures { Put page.old (shown form (own op text.now)) page.new }
{
    match op {
        LineOp::AppendToLine => put_part(page, form, text),
        _ => put_mark(page, form, op, text),
    }
}

// One operation; the bytes it is about stand beside it.
pub fn interpret(pen: &mut Pen<'_>, op: LineOp, text: &[u8])
    requires { indent_of pen.old < 2 ^ 15 }
    ensures { Interpreted op text.now pen.old pen.new }
{
    let s = step(pen.machine, op, text);
    put_before(&mut pen.page, s.before);
    put_own(&mut pen.page, pen.form, op, text);
    pen.machine = s.machine;
}

// One operation that opens or closes a style or an anchor. On a plain page, on a line with text where no break waits, nothing stands before it
// either.
pub fn interpret_mark(pen: &mut Pen<'_>, op: LineOp, text: &[u8])
    requires { IsMark op }
    ensures { Interpreted op text.now pen.old pen.new }
{
    if nothing_shows(pen.form, &pen.machine) {
        return;
    }
    put_ready(&mut pen.page, &pen.machine);
    put_mark(&mut pen.page, pen.form, op, text);
    let line = line_ready(&pen.machine);
    on_line(&mut pen.machine, line);
}

// A part of a text that has bytes.
fn begin_part(pen: &mut Pen<'_>, text: &[u8])
    requires { 0 < length text.now }
    ensures { Interpreted LineOp.AppendToLine text.now pen.old pen.new }
{
    put_ready(&mut pen.page, &pen.machine);
    put_part(&mut pen.page, pen.form, text);
    on_line(&mut pen.machine, LineState::HasText);
}

// A part of a text. On a plain page, on a line with text where no break waits, its bytes are all that shows; without bytes it does nothing.
pub fn interpret_part(pen: &mut Pen<'_>, text: &[u8])
    ensures { Interpreted LineOp.AppendToLine text.now pen.old pen.new }
{
    if nothing_shows(pen.form, &pen.machine) {
        return pen.page.put_bytes(text);
    }
    if text.is_empty() {
        return;
    }
    begin_part(pen, text);
}

// A part that has bytes, on a plain page.
#[inline(always)]
pub fn plain_part(pen: &mut Pen<'_>, text: &[u8])
    requires { (form pen.old ≡ Form.Plain) × (0 < length text.now) }
    ensures { Interpreted LineOp.AppendToLine text.now pen.old pen.new }
{
    put_ready(&mut pen.page, &pen.machine);
    pen.page.put_bytes(text);
    on_line(&mut pen.machine, LineState::HasText);
}

// A new line. A break that waits is dropped.
pub fn begin_line(pen: &mut Pen<'_>)
    ensures { Interpreted LineOp.StartNewLine [] pen.old pen.new }
{
    pen.page.put(b'\n');
    on_line(&mut pen.machine, LineState::Empty);
}

// A part of a text on an empty line: only the indent stands before it.
pub fn line_part(pen: &mut Pen<'_>, text: &[u8])
    requires { Fresh (machine pen.old) }
    ensures { Interpreted LineOp.AppendToLine text.now pen.old pen.new }
{
    if text.is_empty() {
        return;
    }
    put_indent(&mut pen.page, pen.machine.indent);
    put_part(&mut pen.page, pen.form, text);
    on_line(&mut pen.machine, LineState::HasText);
}

// A break waits, unless one waits that is as much, or it does not count. Here and below only the part of the machine is written that the operation may change: to write
// the whole of it took a quarter more instructions for the page of a block of empty fragments.
pub fn broken(pen: &mut Pen<'_>, b: Break)
    ensures { Rendered (break (break_of b) ∷ []) pen.old pen.new }
{
    pen.machine.waiting = break_if_within_line(pen.machine, b).waiting;
}

// The indent is one level deeper.
pub fn deeper(pen: &mut Pen<'_>)
    requires { indent_of pen.old < 2 ^ 15 }
    ensures { Ran (indent ∷ []) pen.old pen.new }
{
    pen.machine.indent = push_indent(pen.machine).indent;
}

// It is one level less.
pub fn less_deep(pen: &mut Pen<'_>)
    ensures { Ran (unindent ∷ []) pen.old pen.new }
{
    pen.machine.indent = pop_indent(pen.machine).indent;
}
