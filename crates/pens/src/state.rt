// The line machine of a pen and the form: what is asked of them, and what an operation makes of the machine.

#![tactic(auto, unfolding(crate::specs::States::quiet, crate::specs::States::plain, crate::specs::States::has_text, crate::specs::States::none_waits, crate::specs::States::at_margin, crate::specs::States::line_then, crate::specs::States::line_ready, crate::specs::States::on_line, rules::specs::Lines::release, rules::specs::Lines::spacing, lines::specs::Said::line_of, lines::specs::Said::waiting_of, lines::specs::Said::break_of, lines::specs::Said::machine_of))]

ghost use Rattle.std.specs.Prelude.{◌≡◌, true};
ghost use Rattle.rules.specs.Bytes.{newline};
ghost use Rattle.rules.specs.Lines.{text_ops, start, after};
ghost use Rattle.lines.specs.Said.{line_of, machine_of};
ghost use Rattle.pens.specs.declared.state.Form.TheVariants as Form;
ghost use Rattle.pens.specs.States.{quiet, at_margin, line_then, line_ready, on_line};

use lines::{Break, LineState, Machine};

// How items are shown: texts alone, or texts escaped and marks as tags; in strict mode a CR is escaped too.
#[derive(Debug, Clone, Copy, PartialEq, Eq)]
pub enum Form {
    Plain,
    Html,
    Strict,
}

// The form is the plain one.
pub fn is_plain(form: Form) -> bool
    ensures { result ≡ true → form ≡ Form.Plain }
{
    form == Form::Plain
}

// A plain page, a line with text, and no break that waits.
pub fn nothing_shows(form: Form, m: &Machine) -> bool
    ensures { result ≡ quiet form (machine_of m.now) }
{
    match (form, m.line, m.waiting) {
        (Form::Plain, LineState::HasText, None) => true,
        _ => false,
    }
}

// A plain page, and no indent. A `match` over the forms, as in `pen`.
pub fn plain_at_margin(form: Form, m: &Machine) -> bool
    ensures { result ≡ at_margin form (machine_of m.now) }
{
    match form {
        Form::Plain => m.indent == 0,
        _ => false,
    }
}

// The machine that a text leaves which begins an empty line at the margin: its last byte says whether the line has text.
pub fn machine_behind(v: &[u8]) -> Machine
    ensures { machine_of result ≡ after start (text_ops newline v.now) }
{
    let line = match v {
        [] => LineState::Empty,
        [.., last] => {
            if *last == b'\n' {
                LineState::Empty
            } else {
                LineState::HasText
            }
        }
    };
    Machine {
        indent: 0,
        line,
        waiting: None,
    }
}

// The line once the waiting break is written: a newline empties it.
pub fn line_then(m: &Machine) -> LineState
    ensures { line_of result ≡ line_then (machine_of m.now) }
{
    match m.waiting {
        Some(Break::NewLine) => LineState::Empty,
        _ => m.line,
    }
}

// The line before a part or a mark: it has text, or is brought to the indent.
pub fn line_ready(m: &Machine) -> LineState
    ensures { line_of result ≡ line_ready (machine_of m.now) }
{
    match line_then(m) {
        LineState::HasText => LineState::HasText,
        _ => LineState::Indented(m.indent),
    }
}

// Another line, where no break waits.
pub fn on_line(m: &mut Machine, line: LineState)
    ensures { machine_of m.new ≡ on_line (machine_of m.old) (line_of line) }
{
    m.line = line;
    m.waiting = None;
}
