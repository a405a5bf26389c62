// The line machine: one line operation at a time, its state by value. It says what is written before an operation's own item, and writes
// nothing itself. A text, a style's fields and an anchor's name stand beside the operation.

// The definitions that each goal here is opened to, and the law of an operation with items of its own.
#![tactic(auto, using(crate::proofs::Steps::with_items), unfolding(crate::specs::Said::break_of, crate::specs::Said::line_of, crate::specs::Said::waiting_of, crate::specs::Said::machine_of, crate::specs::Said::break_bytes, crate::specs::Said::spacing_bytes, crate::specs::Said::brought_of, crate::specs::Said::operation, crate::specs::Said::own, rules::specs::Lines::start, rules::specs::Lines::target, rules::specs::Lines::levels, rules::specs::Lines::spacing, rules::specs::Lines::making, rules::specs::Lines::release, rules::specs::Lines::step, rules::specs::Lines::ignored, rules::specs::Lines::joined, rules::specs::Lines::broken))]

ghost use Rattle.std.specs.Prelude.{◌≡◌, [], ℕ, ◌<◌, ◌≤◌, ◌^◌};
ghost use Rattle.rules.specs.Lines as rules;
ghost use Rattle.lines.specs.Said.{line_of, waiting_of, break_of, machine_of, step_of, brought_of, break_bytes, copies, operation, own};

#[derive(Debug, Clone, Copy, PartialEq, Eq)]
pub enum Break {
    Space,
    NewLine,
}

#[derive(Debug, Clone, Copy, PartialEq, Eq)]
pub enum LineOp {
    PushIndent,
    PopIndent,
    PushStyles,
    PopStyles,
    PushAnchor { is_def: bool },
    PopAnchor,
    EmptyAnchor { is_def: bool },
    AppendToLine,
    StartNewLine,
    BreakIfWithinLine(Break),
}

#[derive(Debug, Clone, Copy, PartialEq, Eq)]
pub enum LineState {
    Empty,
    Indented(usize),
    HasText,
}

#[derive(Debug, Clone, Copy, PartialEq, Eq)]
pub struct Machine {
    pub indent: usize,
    pub line: LineState,
    pub waiting: Option<Break>,
}

// What is written before an item: the break that waited, a newline where the line has too many levels, spaces.
#[derive(Debug, Clone, Copy, PartialEq, Eq)]
pub struct Before {
    pub waiting: Option<Break>,
    pub new_line: bool,
    pub spaces: usize,
}

#[derive(Debug, Clone, Copy, PartialEq, Eq)]
pub struct Stepped {
    pub before: Before,
    pub machine: Machine,
}

// What brings a line to its target, and the line then.
#[derive(Debug, Clone, Copy, PartialEq, Eq)]
pub struct Brought {
    pub new_line: bool,
    pub spaces: usize,
    pub line: LineState,
}

pub fn start() -> Machine
    ensures { machine_of result ≡ rules.start }
{
    Machine {
        indent: 0,
        line: LineState::Empty,
        waiting: None,
    }
}

// The levels that an item wants: the indent, or 0 for an empty anchor (`bare`) on a line without levels.
fn target_indent(indent: usize, bare: bool, k: usize) -> usize
    ensures { (result ≡ rules.target indent bare k) × (result ≤ indent) }
{
    if bare && k == 0 { 0 } else { indent }
}

// From k levels to t: a line that has too many is left for a new one.
fn levels(k: usize, t: usize) -> Brought
    requires { t < 2 ^ 32 }
    ensures { brought_of result ≡ (rules.levels k t, rules.indented_by t) }
{
    let new_line = t < k;
    Brought {
        new_line,
        spaces: if new_line { 2 * t } else { 2 * (t - k) },
        line: LineState::Indented(t),
    }
}

// A line without text is brought to the target.
fn spacing(indent: usize, bare: bool, line: LineState) -> Brought
    requires { indent < 2 ^ 32 }
    ensures { brought_of result ≡ rules.spacing indent bare (line_of line) }
{
    match line {
        LineState::Empty => levels(0, target_indent(indent, bare, 0)),
        LineState::Indented(k) => levels(k, target_indent(indent, bare, k)),
        LineState::HasText => Brought {
            new_line: false,
            spaces: 0,
            line: LineState::HasText,
        },
    }
}

// The line once the waiting break is written: a newline empties it. `joined` is alike in shape alone: it answers a break.
fn released(waiting: Option<Break>, line: LineState) -> LineState
    ensures { line_of result ≡ (rules.release {X = ℕ} (waiting_of waiting) (line_of line)).1 }
{
    match waiting {
        Some(Break::NewLine) => LineState::Empty,
        _ => line,
    }
}

// Ready for an item: the waiting break, then the line brought to its target.
fn ready(m: Machine, bare: bool) -> Stepped
    requires { m.indent < 2 ^ 32 }
    ensures { step_of result [] ≡ rules.item (machine_of m) bare [] (λ l. l) }
{
    let s = spacing(m.indent, bare, released(m.waiting, m.line));
    Stepped {
        before: Before {
            waiting: m.waiting,
            new_line: s.new_line,
            spaces: s.spaces,
        },
        machine: Machine {
            line: s.line,
            waiting: None,
            ..m
        },
    }
}

// A step without an item: a break is written, or nothing.
fn without_item(written: Option<Break>, machine: Machine) -> Stepped
    ensures { step_of result [] ≡ (rules.making (break_bytes written), machine_of machine) }
{
    Stepped {
        before: Before {
            waiting: written,
            new_line: false,
            spaces: 0,
        },
        machine,
    }
}

// A part of a text: an empty one does nothing at all.
fn append_to_line(m: Machine, text: &[u8]) -> Stepped
    requires { m.indent < 2 ^ 32 }
    ensures { step_of result (copies text.now) ≡ rules.step (machine_of m) (rules.part text.now) }
{
    if text.is_empty() {
        return without_item(None, m);
    }
    Stepped {
        before: ready(m, false).before,
        machine: Machine {
            line: LineState::HasText,
            waiting: None,
            ..m
        },
    }
}

// A newline, which empties the line and drops the waiting break.
fn start_new_line(m: Machine) -> Stepped
    ensures { step_of result [] ≡ rules.step {X = ℕ} (machine_of m) rules.new_line }
{
    without_item(
        Some(Break::NewLine),
        Machine {
            line: LineState::Empty,
            waiting: None,
            ..m
        },
    )
}

// A break is ignored on an empty line or one with no more levels than the indent.
fn ignored(indent: usize, line: LineState) -> bool
    ensures { result ≡ rules.ignored indent (line_of line) }
{
    match line {
        LineState::Empty => true,
        LineState::Indented(k) => k <= indent,
        LineState::HasText => false,
    }
}

// A break joins the one that waits, newline winning over space.
fn joined(waiting: Option<Break>, b: Break) -> Break
    ensures { break_of result ≡ rules.joined (waiting_of waiting) (break_of b) }
{
    match waiting {
        Some(Break::NewLine) => Break::NewLine,
        _ => b,
    }
}

pub fn break_if_within_line(m: Machine, b: Break) -> Machine
    ensures { rules.step {X = ℕ} (machine_of m) (rules.break (break_of b)) ≡ ([], machine_of result) }
{
    if ignored(m.indent, m.line) {
        return m;
    }
    Machine {
        waiting: Some(joined(m.waiting, b)),
        ..m
    }
}

pub fn push_indent(m: Machine) -> Machine
    requires { m.indent < 2 ^ 32 }
    ensures { rules.step {X = ℕ} (machine_of m) rules.indent ≡ ([], machine_of result) }
{
    Machine {
        indent: m.indent + 1,
        ..m
    }
}

pub fn pop_indent(m: Machine) -> Machine
    ensures { rules.step {X = ℕ} (machine_of m) rules.unindent ≡ ([], machine_of result) }
{
    Machine {
        indent: m.indent.saturating_sub(1),
        ..m
    }
}

// One operation: what is written before its own item, and the machine afterwards.
pub fn step(m: Machine, op: LineOp, text: &[u8]) -> Stepped
    requires { m.indent < 2 ^ 32 }
    ensures { step_of result (own op text.now) ≡ rules.step (machine_of m) (operation op text.now) }
{
    // a `match` over an enum's cases: each says something of its own, and a table of closures would be no plainer
    match op {
        LineOp::PushIndent => without_item(None, push_indent(m)),
        LineOp::PopIndent => without_item(None, pop_indent(m)),
        LineOp::PushStyles => ready(m, false),
        LineOp::PopStyles => ready(m, false),
        LineOp::PushAnchor { .. } => ready(m, false),
        LineOp::PopAnchor => ready(m, false),
        LineOp::EmptyAnchor { .. } => ready(m, true),
        LineOp::AppendToLine => append_to_line(m, text),
        LineOp::StartNewLine => start_new_line(m),
        LineOp::BreakIfWithinLine(b) => without_item(None, break_if_within_line(m, b)),
    }
}
