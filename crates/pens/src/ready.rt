// What stands before a part or a mark: the break that waits, then what brings a line without text to the indent.

#![tactic(auto, unfolding(crate::specs::States::waiting_bytes, crate::specs::States::levels_bytes, crate::specs::States::line_bytes, lines::specs::Said::waiting_of, lines::specs::Said::break_of, lines::specs::Said::line_of))]

ghost use Rattle.std.specs.Prelude.{◌≡◌, ◌*◌, replicate};
ghost use Rattle.writing.specs.Written.{Put};
ghost use Rattle.lines.specs.Said.{line_of, waiting_of, machine_of};
ghost use Rattle.pens.specs.States.{waiting_bytes, levels_bytes, line_bytes, ready_bytes};

use crate::state::line_then;
use lines::{Break, LineState, Machine};
use writing::Page;

// A break that waits.
pub(crate) fn put_break(page: &mut Page<'_>, waiting: Option<Break>)
    ensures { Put page.old (waiting_bytes (waiting_of waiting)) page.new }
{
    match waiting {
        None => {}
        Some(Break::Space) => page.put(b' '),
        Some(Break::NewLine) => page.put(b'\n'),
    }
}

// The spaces of some levels. The product saturates where no page would hold it.
pub(crate) fn put_indent(page: &mut Page<'_>, levels: usize)
    ensures { Put page.old (replicate (2 * levels) 32) page.new }
{
    page.put_spaces(levels.saturating_mul(2));
}

// From k levels to the indent: a line that has too many is left for a new one. It is long, and stays out of `put_ready`, which is short and runs for every text.
#[inline(never)]
fn put_from(page: &mut Page<'_>, k: usize, indent: usize)
    ensures { Put page.old (levels_bytes k indent) page.new }
{
    if k <= indent {
        return put_indent(page, indent - k);
    }
    page.put(b'\n');
    put_indent(page, indent);
}

// A line without text is brought to the indent.
fn put_levels(page: &mut Page<'_>, line: LineState, indent: usize)
    ensures { Put page.old (line_bytes indent (line_of line)) page.new }
{
    match line {
        LineState::Empty => {
            // at the margin, where most lines of many a page begin, nothing is owed
            if 0 < indent {
                put_from(page, 0, indent);
            }
        }
        LineState::Indented(k) => put_from(page, k, indent),
        LineState::HasText => {}
    }
}

// Both. It is put into each of its callers, for a text mostly has nothing before it, or one byte.
#[inline(always)]
pub fn put_ready(page: &mut Page<'_>, m: &Machine)
    ensures { Put page.old (ready_bytes (machine_of m.now)) page.new }
{
    put_break(page, m.waiting);
    put_levels(page, line_then(m), m.indent);
}
