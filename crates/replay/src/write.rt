//! Schedules as text.

ghost use Rattle.std.specs.Prelude.{◌≡◌, ◌++◌, OnOk, IfOk, flat_map, string_bytes};
ghost use Rattle.std.specs.Str.Lines.{lines as lines_in};
ghost use Rattle.replay.specs.Schedules.{AreRows};
ghost use Rattle.replay.specs.inner.Written.{IsInBounds, line_text};

use crate::line::Line;
use itoa::Buffer;
use std::alloc::{AllocError, Allocator};

/// Adds the row that asks for the steps of a line.
fn push_line<A: Allocator>(text: &mut String<A>, line: Line) -> Result<(), AllocError>
    ensures text { OnOk result (string_bytes text.new ≡ string_bytes text.old ++ line_text line) }
    ensures bounds { IsInBounds line }
{
    text.push_str(Buffer::new().format(line.thread))?;
    text.push_str(" ")?;
    if line.accesses {
        text.push_str("a")?;
    }
    text.push_str(Buffer::new().format(line.count))?;
    text.push_str("\n")
}

/// A schedule of these lines: a row for each. An error comes only where a growth is refused.
pub fn write_schedule<A: Allocator>(alloc: A, lines: &[Line]) -> Result<String<A>, AllocError>
    ensures { IfOk result (λ s. AreRows (lines_in (string_bytes s)) lines.now) }
{
    let mut text = String::new(alloc);
    'lines: for line in lines {
        push_line(&mut text, *line)?;
    }
    Ok(text)
}
