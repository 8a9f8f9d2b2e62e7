//! Schedules from text.

ghost use Rattle.std.specs.Prelude.{◌≡◌, IfOk, IfErr, map};
ghost use Rattle.std.specs.Str.Lines.{lines};
ghost use Rattle.replay.specs.Schedules.{AreLines, IsFaultOfRows};

use crate::line::{Line, MOST_STEPS};
use crate::row::{ScheduleRow, read_row};
use std::alloc::{AllocError, Allocator};
use thiserror::Error;

/// Why a schedule is refused.
#[derive(Clone, Copy, PartialEq, Eq, Debug, Error)]
pub enum ScheduleFault {
    /// Memory was refused.
    #[error("out of memory")]
    OutOfMemory,
    /// The line of this number, counted from 1, is no line of a schedule.
    #[error("bad schedule line")]
    BadLine(usize),
    /// The counts of the schedule's lines are more than 1,048,576, added.
    #[error("schedule too long")]
    TooLong,
}

impl ScheduleFault {
    ghost use Rattle.replay.specs.Schedules.{fault_number};

    /// The fault's number: 0, 80 or 81.
    pub fn number(self) -> u32
        ensures { result ≡ fault_number self }
    {
        match self {
            ScheduleFault::OutOfMemory => 0,
            ScheduleFault::BadLine(_) => 80,
            ScheduleFault::TooLong => 81,
        }
    }
}

/// The rows of a text: a row ends with LF or with CR and LF, the last one with the text.
fn rows<A: Allocator>(alloc: A, text: &str) -> Result<Vec<&str, A>, AllocError>
    ensures { IfOk result (λ v. map (λ row. row.now) v.items ≡ lines text.now) }
{
    text.lines().collect(alloc)
}

/// The lines of rows.
fn read_rows<A: Allocator + Copy>(alloc: A, rows: &[&str]) -> Result<Vec<Line, A>, ScheduleFault>
    ensures lines { IfOk result (λ v. AreLines (map (λ row. row.now) rows.now) v.items) }
    ensures fault { IfErr result (λ e. IsFaultOfRows (map (λ row. row.now) rows.now) e) }
{
    let mut found = Vec::new(alloc);
    let mut left = MOST_STEPS;
    'rows: for at in 0..rows.len() {
        match read_row(rows[at].as_bytes()) {
            ScheduleRow::Blank => {}
            ScheduleRow::Bad => return Err(ScheduleFault::BadLine(at + 1)),
            ScheduleRow::Steps(line) => {
                if line.count > left {
                    return Err(ScheduleFault::TooLong);
                }
                left -= line.count;
                let Ok(()) = found.push(line) else {
                    return Err(ScheduleFault::OutOfMemory);
                };
            }
        }
    }
    Ok(found)
}

/// The lines of a schedule, each `T COUNT` or `T aCOUNT` in decimal digits: COUNT steps of thread T, or its steps up to
/// so many further accesses to the lock or a cell. Spaces part the two and may stand round them; a row of spaces is no
/// line. Of the lines that are none and of those with which the counts become too many, the first is the fault.
pub fn read_schedule<A: Allocator + Copy>(
    alloc: A,
    text: &str,
) -> Result<Vec<Line, A>, ScheduleFault>
    ensures lines { IfOk result (λ v. AreLines (lines text.now) v.items) }
    ensures fault { IfErr result (λ e. IsFaultOfRows (lines text.now) e) }
{
    let Ok(rows) = rows(alloc, text) else {
        return Err(ScheduleFault::OutOfMemory);
    };
    read_rows(alloc, rows.as_slice())
}
