ghost use Rattle.std.specs.Prelude.{◌+◌, ◌<◌, ◌^◌, ◌==◌, length};
ghost use Rattle.run_script.specs.ScheduleMeaning.{schedule_of};
ghost use Rattle.run_script.specs.ScheduleReading.{GivesItems};

use crate::schedule::{Schedule, ScheduleError};
use cli_text::Parts;
use std::alloc::Global;

/// Reads the schedule of a replay for so many backends: its items in order, or the first that is
/// refused.
///
/// `bytes` are those of the script behind its line `S`; `first_line` is the number of the line that
/// they begin with, counted as the script's lines are, from 1; the numbers of all lines fit 32
/// bits. It takes one step for each item, not for each turn.
pub fn parse_schedule(
    alloc: Global,
    bytes: &[u8],
    first_line: u32,
    backends: u32,
) -> Result<Schedule, ScheduleError>
    requires { first_line + length bytes.now + 1 < 2 ^ 32 }
    ensures { GivesItems (λ schedule. schedule) result (schedule_of backends first_line bytes.now) }
{
    let mut schedule = Schedule::empty(alloc);
    let mut number = first_line;
    for text in Parts::of(bytes, b'\n') {
        schedule.add_line(number, text, backends)?;
        number += 1;
    }
    Ok(schedule)
}
