//! The script of a replay: several backends, and a schedule.

ghost use Rattle.std.specs.Prelude.{◌+◌, ◌≤◌, IfSome, length};
ghost use Rattle.cli_text.specs.Parts.{bytes_left};
ghost use Rattle.run_script.specs.Replay.{replay_meaning, schedule_with};
ghost use Rattle.run_script.specs.ReplayReading.{GivesReplay, GivesSchedule, schedule_lines};

use crate::backends::{ScheduleText, read_backends};
use crate::line::{Line, Refusal, ScriptFault};
use crate::parser::{ParseError, SCRIPT_LIMIT, within_limit};
use crate::schedule::{Schedule, ScheduleError};
use crate::schedule_parser::parse_schedule;
use std::alloc::Global;

/// What a replay does.
#[derive(Debug, Drop)]
pub struct Replay {
    /// The lines of each backend, in order; there are from 1 to 64 backends.
    pub backends: Vec<Vec<Line<'static>>>,
    /// Which backend has the next turns; each is there.
    pub schedule: Schedule,
}

impl From<ScheduleError> for ParseError {
    ghost use Rattle.std.specs.Prelude.{◌≡◌};
    ghost use Rattle.run_script.specs.ReplayReading.{schedule_error};

    ghost from_gives = { λ refusal e. e ≡ schedule_error refusal };

    fn from(refusal: ScheduleError) -> ParseError {
        match refusal {
            ScheduleError::Memory => ParseError::Memory,
            ScheduleError::Refused { line } => ParseError::Refused(Refusal {
                line,
                fault: ScriptFault::Schedule,
            }),
        }
    }
}

/// Reads the script of a replay: the lines of each backend, parted by lines `B`, and the schedule
/// behind a line `S`, which is empty without one; or its first refusal, by line and then by field
/// from the left. A refused item of the schedule is the fault `Schedule` at its line.
///
/// `script` is what was read, at most one byte beyond the limit: a longer script is refused at the
/// line of that byte.
pub fn parse_replay(alloc: Global, script: &[u8]) -> Result<Replay, ParseError>
    requires { length script.now ≤ SCRIPT_LIMIT + 1 }
    ensures { GivesReplay result (replay_meaning script.now) }
{
    within_limit(script)?;
    let read = read_backends(alloc, None, script, true)?;
    let schedule = read_schedule(alloc, read.schedule, read.lines.len() as u32)?;
    Ok(Replay {
        backends: read.lines,
        schedule,
    })
}

// The schedule for so many backends; it is empty where there is none.
fn read_schedule(
    alloc: Global,
    schedule: Option<ScheduleText>,
    backends: u32,
) -> Result<Schedule, ParseError>
    requires { IfSome schedule (λ s. s.number + bytes_left s.text ≤ SCRIPT_LIMIT + 1) }
    ensures { GivesSchedule result (schedule_with backends (schedule_lines schedule.entry)) }
{
    match schedule {
        Some(
            ScheduleText {
                number,
                text: Some(text),
            },
        ) => Ok(parse_schedule(alloc, text, number + 1, backends)?),
        _ => Ok(Schedule::empty(alloc)),
    }
}
