//! The script of a run: several backends, and its log writer behind them.

ghost use Rattle.std.specs.Prelude.{◌≡◌, ◌+◌, ◌≤◌, IfOk, List, length};
ghost use Rattle.run_script.specs.Asked.{AskedLine};
ghost use Rattle.run_script.specs.Bodies.{AreLinesOf};
ghost use Rattle.run_script.specs.ReplayReading.{AreBackendsOf};
ghost use Rattle.run_script.specs.Run.{last_line, run_meaning, with_log_writer, writer_lines};
ghost use Rattle.run_script.specs.RunReading.{GivesRun};

use crate::backends::{MOST_BACKENDS, read_backends};
use crate::line::{Action, Line, Refusal, ScriptFault};
use crate::parser::{ParseError, SCRIPT_LIMIT, line_feeds, within_limit};
use bumpalo::Bump;
use std::alloc::{AllocError, Global};

/// Reads the script of a run: the lines of each backend, parted by lines `B`; or its first refusal,
/// by line and then by field from the left. There are from 1 to 64 backends. A line `S` is no line
/// of a run. The bodies of the records lie in the arena, with their bytes.
///
/// Where the run has a log writer, its lines stand last, as many as are asked for: each flushes
/// behind. It is a backend more, and refused at the script's last line where the script has 64.
///
/// `script` is what was read, at most one byte beyond the limit: a longer script is refused at the
/// line of that byte.
pub fn parse_run<'a>(
    alloc: Global,
    arena: &'a Bump,
    script: &[u8],
    writer: Option<u32>,
) -> Result<Vec<Vec<Line<'a>>>, ParseError>
    requires { length script.now ≤ SCRIPT_LIMIT + 1 }
    ensures { GivesRun result (run_meaning writer script.now) }
{
    within_limit(script)?;
    let backends = read_backends(alloc, Some(arena), script, false)?.lines;
    match writer {
        Some(count) => add_writer(alloc, backends, count, last_line(script)),
        None => Ok(backends),
    }
}

// The number of a script's last line.
fn last_line(script: &[u8]) -> u32
    requires { length script.now ≤ SCRIPT_LIMIT }
    ensures { result ≡ last_line script.now }
{
    line_feeds(script) + 1
}

// A writer's lines behind those of all backends; or, where there are as many as may be, its
// refusal at this line.
fn add_writer<'a>(
    alloc: Global,
    mut backends: Vec<Vec<Line<'a>>>,
    count: u32,
    line: u32,
) -> Result<Vec<Vec<Line<'a>>>, ParseError>
    ensures { (asked : List (List AskedLine)) → AreBackendsOf asked backends.entry.items
        → GivesRun result (with_log_writer count line asked) }
{
    if backends.len() >= MOST_BACKENDS {
        return Err(ParseError::Refused(Refusal {
            line,
            fault: ScriptFault::Backends,
        }));
    }
    backends.push(writer_lines(alloc, count)?)?;
    Ok(backends)
}

// The lines of a writer, numbered from 1.
fn writer_lines<'a>(alloc: Global, count: u32) -> Result<Vec<Line<'a>>, AllocError>
    ensures { IfOk result (λ lines. AreLinesOf (writer_lines count) lines.items) }
{
    let mut lines = Vec::new(alloc);
    for index in 0..count {
        lines.push(Line {
            number: index + 1,
            action: Action::WriteBehind,
        })?;
    }
    Ok(lines)
}
