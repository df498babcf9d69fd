//! The lines of several backends, parted by lines `B`, up to the script's end, or up to a line `S`
//! where it takes a schedule.

ghost use Rattle.std.specs.Prelude.{◌≡◌, [], ◌+◌, ◌≤◌, IfOk, length, nat_lt};
ghost use Rattle.run_script.specs.Replay.{backend_line_with, backends_from, begin_fault, is_of_runs, most_backends, of_backend, script_line_of, script_line_with};
ghost use Rattle.run_script.specs.ReplayReading.{GivesBackends, HasReadBackends, StepGives};
ghost use Rattle.run_script.specs.Text.{lines_of};

use crate::fields::no_more;
use crate::line::{Line, ScriptFault};
use crate::line_error::LineError;
use crate::parser::{ParseError, SCRIPT_LIMIT, line_by};
use crate::records::insert;
use crate::rooms::LinesRead;
use bumpalo::Bump;
use cli_text::{Parts, cut};
use std::alloc::Global;
use std::mem;

/// How many backends a script may have.
pub(crate) const MOST_BACKENDS: usize = 64;

/// What stands behind a line `S`.
#[derive(Clone, Copy)]
pub(crate) struct ScheduleText<'a> {
    /// The number of that line.
    pub number: u32,
    /// None where the script ends with that line.
    pub text: Option<&'a [u8]>,
}

/// What was read of a script up to a line `S`, or up to its end where it has none.
#[derive(Drop)]
pub(crate) struct Backends<'a, 'b> {
    /// The lines of each backend.
    pub lines: Vec<Vec<Line<'a>>>,
    pub schedule: Option<ScheduleText<'b>>,
}

/// What one line does.
#[derive(Clone, Copy)]
enum LineRead {
    /// It is one of the backend under way, and read.
    Within,
    /// The next backend begins, if no field stands behind the letter.
    Begin { is_alone: bool },
    /// The backends end.
    End,
}

/// The lines of each backend, and where the schedule stands, if the script takes one; or its first
/// refusal.
pub(crate) fn read_backends<'a, 'b>(
    alloc: Global,
    arena: Option<&'a Bump>,
    script: &'b [u8],
    takes_schedule: bool,
) -> Result<Backends<'a, 'b>, ParseError>
    requires { length script.now ≤ SCRIPT_LIMIT }
    ensures read { GivesBackends result
        (backends_from takes_schedule 1 [] [] (lines_of script.now)) }
    ensures within { IfOk result (HasReadBackends (length script.now)) }
{
    let mut read = LinesRead::new(alloc, arena);
    let mut before = Vec::new(alloc);
    let mut number = 0;
    let mut rest = Some(script);
    while let Some(text) = rest {
        let (line, behind) = cut(text, b'\n');
        rest = behind;
        number += 1;
        match read_line(alloc, &mut read, number, line, takes_schedule) {
            Err(cause) => return Err(cause.at(number)),
            Ok(LineRead::Within) => {}
            Ok(LineRead::Begin { is_alone }) => {
                if let Some(fault) = begin_fault(before.len() + 1, is_alone) {
                    return Err(LineError::Fault(fault).at(number));
                }
                before.push(mem::replace(&mut read.lines, Vec::new(alloc)))?;
            }
            Ok(LineRead::End) => {
                before.push(read.lines)?;
                let schedule = Some(ScheduleText { number, text: rest });
                return Ok(Backends {
                    lines: before,
                    schedule,
                });
            }
        }
    }
    before.push(read.lines)?;
    Ok(Backends {
        lines: before,
        schedule: None,
    })
}

// Why the next backend does not begin behind so many.
fn begin_fault(backends: usize, is_alone: bool) -> Option<ScriptFault>
    ensures { result ≡ begin_fault (nat_lt backends most_backends) is_alone }
{
    if backends >= MOST_BACKENDS {
        Some(ScriptFault::Backends)
    } else if is_alone {
        None
    } else {
        Some(ScriptFault::Count)
    }
}

// What a line does. Most insert a record.
#[inline(always)]
fn read_line<'a>(
    alloc: Global,
    read: &mut LinesRead<'a>,
    number: u32,
    line: &[u8],
    takes_schedule: bool,
) -> Result<LineRead, LineError>
    ensures { StepGives number read.old.lines.items read.new.lines.items result
        (script_line_of takes_schedule line.now) }
{
    match line {
        [b'I', b' ', fields @ ..] => {
            insert(alloc, read, number, Parts::of(fields, b' '))?;
            Ok(LineRead::Within)
        }
        [] | [b'#', ..] => Ok(LineRead::Within),
        _ => read_fields(alloc, read, number, Parts::of(line, b' '), takes_schedule),
    }
}

// What a line does by its fields.
#[inline(never)]
fn read_fields<'a>(
    alloc: Global,
    read: &mut LinesRead<'a>,
    number: u32,
    mut fields: Parts,
    takes_schedule: bool,
) -> Result<LineRead, LineError>
    ensures { StepGives number read.old.lines.items read.new.lines.items result
        (script_line_with takes_schedule fields.entry) }
{
    match fields.next() {
        Some(b"B") => {
            let is_alone = fields.next().is_none();
            Ok(LineRead::Begin { is_alone })
        }
        Some(b"S") if takes_schedule => {
            no_more(fields)?;
            Ok(LineRead::End)
        }
        Some(word) => backend_line(alloc, read, number, word, fields, takes_schedule),
        None => Err(LineError::Fault(ScriptFault::Word)),
    }
}

// What a line of a backend does.
#[inline(always)]
fn backend_line<'a>(
    alloc: Global,
    read: &mut LinesRead<'a>,
    number: u32,
    word: &[u8],
    fields: Parts,
    takes_schedule: bool,
) -> Result<LineRead, LineError>
    ensures { StepGives number read.old.lines.items read.new.lines.items result
        (of_backend (backend_line_with takes_schedule word.now fields.entry)) }
{
    if takes_schedule && is_of_runs(word) {
        return Err(LineError::Fault(ScriptFault::Word));
    }
    line_by(alloc, read, number, word, fields)?;
    Ok(LineRead::Within)
}

// Whether a letter is one of runs alone.
#[inline(always)]
fn is_of_runs(word: &[u8]) -> bool
    ensures { result ≡ is_of_runs word.now }
{
    matches!(word, b"A" | b"L" | b"W")
}
