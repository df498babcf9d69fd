ghost use Rattle.std.specs.Prelude.{◌≡◌, ◌+◌, ◌<◌, ◌≤◌, ◌==◌, ◌∷◌, IfErr, IfOk, codes, count_by, false, length};
ghost use Rattle.run_script.specs.Text.{is_text, lines_of};
ghost use Rattle.run_script.specs.declared.parser.ParseError.TheVariants.{Refused};
ghost use Rattle.run_script.specs.Meaning.{line_with, line_of, lines_meaning, backend_meaning, script_limit, script_too_long};
ghost use Rattle.run_script.specs.Reading.{ActionGives, GivesLines, LineGives};

use crate::fields::no_more;
use crate::line::{Action, Line, Refusal, ScriptFault};
use crate::line_error::LineError;
use crate::records::{commit, insert};
use crate::rooms::{LinesRead, Rooms};
use cli_text::Parts;
use std::alloc::{AllocError, AllocFailed, Global};
use wal_spelling::{Body, KeptBody};

/// How many bytes a script may have.
pub const SCRIPT_LIMIT: usize = 67_108_864;

/// Why a script was not read: memory, or its first refusal.
#[derive(Clone, Copy, Debug, PartialEq, Eq)]
pub enum ParseError {
    Memory,
    Refused(Refusal),
}

impl From<AllocError> for ParseError {
    ghost use Rattle.std.specs.Prelude.{◌≡◌};
    ghost use Rattle.run_script.specs.declared.parser.ParseError.TheVariants.{Memory};

    ghost from_gives = { λ _ e. e ≡ Memory };

    fn from(_e: AllocError) -> ParseError {
        ParseError::Memory
    }
}

impl<T: Drop> From<AllocFailed<T>> for ParseError {
    ghost use Rattle.std.specs.Prelude.{◌≡◌};
    ghost use Rattle.run_script.specs.declared.parser.ParseError.TheVariants.{Memory};

    ghost from_gives = { λ _ e. e ≡ Memory };

    fn from(_e: AllocFailed<T>) -> ParseError {
        ParseError::Memory
    }
}

/// Reads a script: the lines of its one backend, in order, or its first refusal, by line and then
/// by field from the left.
///
/// `script` is what was read, at most one byte beyond the limit: a longer script is refused at the
/// line of that byte.
pub fn parse(alloc: Global, script: &[u8]) -> Result<Vec<Line<'static>>, ParseError>
    requires { length script.now ≤ SCRIPT_LIMIT + 1 }
    ensures { GivesLines result (backend_meaning script.now) }
{
    within_limit(script)?;
    lines(alloc, script)
}

/// Refuses a script beyond its limit, at the line of its first byte too many.
pub(crate) fn within_limit(script: &[u8]) -> Result<(), ParseError>
    requires { length script.now ≤ SCRIPT_LIMIT + 1 }
    ensures above { IfErr result (λ error.
        (script_limit < length script.now) × (error ≡ Refused (script_too_long script.now))) }
    ensures within { IfOk result (λ _. length script.now ≤ script_limit) }
{
    if script.len() > SCRIPT_LIMIT {
        return Err(ParseError::Refused(Refusal {
            line: line_feeds(&script[..SCRIPT_LIMIT]) + 1,
            fault: ScriptFault::Length,
        }));
    }
    Ok(())
}

/// How many lines end within a text.
pub(crate) fn line_feeds(text: &[u8]) -> u32
    requires { length text.now ≤ SCRIPT_LIMIT }
    ensures count { result ≡ count_by (λ c. c == 10) text.now }
    ensures within { result ≤ length text.now }
{
    text.iter().filter(|&&byte| byte == b'\n').count() as u32
}

// The lines of a script within its limit.
fn lines(alloc: Global, script: &[u8]) -> Result<Vec<Line<'static>>, ParseError>
    requires { length script.now ≤ SCRIPT_LIMIT }
    ensures { GivesLines result (lines_meaning 1 (lines_of script.now)) }
{
    let mut read = LinesRead::new(alloc, None);
    let mut number = 0;
    for line in Parts::of(script, b'\n') {
        number += 1;
        if let Err(cause) = read_line(alloc, &mut read, number, line) {
            return Err(cause.at(number));
        }
    }
    Ok(read.lines)
}

// Reads a line: nothing is asked for where it is empty or a comment.
fn read_line<'a>(
    alloc: Global,
    read: &mut LinesRead<'a>,
    number: u32,
    line: &[u8],
) -> Result<(), LineError>
    ensures { LineGives number read.old.lines.items read.new.lines.items result
        (line_of line.now) }
{
    match line {
        [] | [b'#', ..] => Ok(()),
        _ => read_fields(alloc, read, number, Parts::of(line, b' ')),
    }
}

// Reads a line's fields; the first that is wrong, from the left, is its fault.
fn read_fields<'a>(
    alloc: Global,
    read: &mut LinesRead<'a>,
    number: u32,
    mut fields: Parts,
) -> Result<(), LineError>
    ensures { LineGives number read.old.lines.items read.new.lines.items result
        (line_with fields.entry) }
{
    match fields.next() {
        Some(word) => line_by(alloc, read, number, word, fields),
        None => Err(LineError::Fault(ScriptFault::Word)),
    }
}

/// Reads a line by its first field and those behind it.
#[inline(always)]
pub(crate) fn line_by<'a>(
    alloc: Global,
    read: &mut LinesRead<'a>,
    number: u32,
    word: &[u8],
    fields: Parts,
) -> Result<(), LineError>
    ensures { LineGives number read.old.lines.items read.new.lines.items result
        (line_with (word.now ∷ fields.entry)) }
{
    match word {
        b"I" => insert(alloc, read, number, fields),
        _ => other_line(alloc, read, number, word, fields),
    }
}

// Reads a line whose first field is not `I`.
#[inline(never)]
fn other_line<'a>(
    alloc: Global,
    read: &mut LinesRead<'a>,
    number: u32,
    word: &[u8],
    fields: Parts,
) -> Result<(), LineError>
    requires { is_text word.now (codes "I") ≡ false }
    ensures { LineGives number read.old.lines.items read.new.lines.items result
        (line_with (word.now ∷ fields.entry)) }
{
    let action = other_action(alloc, &mut read.rooms, word, fields)?;
    read.push(number, action)?;
    Ok(())
}

// What such a line asks for.
fn other_action<'a>(
    alloc: Global,
    rooms: &mut Rooms<'a>,
    word: &[u8],
    fields: Parts,
) -> Result<Action<'a>, LineError>
    requires { is_text word.now (codes "I") ≡ false }
    ensures { ActionGives result (line_with (word.now ∷ fields.entry)) }
{
    match word {
        b"C" => Ok(Action::Commit(commit(alloc, rooms, fields)?)),
        b"F" => {
            no_more(fields)?;
            Ok(Action::Flush)
        }
        b"A" => Ok(Action::CommitAsync(commit(alloc, rooms, fields)?)),
        b"L" => {
            no_more(fields)?;
            Ok(Action::WriteBehind)
        }
        b"W" => {
            no_more(fields)?;
            let body = KeptBody::boxed(alloc, Body::switch(alloc))?;
            Ok(Action::Switch(body))
        }
        b"B" => Err(LineError::Fault(ScriptFault::Backends)),
        _ => Err(LineError::Fault(ScriptFault::Word)),
    }
}
