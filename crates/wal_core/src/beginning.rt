//! What a core begins with: a lane for each script, about nothing, at its first line; and how far
//! the log can come, with how many lines and flushes, by which the disk's room is taken before the
//! first turn.

ghost use Rattle.std.specs.Prelude.{◌≡◌, ◌+◌, ◌<◌, ◌≤◌, ◌^◌, All, IfOk, min, length};
ghost use Rattle.byte_position.specs.Position.{end_address_of};
ghost use Rattle.machine_state.specs.Words.{log_limit, log_start};
ghost use Rattle.machine_turns.specs.Scripts.{InsertsLogRecord, flushes_of_line, flushes_of_lines, rooms_of_lines};
ghost use Rattle.wal_core.specs.Cores.{first_lane, first_lanes, first_plain_view, flushes_of_scripts, lines_of_scripts, rooms_of_scripts};

use machine_state::LogShape;
use machine_turns::{
    PlainBackend, PlainDoing, PlainFlight, PlainHold, PlainLine, PlainPlace, PlainStage, PlainView,
    PlainWatching, Script,
};
use std::alloc::{AllocError, Global};

/// A lane for each script, whose passes have the numbers from 1 on.
pub(crate) fn lanes_of(
    alloc: Global,
    shape: &LogShape,
    scripts: Vec<Script>,
) -> Result<Vec<PlainBackend>, AllocError>
    requires few { length scripts.items < 65536 }
    ensures { IfOk result (λ lanes. lanes.items
        ≡ first_lanes shape.now.seg_size 1 scripts.items) }
{
    let mut lanes = Vec::with_capacity(alloc, scripts.len())?;
    let mut number = 1;
    for script in scripts {
        lanes.push(first_lane(shape, number, script))?;
        number += 1;
    }
    Ok(lanes)
}

// A backend that is about nothing, at its first line.
fn first_lane(shape: &LogShape, number: u32, script: Script) -> PlainBackend
    ensures { result ≡ first_lane shape.now.seg_size number script }
{
    let doing = match script.lines().first() {
        Some(PlainLine::Flush) => PlainDoing::FlushBegins,
        _ => PlainDoing::Begins,
    };
    PlainBackend {
        view: first_view(shape, number),
        script,
        copied: 0,
        answered: 0,
        doing,
    }
}

fn first_view(shape: &LogShape, number: u32) -> PlainView
    ensures { result ≡ first_plain_view shape.now.seg_size number }
{
    PlainView {
        number,
        place: PlainPlace::Free,
        seen: 0,
        last_end: shape.geometry().segment_size(),
        flight: PlainFlight::Landed,
        watching: PlainWatching {
            end: 0,
            visited: 0,
            bound: 0,
        },
        stage: PlainStage::Away,
        hold: PlainHold::Idle,
    }
}

/// The address that the log will not pass: where it ends once the records of all scripts are
/// written, or where it is full.
pub(crate) fn log_end(shape: &LogShape, scripts: &[Script]) -> u64
    // It is low, and no less than the log's start.
    ensures end { result ≡ end_address_of shape.now.seg_size
        (min (log_start shape.now + rooms_of_scripts scripts.now) (log_limit shape.now)) }
    ensures low { result < 2 ^ 45 }
    ensures begun { shape.now.seg_size ≤ result }
    ensures known { All (All InsertsLogRecord) scripts.now }
{
    let limit = shape.limit();
    let mut position = shape.start();
    for script in scripts {
        position = after_lines(position, script.lines(), limit);
    }
    shape.geometry().to_end_lsn(position).0
}

// More lines than any disk has room for.
const TOO_MANY_LINES: u64 = 1 << 32;

/// How many lines the scripts have, or too many.
pub(crate) fn line_count(scripts: &[Script]) -> u64
    ensures { result ≡ min (lines_of_scripts scripts.now) (2 ^ 32) }
{
    let mut count: u64 = 0;
    for script in scripts {
        let lines = script.lines().len() as u64;
        count = count.saturating_add(lines).min(TOO_MANY_LINES);
    }
    count
}

/// How many lines flush, or too many.
pub(crate) fn flush_count(scripts: &[Script]) -> u64
    ensures { result ≡ min (flushes_of_scripts scripts.now) (2 ^ 32) }
{
    let mut count: u64 = 0;
    for script in scripts {
        count = after_flushes(count, script.lines());
    }
    count
}

// A count, and the lines of these that flush; or too many.
fn after_flushes(count: u64, lines: &[PlainLine]) -> u64
    requires few { count ≤ 2 ^ 32 }
    ensures { result ≡ min (count + flushes_of_lines lines.now) (2 ^ 32) }
{
    let mut count = count;
    for line in lines {
        count = (count + flushes(line)).min(TOO_MANY_LINES);
    }
    count
}

fn flushes(line: &PlainLine) -> u64
    ensures { result ≡ flushes_of_line line.now }
{
    match line {
        PlainLine::Insert(_) => 0,
        PlainLine::Commit(_) | PlainLine::Flush => 1,
    }
}

// The byte position behind the records of some lines, at most where the log is full.
fn after_lines(position: u64, lines: &[PlainLine], limit: u64) -> u64
    requires within { position ≤ limit }
    requires low { limit < 2 ^ 43 }
    ensures position { result ≡ min (position + rooms_of_lines lines.now) limit }
    ensures known { All InsertsLogRecord lines.now }
{
    let mut position = position;
    for line in lines {
        position = (position + line.room()).min(limit);
    }
    position
}
