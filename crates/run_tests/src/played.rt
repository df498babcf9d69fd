//! A command played over a disk in memory, with backends that wait for each other.

use crate::meeting::{Awaited, Meeting, MeetingDisk};
use backend_cli::{Ended, ToldLists, pgwal};
use segment_disk::{MemDisk, MemSink, MemSource};
use std::alloc::Global;
use std::sync::Wait;
use std::test::Fail;
use std::thread::Threads;

/// How a command ended, and what it printed.
#[derive(Drop)]
pub struct Run {
    pub status: u8,
    pub told: ToldLists,
    pub disk: MemDisk,
    pub out: MemSink,
    /// Whether somebody went on without those that it waited for.
    pub was_missed: bool,
    /// The last lines that passed the gate, and which one passed last before each of the disk's
    /// last calls, and of which kind that was: a byte for each, the last one lowest.
    pub passed: u64,
    pub lines: u64,
    pub kinds: u64,
}

/// A disk that holds nothing, with room for so many segments and 500 counted calls, which fails at
/// these of them.
pub fn disk_of(alloc: Global, segments: u32, fail: &[u64]) -> Result<MemDisk, Fail> {
    let failing = Vec::from_slice(alloc, fail)?;
    Ok(MemDisk::new(alloc, segments, 500, failing, Vec::new(alloc))?)
}

/// The words of a command line, behind the program's name.
pub fn words_of(alloc: Global, words: &[&str]) -> Result<Vec<String>, Fail> {
    let mut given = Vec::new(alloc);
    given.push(String::from_str(alloc, "pgwal")?)?;
    for word in words {
        given.push(String::from_str(alloc, word)?)?;
    }
    Ok(given)
}

// How many bytes a command may print: a record of a segment has two megabytes of digits.
const OUT_ROOM: usize = 2_200_000;

/// Plays a command over a script, whose backends and syncs wait for each other.
pub fn play<R: Threads + Wait + Sync>(
    rt: &R,
    alloc: Global,
    words: &[&str],
    script: Vec<u8>,
    disk: MemDisk,
    awaited: Awaited,
) -> Result<Run, Fail> {
    let words = words_of(alloc, words)?;
    let mut source = MemSource::new(script, Vec::new(alloc));
    let mut out = MemSink::new(alloc, OUT_ROOM, Vec::new(alloc))?;
    let mut err = MemSink::new(alloc, 1024, Vec::new(alloc))?;
    let meeting = Meeting::new(awaited);
    let disk = MeetingDisk {
        disk,
        meeting: &meeting,
        lines: 0,
        kinds: 0,
    };
    let ended = pgwal(
        rt,
        alloc,
        &words,
        &mut source,
        disk,
        &mut out,
        &mut err,
        &meeting,
    );
    let Ended { status, disk, told } = ended;
    Ok(Run {
        status,
        told,
        lines: disk.lines,
        kinds: disk.kinds,
        disk: disk.disk,
        out,
        was_missed: meeting.was_missed(),
        passed: meeting.passed(),
    })
}
