//! The records that a listing names.

use crate::meeting::NOBODY;
use crate::played::{Run, play};
use crate::told::{Which, starts_told};
use segment_disk::MemDisk;
use std::alloc::Global;
use std::sync::Wait;
use std::test::Fail;
use std::thread::Threads;
use wal_types::Lsn;

/// A listing of all records.
pub const DUMP: [&str; 3] = ["dump", "--seg", "1048576"];

const DUMP_OF_COMMITS: [&str; 5] = ["dump", "--seg", "1048576", "--rmgr", "transaction"];

// Where a record's start stands in its line: what is before it has the same width in each.
const START: usize = 69;

const START_END: usize = 79;

/// The records that a listing has, of these that start here, if they are the first ones.
pub fn front_listed<'a>(listing: &[u8], starts: &'a [Lsn]) -> Option<&'a [Lsn]> {
    let mut count = 0usize;
    for line in listing.split(|byte| *byte == b'\n') {
        if !line.is_empty() {
            let start = starts.get(count)?;
            if line.get(START..START_END)? != start.text().as_bytes() {
                return None;
            }
            count = count.wrapping_add(1);
        }
    }
    starts.get(..count)
}

/// Whether records that are durable are among these.
pub fn has_all(found: &[Lsn], durable: &[Lsn]) -> bool {
    for start in durable {
        if !found.contains(start) {
            return false;
        }
    }
    true
}

// Whether a disk's log comes to a clean end, and a command lists just the records that start here;
// and the disk.
fn lists<R: Threads + Wait + Sync>(
    rt: &R,
    alloc: Global,
    words: &[&str],
    disk: MemDisk,
    starts: &[Lsn],
) -> Result<(bool, MemDisk), Fail> {
    let dumped = play(rt, alloc, words, Vec::new(alloc), disk, NOBODY)?;
    let is_just_these = front_listed(dumped.out.taken(), starts) == Some(starts);
    Ok((is_just_these && dumped.status == 0, dumped.disk))
}

/// Whether a run's records are listed where they were told, and as transactions just those of the
/// commits.
pub fn is_listed<R: Threads + Wait + Sync>(rt: &R, alloc: Global, run: Run) -> Result<bool, Fail> {
    let all = starts_told(alloc, &run.told, Which::All)?;
    let commits = starts_told(alloc, &run.told, Which::Commits)?;
    let (is_whole, disk) = lists(rt, alloc, &DUMP, run.disk, &all)?;
    let (has_commits, _) = lists(rt, alloc, &DUMP_OF_COMMITS, disk, &commits)?;
    Ok(is_whole && has_commits)
}
