//! Runs of several backends, and what each ends with.

use crate::listed::is_listed;
use crate::meeting::{Awaited, EIGHT, FOUR, HELD_SYNC, SHARED_SYNC, THREE, TWO};
use crate::played::{Run, disk_of, play};
use crate::told::count_told;
use backend_cli::Cause;
use segment_disk::Disk;
use std::alloc::Global;
use std::process::Abort;
use std::sync::Wait;
use std::test::Fail;
use std::thread::Threads;

/// Lines of a backend, and how often they stand in its script.
pub type Lines = (u32, &'static [u8]);

// Twenty records of 8,144 bytes.
const LONG_INSERTS: Lines = (20, b"I 1 10 00 8115*5a\n");

const ALL_KINDS: Lines = (2, b"I 1 10 00 9000*5a\nC 1 0\nF\n");

/// The number of no call.
pub const NO_CALL: u64 = 0;

/// A run of several backends, and what it ends with.
#[derive(Drop)]
pub struct Row {
    pub what: &'static str,
    pub words: &'static [&'static str],
    pub backends: &'static [Lines],
    pub awaited: Awaited,
    // How many segments the disk has room for.
    pub segments: u32,
    pub status: u8,
    // All that is printed, where it is the same however the backends work.
    pub out: Option<&'static [u8]>,
    // How many calls the disk counts, where it is the same however the backends work.
    pub calls: Option<u64>,
    // How many backends are told answers, and how many answers there are.
    pub told: (u32, usize),
    // Why lines are refused.
    pub refused: Option<Cause>,
}

/// Two backends that meet, on a ring of four pages and a disk with room for one segment.
pub const ROW: Row = Row {
    what: "",
    words: &["run", "--seg", "1048576", "--ring", "4"],
    backends: &[],
    awaited: TWO,
    segments: 1,
    status: 0,
    out: None,
    calls: None,
    told: (0, 0),
    refused: None,
};

static ROWS: &[Row] = &[
    Row {
        what: "two backends work side by side",
        backends: &[(1, b"C 1 0\n"), (1, b"C 2 0\n")],
        out: Some(b"records 2 commits 2 bytes 80 end 0/00100078 segments 1\n"),
        told: (2, 2),
        ..ROW
    },
    // The first record takes up more than seven pages. All records have their places where one
    // backend would have put them, but for their order.
    Row {
        what: "a record longer than the ring goes in beside commits",
        backends: &[(1, b"I 1 10 00 59971*ab\n"), (5, b"C 2 0\n")],
        out: Some(b"records 6 commits 5 bytes 60200 end 0/0010EBF8 segments 1\n"),
        told: (2, 6),
        ..ROW
    },
    Row {
        what: "records are inserted while a sync is under way",
        words: &["run", "--seg", "1048576", "--list"],
        backends: &[(1, b"C 1 0\n"), (1, b"I 2 10 00 aa\nI 2 10 00 bb\n")],
        awaited: HELD_SYNC,
        out: Some(
            b"0 1 hard 0/00100028 0/00100050 3\n\
              1 3 wrote 0/00100050 0/00100070\n\
              1 4 wrote 0/00100070 0/00100090\n\
              records 3 commits 1 bytes 104 end 0/00100090 segments 1\n",
        ),
        calls: Some(5),
        told: (2, 3),
        ..ROW
    },
    // Both records are copied before either flush begins. So both are told the moment of one sync,
    // behind the three calls of the first commit and one write.
    Row {
        what: "one sync serves two flushes",
        words: &["run", "--seg", "1048576", "--list"],
        backends: &[
            (1, b"C 1 0\n"),
            (1, b"I 2 10 00 aa\nF\n"),
            (1, b"I 3 10 00 bb\nF\n"),
        ],
        awaited: SHARED_SYNC,
        out: Some(
            b"0 1 hard 0/00100028 0/00100050 3\n\
              1 3 wrote 0/00100050 0/00100070\n\
              1 4 flushed 0/00100090 5\n\
              2 6 wrote 0/00100070 0/00100090\n\
              2 7 flushed 0/00100090 5\n\
              records 3 commits 1 bytes 104 end 0/00100090 segments 1\n",
        ),
        calls: Some(5),
        told: (3, 5),
        ..ROW
    },
    // There are 160 records, of which the log holds 128. It has 1,045,488 bytes.
    Row {
        what: "eight backends fill the log",
        words: &["run", "--seg", "1048576", "--cap", "1"],
        backends: &[LONG_INSERTS; 8],
        awaited: EIGHT,
        status: 5,
        out: Some(b"records 128 commits 0 bytes 1042432 end 0/001FF410 segments 1\n"),
        told: (8, 160),
        refused: Some(Cause::Full { free: 3056 }),
        ..ROW
    },
    Row {
        what: "no segment can be made",
        backends: &[ALL_KINDS; 8],
        awaited: EIGHT,
        segments: 0,
        status: 4,
        told: (8, 48),
        refused: Some(Cause::Down { faults: 1 }),
        ..ROW
    },
    // The log may have two segments, and the records need more than one.
    Row {
        what: "no further segment can be made",
        words: &["run", "--seg", "1048576", "--cap", "2", "--ring", "4"],
        backends: &[LONG_INSERTS; 8],
        awaited: EIGHT,
        status: 4,
        told: (8, 160),
        refused: Some(Cause::Down { faults: 1 }),
        ..ROW
    },
    Row {
        what: "lines are made, on a ring of four pages",
        words: &["gen", "10", "--seg", "1048576", "--ring", "4"],
        awaited: FOUR,
        out: Some(b"records 40 commits 4 bytes 17392 end 0/00104448 segments 1\n"),
        told: (4, 40),
        ..ROW
    },
    Row {
        what: "lines are made, on a ring of 64 pages",
        words: &["gen", "10", "--seg", "1048576", "--ring", "64"],
        awaited: FOUR,
        out: Some(b"records 40 commits 4 bytes 17392 end 0/00104448 segments 1\n"),
        told: (4, 40),
        ..ROW
    },
];

#[test]
fn runs_end_as_listed(rt: HostRuntime) -> Result<(), Fail> {
    let alloc = rt.alloc();
    for row in ROWS {
        let run = ended(&rt, alloc, row, NO_CALL)?;
        let has_met = !run.was_missed;
        let is_sound = row.status == 4 || is_listed(&rt, alloc, run)?;
        assert!(rt; has_met && is_sound, "{}", row.what);
    }
    Ok(())
}

// One switch beside two backends of commits, wherever it comes between them: behind it all stand in
// the second segment.
const SWITCH: Row = Row {
    what: "a segment is closed beside commits",
    words: &["run", "--seg", "1048576", "--cap", "2", "--ring", "4"],
    backends: &[(1, b"C 1 0\nW\nC 1 0\n"), (4, b"C 2 0\n"), (4, b"C 3 0\n")],
    awaited: THREE,
    segments: 2,
    told: (3, 11),
    ..ROW
};

const LONG_INSERT_AND_SWITCH: Lines = (1, b"I 1 10 00 59971*ab\nW\n");

// Records of 60,000 bytes, on a ring of four pages, beside switches: each of them waits for room
// while others hold it up. A switch may find the log at a segment's start.
const SWITCHES: Row = Row {
    what: "segments are closed beside records longer than the ring",
    words: &["run", "--seg", "1048576", "--cap", "3", "--ring", "4"],
    backends: &[LONG_INSERT_AND_SWITCH; 3],
    awaited: THREE,
    segments: 3,
    told: (3, 6),
    ..ROW
};

#[test]
fn a_switch_is_listed_where_it_was_told(rt: HostRuntime) -> Result<(), Fail> {
    are_listed(&rt, rt.alloc(), &SWITCH, 200)
}

#[test]
fn switches_are_listed_where_they_were_told(rt: HostRuntime) -> Result<(), Fail> {
    are_listed(&rt, rt.alloc(), &SWITCHES, 20)
}

// A row is played so many times: whichever way its backends interleave, the listing has the records
// where they were told.
fn are_listed<R: Abort + Threads + Wait + Sync>(
    rt: &R,
    alloc: Global,
    row: &Row,
    times: u32,
) -> Result<(), Fail> {
    for _ in 0..times {
        let run = ended(rt, alloc, row, NO_CALL)?;
        let has_met = !run.was_missed;
        assert!(rt; has_met && is_listed(rt, alloc, run)?, "{}", row.what);
    }
    Ok(())
}

/// Plays a row on a disk whose call of this number fails, and checks what it ends with.
pub fn ended<R: Abort + Threads + Wait + Sync>(
    rt: &R,
    alloc: Global,
    row: &Row,
    fail: u64,
) -> Result<Run, Fail> {
    let run = played(rt, alloc, row, fail)?;
    let is_printed = match row.out {
        Some(out) => run.out.taken() == out,
        None => true,
    };
    let is_counted = match row.calls {
        Some(calls) => run.disk.moment() == calls,
        None => true,
    };
    let count = count_told(&run.told, row.refused);
    let found = (run.status, run.told.len(), count, is_printed && is_counted);
    assert!(rt;
        found == (row.status, row.told.0, Some(row.told.1), true),
        "{}",
        row.what
    );
    Ok(run)
}

/// Plays a row on a disk whose call of this number fails.
pub fn played<R: Threads + Wait + Sync>(
    rt: &R,
    alloc: Global,
    row: &Row,
    fail: u64,
) -> Result<Run, Fail> {
    let disk = disk_of(alloc, row.segments, &[fail])?;
    let script = script_of(alloc, row.backends)?;
    play(rt, alloc, row.words, script, disk, row.awaited)
}

fn script_of(alloc: Global, backends: &'static [Lines]) -> Result<Vec<u8>, Fail> {
    let mut script = Vec::new(alloc);
    for (times, lines) in backends {
        if !script.is_empty() {
            script.extend_from_slice(b"B\n")?;
        }
        for _ in 0..*times {
            script.extend_from_slice(lines)?;
        }
    }
    Ok(script)
}
