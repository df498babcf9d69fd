//! Backends on a disk that fails, and what crashes of it leave.

use crate::listed::{DUMP, front_listed, has_all};
use crate::meeting::{NOBODY, THREE, TWO};
use crate::played::{Run, play};
use crate::rows::{Lines, NO_CALL, ROW, Row, ended, played};
use crate::told::{OWN_FAULT, Which, cause_of, count_for, durable, starts_told};
use backend_cli::Cause;
use segment_disk::{Disk, MemDisk, Pick};
use std::alloc::Global;
use std::process::Abort;
use std::sync::Wait;
use std::test::Fail;
use std::thread::Threads;
use wal_types::Lsn;

/// What lines are told behind a fault.
pub const DOWN: Cause = Cause::Down { faults: 1 };

const COMMITS: Lines = (4, b"C 1 0\n");

// A backend's second commit is flushed behind its first one, so there are two flushes at least, of
// five counted calls: the segment is made, and its page is written and synced twice.
const FAILING: Row = Row {
    what: "the fifth call fails",
    backends: &[COMMITS; 3],
    awaited: THREE,
    status: 4,
    told: (3, 12),
    refused: Some(DOWN),
    ..ROW
};

#[test]
fn told_commits_outlive_a_fault_that_all_later_lines_are_told(rt: HostRuntime) -> Result<(), Fail> {
    for _ in 0..200 {
        let run = ended(&rt, rt.alloc(), &FAILING, 5)?;
        all_are_down_at_last(&rt, &run);
        outlive(&rt, rt.alloc(), &run, 0)?;
    }
    Ok(())
}

// A run of which each call fails in turn.
#[derive(Drop)]
struct Failing {
    row: Row,
    // How many calls are surely made if none fails: all of them, if there is one backend.
    calls: u64,
    // For how many of these a line is told the fault. The others are those of the run's last flush.
    lines: u64,
    // How often each call fails.
    times: u32,
    // How many moments, the failed call's and those before, are looked at.
    moments: u64,
}

const ONE: Row = Row {
    words: &["run", "--seg", "1048576"],
    awaited: NOBODY,
    status: 4,
    told: (1, 0),
    refused: Some(DOWN),
    ..ROW
};

const ALL: u64 = u64::MAX;

static EACH_CALL: &[Failing] = &[
    // The segment is made, two pages are written, and they are synced.
    Failing {
        row: Row {
            what: "a record goes over a page's end",
            backends: &[(1, b"I 1 10 00 8124*5a\nC 700 0\n")],
            told: (1, 2),
            ..ONE
        },
        calls: 4,
        lines: 4,
        times: 1,
        moments: ALL,
    },
    Failing {
        row: Row {
            what: "three commits",
            backends: &[(3, b"C 1 0\n")],
            told: (1, 3),
            ..ONE
        },
        calls: 7,
        lines: 7,
        times: 1,
        moments: ALL,
    },
    // The segment is made, its page is written and synced by the second line, and so again by the
    // fourth: no line waits for its own commit, which the next one flushes.
    Failing {
        row: Row {
            what: "commits answered ahead, each flushed behind",
            backends: &[(2, b"A 1 0\nL\n")],
            told: (1, 4),
            ..ONE
        },
        calls: 5,
        lines: 5,
        times: 1,
        moments: ALL,
    },
    // The record has eight pages. The segment is made and four of them are written before the fifth
    // takes the first one's buffer; the others by the last flush, which syncs.
    Failing {
        row: Row {
            what: "a record is longer than the ring",
            words: &["run", "--seg", "1048576", "--ring", "4"],
            backends: &[(1, b"I 1 10 00 59971*ab\n")],
            told: (1, 1),
            ..ONE
        },
        calls: 10,
        lines: 5,
        times: 1,
        moments: ALL,
    },
    // The segment is made, each of the eight pages is written at least once, and there is a sync.
    Failing {
        row: Row {
            what: "commits beside a record that is longer than the ring",
            words: &["run", "--seg", "1048576", "--ring", "4"],
            backends: &[(1, b"I 1 10 00 59971*ab\nC 1 0\n"), (2, b"C 2 0\n")],
            awaited: TWO,
            told: (2, 4),
            ..ONE
        },
        calls: 10,
        lines: 10,
        times: 10,
        moments: ALL,
    },
];

// The first commit begins on the segment's last eight bytes. The segment is made, its 128 pages are
// written, and it is synced; the second one is made, its page is written and synced, and so again
// for the second commit. A lone backend makes the same calls each time, so earlier moments are
// those of the runs in which an earlier call fails. It has a test, and so a time limit, of its own.
const OVER_A_SEGMENT: Failing = Failing {
    row: Row {
        what: "a record goes over a segment's end",
        words: &["run", "--seg", "1048576", "--cap", "2"],
        backends: &[(
            1,
            b"I 1 10 00 522715*5a\nI 1 10 00 522707*5a\nC 1 0\nC 2 0\n",
        )],
        segments: 2,
        told: (1, 4),
        ..ONE
    },
    calls: 135,
    lines: 135,
    times: 1,
    moments: 2,
};

// The segment is made, and the first commit's page written and synced. The segment has 128 pages,
// of which the switch writes the first half as it makes room on its ring, and the second commit the
// others and the sync; it makes the next segment, and writes and syncs its page.
const BEHIND_A_SWITCH: Failing = Failing {
    row: Row {
        what: "a segment is closed between two commits",
        words: &["run", "--seg", "1048576", "--cap", "2"],
        backends: &[(1, b"C 1 0\nW\nW\nC 2 0\n")],
        segments: 2,
        told: (1, 4),
        ..ONE
    },
    calls: 135,
    lines: 135,
    times: 1,
    moments: 2,
};

// A segment is closed beside two backends of a commit each: in whichever order, no fewer calls are
// made.
const BESIDE_A_SWITCH: Failing = Failing {
    row: Row {
        what: "a segment is closed beside commits of two others",
        words: &["run", "--seg", "1048576", "--cap", "2"],
        backends: &[(1, b"C 1 0\nW\nC 1 0\n"), (1, b"C 2 0\n"), (1, b"C 3 0\n")],
        awaited: THREE,
        segments: 2,
        told: (3, 5),
        ..ONE
    },
    ..BEHIND_A_SWITCH
};

#[test]
fn each_call_fails_in_turn(rt: HostRuntime) -> Result<(), Fail> {
    for failing in EACH_CALL {
        fails_in_turn(&rt, rt.alloc(), failing)?;
    }
    Ok(())
}

#[test]
fn each_call_fails_in_turn_over_a_segment(rt: HostRuntime) -> Result<(), Fail> {
    fails_in_turn(&rt, rt.alloc(), &OVER_A_SEGMENT)
}

#[test]
fn each_call_fails_in_turn_behind_a_switch(rt: HostRuntime) -> Result<(), Fail> {
    fails_in_turn(&rt, rt.alloc(), &BEHIND_A_SWITCH)
}

#[test]
fn each_call_fails_in_turn_beside_a_switch(rt: HostRuntime) -> Result<(), Fail> {
    fails_in_turn(&rt, rt.alloc(), &BESIDE_A_SWITCH)
}

fn fails_in_turn<R: Abort + Threads + Wait + Sync>(
    rt: &R,
    alloc: Global,
    failing: &Failing,
) -> Result<(), Fail> {
    makes_its_calls(rt, alloc, failing)?;
    for call in 1..failing.calls.saturating_add(1) {
        for _ in 0..failing.times {
            fails_at(rt, alloc, failing, call)?;
        }
    }
    Ok(())
}

// Where no call fails, these are made; if there is one backend, no others.
fn makes_its_calls<R: Abort + Threads + Wait + Sync>(
    rt: &R,
    alloc: Global,
    failing: &Failing,
) -> Result<(), Fail> {
    let run = played(rt, alloc, &failing.row, NO_CALL)?;
    let calls = run.disk.moment();
    let are_made = calls == failing.calls || run.told.len() > 1 && calls > failing.calls;
    assert!(rt; run.status == 0 && are_made, "{}", failing.row.what);
    Ok(())
}

// Where a call fails none is made behind it. One line is told the fault as its own, or no line is
// told any, and what was told to be durable outlives it.
fn fails_at<R: Abort + Threads + Wait + Sync>(
    rt: &R,
    alloc: Global,
    failing: &Failing,
    call: u64,
) -> Result<(), Fail> {
    let run = ended(rt, alloc, &failing.row, call)?;
    let is_told = if call <= failing.lines {
        count_for(&run.told, OWN_FAULT) == 1
    } else {
        count_for(&run.told, None) == failing.row.told.1
    };
    assert!(rt;
        is_told && run.disk.moment() == call,
        "{}, call {call}",
        failing.row.what
    );
    let seen = call.saturating_add(1);
    outlive(rt, alloc, &run, seen.saturating_sub(failing.moments))
}

fn all_are_down_at_last<R: Abort>(rt: &R, run: &Run) {
    for backend in 0..run.told.len() {
        let last = run.told.of(backend).last();
        assert!(rt; matches!(last, Some(last) if cause_of(last) == Some(DOWN)));
    }
}

// What crashes leave at each moment from one on is a front of the records, with those that were
// told to be durable by then.
fn outlive<R: Abort + Threads + Wait + Sync>(
    rt: &R,
    alloc: Global,
    run: &Run,
    first: u64,
) -> Result<(), Fail> {
    for moment in first..run.disk.moment().saturating_add(1) {
        outlive_at(rt, alloc, run, moment)?;
    }
    Ok(())
}

/// What crashes leave at a moment is a front of the records, with each that lies below what some
/// line, of whichever backend, was told to be durable by then: a commit that was answered ahead of
/// the disk is one of them as soon as anybody's flush has passed it.
pub fn outlive_at<R: Abort + Threads + Wait + Sync>(
    rt: &R,
    alloc: Global,
    run: &Run,
    moment: u64,
) -> Result<(), Fail> {
    let all = starts_told(alloc, &run.told, Which::All)?;
    let durable = starts_told(alloc, &run.told, durable(&run.told, moment))?;
    for pick in [Pick::Old, Pick::New, Pick::Odd] {
        let left = run.disk.crash(alloc, moment, pick)?;
        assert!(rt;
            has_front(rt, alloc, left, &all, &durable)?,
            "at moment {moment}"
        );
    }
    Ok(())
}

// Whether a disk's log is a front of these records, and has those that are durable.
fn has_front<R: Threads + Wait + Sync>(
    rt: &R,
    alloc: Global,
    disk: MemDisk,
    all: &[Lsn],
    durable: &[Lsn],
) -> Result<bool, Fail> {
    let dumped = play(rt, alloc, &DUMP, Vec::new(alloc), disk, NOBODY)?;
    let Some(front) = front_listed(dumped.out.taken(), all) else {
        return Ok(false);
    };
    Ok(has_all(front, durable))
}
