//! Logs that are gone on with, as data: what is found, whichever call of the reopening a crash
//! stopped before.

use crate::changed::{is_zero, put, sync, zero};
use crate::listed::{DUMP, front_listed};
use crate::meeting::NOBODY;
use crate::picks::{Words, pick};
use crate::played::{disk_of, play};
use crate::rows::NO_CALL;
use rand_xoshiro::SplitMix64;
use rand_xoshiro::rand_core::SeedableRng;
use segment_disk::{Disk, MemDisk, Pick};
use std::alloc::Global;
use std::process::Abort;
use std::sync::Wait;
use std::test::Fail;
use std::thread::Threads;
use wal_types::Lsn;

const RUN: [&str; 7] = ["run", "--seg", "1048576", "--cap", "2", "--ring", "4"];

const APPEND: [&str; 6] = ["run", "--append", "--seg", "1048576", "--cap", "2"];

const LISTED: [&str; 7] = [
    "run", "--append", "--list", "--seg", "1048576", "--cap", "2",
];

const SEGMENT_SIZE: u64 = 1 << 20;

// Bytes that a log lost, from an address up to another, within one page.
type Lost = (u64, u64);

// A log that was left on a disk, and what is found of it.
#[derive(Drop)]
struct Left {
    what: &'static str,
    script: &'static [u8],
    // The call of its run that fails.
    fail: u64,
    // What became zeros of it, and the bytes that stand at an address in place of its own. All of
    // that is durable.
    lost: &'static [Lost],
    other: Option<(u64, &'static [u8])>,
    // How many segments are there.
    there: u64,
    // Where the records start that are found. A crash before the segments are synced leaves as many
    // of these as were durable.
    starts: &'static [Lsn],
    durable: usize,
    // Where the last one ends, and how many segments they lie in.
    end: u64,
    segments: u64,
    // The counted calls: each segment that is there is synced; each page of these is written that
    // has a word behind the end; the segments so written are synced.
    calls: u64,
}

const FIRST: Lsn = Lsn(0x10_0028);

const SECOND: Lsn = Lsn(0x10_0050);

const ONE_COMMIT: Left = Left {
    what: "one commit",
    script: b"C 1 0\n",
    fail: NO_CALL,
    lost: &[],
    other: None,
    there: 1,
    starts: &[FIRST],
    durable: 1,
    end: 0x10_0050,
    segments: 1,
    calls: 1,
};

// The record behind the commit goes on at 0x10_2018, and ends at 0x10_23ad.
const OVER_TWO_PAGES: &[u8] = b"C 1 0\nI 2 10 00 9000*5a\nF\n";

// The first record takes up 522,744 bytes, and the second one ends at 0x1f_fff8. The commit behind
// them goes on at 0x20_0028, and ends at 0x20_0042. (One record in place of two would have seven
// digits of length, which widen its line.)
const OVER_TWO_SEGMENTS: &[u8] = b"I 1 10 00 522715*5a\nI 1 10 00 522707*5a\nC 2 0\n";

// Where the second of these starts: in the 65th page, behind its header and a word.
const HALF: Lsn = Lsn(0x18_0020);

// The switch takes up 24 bytes, and the second commit stands at 0x20_0028.
const BEHIND_A_SWITCH: &[u8] = b"C 1 0\nW\nC 2 0\n";

// It has the length, the transaction, the record before it, the manager and the data of a commit
// that stands at 0x10_0050 behind one commit, but another CRC.
const WRONG_CRC: &[u8] = b"\x22\x00\x00\x00\x02\x00\x00\x00\x28\x00\x10\x00\x00\x00\x00\x00\
    \x00\x01\x00\x00\x01\x02\x03\x04\xff\x08\x00\x00\x00\x00\x00\x00\x00\x00";

static SHORT: &[Left] = &[
    Left {
        what: "nothing",
        script: b"",
        there: 0,
        starts: &[],
        durable: 0,
        end: 0x10_0000,
        segments: 0,
        calls: 0,
        ..ONE_COMMIT
    },
    ONE_COMMIT,
    Left {
        what: "every second word of the last commit is lost",
        script: b"C 1 0\nC 2 0\nC 3 0\n",
        lost: &[(0x10_0080, 0x10_0088), (0x10_0090, 0x10_0098)],
        starts: &[FIRST, SECOND],
        durable: 2,
        end: 0x10_0078,
        calls: 3,
        ..ONE_COMMIT
    },
    // The sync of the second commit fails.
    Left {
        what: "the last commit was written, and not synced",
        script: b"C 1 0\nC 2 0\n",
        fail: 5,
        starts: &[FIRST, SECOND],
        end: 0x10_0078,
        ..ONE_COMMIT
    },
    Left {
        what: "a record over two pages lost words of the first one",
        script: OVER_TWO_PAGES,
        lost: &[(0x10_1000, 0x10_1800)],
        calls: 4,
        ..ONE_COMMIT
    },
    Left {
        what: "a record over two pages lost the second one",
        script: OVER_TWO_PAGES,
        lost: &[(0x10_2000, 0x10_23b0)],
        calls: 3,
        ..ONE_COMMIT
    },
    Left {
        what: "behind the end stands what looks like a record, with a wrong CRC",
        other: Some((0x10_0050, WRONG_CRC)),
        calls: 3,
        ..ONE_COMMIT
    },
    // The third page has the end of the last record alone.
    Left {
        what: "a page behind the end has words of what was lost before it",
        script: b"C 1 0\nI 2 10 00 9000*5a\nI 3 10 00 9000*5a\nF\n",
        lost: &[(0x10_0050, 0x10_2000), (0x10_2000, 0x10_4000)],
        calls: 3,
        ..ONE_COMMIT
    },
    // All of its eight pages are cleared, with their headers.
    Left {
        what: "the only record lost its first word",
        script: b"I 1 10 00 59971*ab\nF\n",
        lost: &[(0x10_0028, 0x10_0030)],
        starts: &[],
        durable: 0,
        end: 0x10_0000,
        segments: 0,
        calls: 10,
        ..ONE_COMMIT
    },
];

const TWO_SEGMENTS: Left = Left {
    there: 2,
    ..ONE_COMMIT
};

// The commit behind the two records is lost.
const TORN_OVER_TWO_SEGMENTS: Left = Left {
    script: OVER_TWO_SEGMENTS,
    starts: &[FIRST, HALF],
    durable: 2,
    end: 0x1f_fff8,
    ..TWO_SEGMENTS
};

static LONG: &[Left] = &[
    Left {
        what: "a record over two segments lost the second one's page",
        lost: &[(0x20_0000, 0x20_0048)],
        calls: 4,
        ..TORN_OVER_TWO_SEGMENTS
    },
    Left {
        what: "a record over two segments lost all but the header of the second one's page",
        lost: &[(0x20_0028, 0x20_0048)],
        calls: 6,
        ..TORN_OVER_TWO_SEGMENTS
    },
    Left {
        what: "a record lost its only word in a segment, the last one there",
        lost: &[(0x1f_fff8, 0x20_0000)],
        calls: 4,
        ..TORN_OVER_TWO_SEGMENTS
    },
    Left {
        what: "a commit behind a switch lost its CRC",
        script: BEHIND_A_SWITCH,
        lost: &[(0x20_0038, 0x20_0040)],
        starts: &[FIRST, SECOND],
        durable: 2,
        end: 0x20_0000,
        calls: 4,
        ..TWO_SEGMENTS
    },
    Left {
        what: "a switch is lost before a commit",
        script: BEHIND_A_SWITCH,
        lost: &[(0x10_0050, 0x10_0068)],
        calls: 4,
        ..TWO_SEGMENTS
    },
];

#[test]
fn a_reopening_may_be_stopped_at_each_call(rt: HostRuntime) -> Result<(), Fail> {
    all_may_be_stopped(&rt, rt.alloc(), SHORT)
}

#[test]
fn a_reopening_of_two_segments_may_be_stopped_at_each_call(rt: HostRuntime) -> Result<(), Fail> {
    all_may_be_stopped(&rt, rt.alloc(), LONG)
}

fn all_may_be_stopped<R: Abort + Threads + Wait + Sync>(
    rt: &R,
    alloc: Global,
    rows: &[Left],
) -> Result<(), Fail> {
    let mut random = SplitMix64::seed_from_u64(0);
    for row in rows {
        may_be_stopped(rt, alloc, row, &mut random)?;
    }
    Ok(())
}

// A reopening is stopped at each of its calls: then it is told a fault, and has printed nothing.
fn may_be_stopped<R: Abort + Threads + Wait + Sync>(
    rt: &R,
    alloc: Global,
    row: &Left,
    random: &mut SplitMix64,
) -> Result<(), Fail> {
    let begun = left_on(rt, alloc, row, NO_CALL)?.moment();
    // Behind the last call none is stopped.
    for call in 1..row.calls.saturating_add(2) {
        let disk = left_on(rt, alloc, row, begun.saturating_add(call))?;
        let run = play(rt, alloc, &APPEND, Vec::new(alloc), disk, NOBODY)?;
        let is_stopped = run.status == 4 && run.out.taken().is_empty();
        let made = run.disk.moment().saturating_sub(begun);
        assert!(rt;
            made == call.min(row.calls) && is_stopped == (call <= row.calls),
            "{}, call {call}",
            row.what
        );
        may_crash(rt, alloc, row, call, &run.disk, random)?;
    }
    Ok(())
}

const WORDS: [Words; 6] = [
    Words::Old,
    Words::New,
    Words::Odd,
    Words::Even,
    Words::Random,
    Words::Random,
];

// Whatever a crash leaves of a log whose reopening was stopped at a call, it is opened again.
fn may_crash<R: Abort + Threads + Wait + Sync>(
    rt: &R,
    alloc: Global,
    row: &Left,
    call: u64,
    stopped: &MemDisk,
    random: &mut SplitMix64,
) -> Result<(), Fail> {
    let is_synced = call > row.there;
    let durable = if is_synced {
        row.starts.len()
    } else {
        row.durable
    };
    for (number, words) in WORDS.iter().enumerate() {
        let left = stopped.crash(alloc, stopped.moment(), pick(alloc, *words, random)?)?;
        let count = opens_again(rt, alloc, row, left)?;
        assert!(rt; count >= durable, "{}, call {call}, {number}", row.what);
    }
    Ok(())
}

// What a row has, on a disk that fails at its own call and at this one.
fn left_on<R: Abort + Threads + Wait + Sync>(
    rt: &R,
    alloc: Global,
    row: &Left,
    fail: u64,
) -> Result<MemDisk, Fail> {
    let script = Vec::from_slice(alloc, row.script)?;
    let disk = disk_of(alloc, 2, &[row.fail, fail])?;
    let run = play(rt, alloc, &RUN, script, disk, NOBODY)?;
    let status = if row.fail == NO_CALL { 0 } else { 4 };
    assert!(rt; run.status == status, "{}", row.what);
    let mut disk = run.disk;
    for (from, upto) in row.lost {
        zero(&mut disk, *from, *upto)?;
        sync(&mut disk, *from)?;
    }
    if let Some((at, bytes)) = &row.other {
        put(&mut disk, *at, bytes)?;
        sync(&mut disk, *at)?;
    }
    Ok(disk)
}

// Opens what a crash left: the same records are found and listed behind it, and nothing stands
// behind their end. How many they are.
fn opens_again<R: Abort + Threads + Wait + Sync>(
    rt: &R,
    alloc: Global,
    row: &Left,
    left: MemDisk,
) -> Result<usize, Fail> {
    let before = play(rt, alloc, &DUMP, Vec::new(alloc), left, NOBODY)?;
    let listing = before.out;
    let count = front_listed(listing.taken(), row.starts)
        .expect(rt, row.what)
        .len();
    let end = match row.starts.get(count) {
        Some(next) => next.0,
        None => row.end,
    };
    let run = play(rt, alloc, &APPEND, Vec::new(alloc), before.disk, NOBODY)?;
    let found = found_text(alloc, count, end, row.segments)?;
    let is_found = run.status == 0 && run.out.taken() == found.as_bytes();
    assert!(rt; is_found, "{}", row.what);
    let mut disk = run.disk;
    let upto = SEGMENT_SIZE.saturating_mul(row.there.saturating_add(1));
    assert!(rt; is_zero(&mut disk, end, upto)?, "{}", row.what);
    let behind = play(rt, alloc, &DUMP, Vec::new(alloc), disk, NOBODY)?;
    let is_same = behind.status == 0 && behind.out.taken() == listing.taken();
    assert!(rt; is_same, "{}", row.what);
    Ok(count)
}

// Behind a crash that kept the odd words of the third commit two are found. The segment is synced,
// and what is left of the third one cleared and synced; then the new commit is written and synced.
#[test]
fn a_reopening_makes_its_calls_in_order(rt: HostRuntime) -> Result<(), Fail> {
    let alloc = rt.alloc();
    let script = Vec::from_slice(alloc, b"C 1 0\nC 2 0\nC 3 0\n")?;
    let run = play(
        &rt,
        alloc,
        &RUN,
        script,
        disk_of(alloc, 2, &[NO_CALL])?,
        NOBODY,
    )?;
    let left = run.disk.crash(alloc, 6, Pick::Odd)?;
    let script = Vec::from_slice(alloc, b"C 9 0\n")?;
    let run = play(&rt, alloc, &LISTED, script, left, NOBODY)?;
    let told = "found 2 end 0/00100078\n\
        0 1 hard 0/00100078 0/001000A0 5\n\
        records 1 commits 1 bytes 40 end 0/001000A0 segments 1\n";
    assert!(rt; run.out.taken() == told.as_bytes());
    assert_eq!(rt; run.kinds, u64::from_be_bytes(*b"\0\0\0SWSWS"));
    Ok(())
}

// What a run of nothing prints that finds so many records.
fn found_text(alloc: Global, count: usize, end: u64, segments: u64) -> Result<String, Fail> {
    Ok(format!(in alloc;
        "found {count} end 0/{end:08X}\n\
         records 0 commits 0 bytes 0 end 0/{end:08X} segments {segments}\n"
    )?)
}
