//! Disks in memory: which calls fail, what is read back, and what crashes leave, by the rules of
//! `Pick`.
use crate::played::{Answer, Call, DONE, FAILED, answer_of, crosses_threads, play};
use segment_disk::{Disk, MemDisk, Memory, Pick};
use std::alloc::{AllocError, Global};
use std::test::Fail;

/// A disk of so many segments and calls that fails at some, what it answers, and its moment and
/// faults then.
struct Scene {
    segments: u32,
    calls: u32,
    failing: &'static [u64],
    failing_reads: &'static [u64],
    answers: &'static [(Call, Answer)],
    counted: (u64, u64),
}

static SCENES: &[Scene] = &[
    // A failed sync, and a segment that is made anew.
    Scene {
        segments: 1,
        calls: 10,
        failing: &[4],
        failing_reads: &[],
        answers: &[
            (Call::Read(1, 0), Ok(None)),
            (Call::Create(1), DONE),
            (Call::Read(1, 0), Ok(Some([0; 4]))),
            (Call::Write(1, 0, 7), DONE),
            (Call::Write(1, 0, 8), DONE),
            (Call::Sync(1), FAILED),
            (Call::Read(1, 0), Ok(Some([8; 4]))),
            (Call::Sync(1), DONE),
            (Call::Create(1), DONE),
            (Call::Read(1, 0), Ok(Some([0; 4]))),
        ],
        counted: (6, 1),
    },
    // A failed write is read back.
    Scene {
        segments: 1,
        calls: 10,
        failing: &[2],
        failing_reads: &[1],
        answers: &[
            (Call::Create(1), DONE),
            (Call::Write(1, 0, 7), FAILED),
            (Call::Read(1, 0), FAILED),
            (Call::Read(1, 0), Ok(Some([7; 4]))),
        ],
        counted: (2, 2),
    },
    // No segment, no room for another one, no room for a further call.
    Scene {
        segments: 1,
        calls: 4,
        failing: &[],
        failing_reads: &[],
        answers: &[
            (Call::Write(1, 0, 7), FAILED),
            (Call::Create(1), DONE),
            (Call::Create(2), FAILED),
            (Call::Read(2, 0), Ok(None)),
            (Call::Sync(2), FAILED),
            (Call::Sync(1), FAILED),
        ],
        counted: (4, 4),
    },
];

#[test]
fn disks_fail_where_they_are_told_to(rt: HostRuntime) -> Result<(), Fail> {
    let alloc = rt.alloc();
    for scene in SCENES {
        let failing = scene.failing.to_vec(alloc)?;
        let failing_reads = scene.failing_reads.to_vec(alloc)?;
        let mut disk = MemDisk::new(alloc, scene.segments, scene.calls, failing, failing_reads)?;
        crosses_threads(&disk);
        play(&rt, &mut disk, scene.answers);
        assert_eq!(rt; (disk.moment(), disk.faults()), scene.counted);
    }
    Ok(())
}

static WRITTEN: &[Call] = &[
    Call::Create(1),
    Call::Write(1, 0, 7),
    Call::Sync(1),
    Call::Write(1, 2, 8),
    Call::Write(1, 2, 9),
    Call::Create(2),
    Call::Write(2, 0, 6),
    Call::Write(1, 5, 5),
];

fn written(alloc: Global) -> Result<MemDisk, Memory> {
    let mut disk = MemDisk::new(alloc, 2, 8, Vec::new(alloc), Vec::new(alloc))?;
    for call in WRITTEN {
        let _ = answer_of(&mut disk, *call);
    }
    Ok(disk)
}

/// A pick; a list has so many zeros before these numbers.
#[derive(Clone, Copy)]
enum Left {
    Old,
    New,
    Odd,
    Listed(usize, &'static [u32]),
}

fn pick(alloc: Global, left: Left) -> Result<Pick, AllocError> {
    match left {
        Left::Old => Ok(Pick::Old),
        Left::New => Ok(Pick::New),
        Left::Odd => Ok(Pick::Odd),
        Left::Listed(zeros, behind) => {
            let mut numbers = vec![in alloc; 0; zeros]?;
            numbers.extend_from_slice(behind)?;
            Ok(Pick::List(numbers))
        }
    }
}

// Behind which call the crash comes, what it leaves, and a page of that.
static CRASHES: &[(u64, Left, Call, Answer)] = &[
    (0, Left::New, Call::Read(1, 0), Ok(None)),
    (1, Left::New, Call::Read(1, 0), Ok(Some([0; 4]))),
    (4, Left::New, Call::Read(1, 2), Ok(Some([8; 4]))),
    (4, Left::New, Call::Read(2, 0), Ok(None)),
    (6, Left::Old, Call::Read(1, 0), Ok(Some([7; 4]))),
    (6, Left::Old, Call::Read(1, 2), Ok(Some([0; 4]))),
    (6, Left::Old, Call::Read(2, 0), Ok(Some([0; 4]))),
    (6, Left::New, Call::Read(1, 0), Ok(Some([7; 4]))),
    (6, Left::New, Call::Read(1, 2), Ok(Some([9; 4]))),
    (6, Left::Odd, Call::Read(1, 0), Ok(Some([7; 4]))),
    (6, Left::Odd, Call::Read(1, 2), Ok(Some([0, 9, 0, 9]))),
    (
        6,
        Left::Listed(0, &[1, 2, 3]),
        Call::Read(1, 0),
        Ok(Some([7; 4])),
    ),
    (
        6,
        Left::Listed(0, &[1, 2, 3]),
        Call::Read(1, 2),
        Ok(Some([8, 9, 0, 0])),
    ),
    (
        6,
        Left::Listed(2, &[1]),
        Call::Read(1, 2),
        Ok(Some([0, 0, 8, 0])),
    ),
    // The list goes on in the next page: page 5 of segment 1, and then segment 2.
    (
        8,
        Left::Listed(2047, &[1, 0, 1]),
        Call::Read(1, 5),
        Ok(Some([0, 0, 0, 5])),
    ),
    (
        8,
        Left::Listed(2047, &[1, 0, 1]),
        Call::Read(2, 0),
        Ok(Some([0, 6, 0, 0])),
    ),
    (100, Left::New, Call::Read(1, 2), Ok(Some([9; 4]))),
    (100, Left::New, Call::Read(2, 127), Ok(Some([0; 4]))),
];

#[test]
fn crashes_leave_what_is_picked(rt: HostRuntime) -> Result<(), Fail> {
    let alloc = rt.alloc();
    let disk = written(alloc)?;
    for (row, (moment, left, call, answer)) in CRASHES.iter().enumerate() {
        let mut crashed = disk.crash(alloc, *moment, pick(alloc, *left)?)?;
        assert_eq!(rt; answer_of(&mut crashed, *call), *answer, "row {row}");
    }
    Ok(())
}

static GOES_ON: &[(Call, Answer)] = &[
    (Call::Write(1, 0, 5), DONE),
    (Call::Create(3), DONE),
    (Call::Create(4), FAILED),
    (Call::Read(1, 0), Ok(Some([5; 4]))),
    (Call::Read(1, 2), Ok(Some([9; 4]))),
];

static LEFT_AGAIN: &[(Call, Answer)] = &[
    (Call::Read(1, 0), Ok(Some([7; 4]))),
    (Call::Read(1, 2), Ok(Some([9; 4]))),
    (Call::Read(3, 0), Ok(Some([0; 4]))),
    (Call::Read(4, 0), Ok(None)),
];

#[test]
fn crashed_disk_goes_on(rt: HostRuntime) -> Result<(), Fail> {
    let alloc = rt.alloc();
    let mut left = written(alloc)?.crash(alloc, 5, Pick::New)?;
    assert_eq!(rt; (left.moment(), left.faults()), (0, 0));
    play(&rt, &mut left, GOES_ON);
    assert_eq!(rt; (left.moment(), left.faults()), (3, 1));
    play(&rt, &mut left.crash(alloc, 3, Pick::Old)?, LEFT_AGAIN);
    Ok(())
}
