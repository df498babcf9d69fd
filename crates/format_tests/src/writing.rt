//! A log's pages as they are put on a disk, and made durable; a log that was found, and settled.
use crate::calls::smallest;
use crate::played::{Answer, Call, DONE, play};
use flush_core::{DiskFault, Writer, settle};
use segment_disk::{Disk, MemDisk};
use std::alloc::Global;
use std::process::Abort;
use std::test::Fail;
use wal_types::Lsn;

/// A call of a writer, up to where: of the page in which the written position lies, filled with a
/// byte.
#[derive(Clone, Copy)]
enum Step {
    Put(u64, u8),
    Harden(u64),
}

// The disk's moment behind the call. No fault has the number 0, which tells of a row that a writer
// cannot be asked for.
fn moment_behind(writer: &mut Writer<MemDisk>, step: Step) -> Result<u64, DiskFault> {
    let written = writer.written().0;
    let page = written / 8192;
    match step {
        Step::Put(upto, byte)
            if written <= upto && page * 8192 < upto && upto - page * 8192 <= 8192 => {
            writer.put_page(page, Lsn(upto), &[byte; 8192])?;
            Ok(writer.moment())
        }
        Step::Harden(upto) if upto <= written => writer.harden(Lsn(upto)),
        _ => Err(DiskFault { faults: 0 }),
    }
}

fn writer_on_disk(alloc: Global, failing: &[u64]) -> Result<Writer<MemDisk>, Fail> {
    let disk = MemDisk::new(alloc, 4, 1000, failing.to_vec(alloc)?, Vec::new(alloc))?;
    Ok(Writer::new(disk, smallest()))
}

/// What a writer answers on a disk of which some calls fail, and then its disk's moment, up to
/// where it has written, and its fault.
struct Run {
    failing: &'static [u64],
    answers: &'static [(Step, Result<u64, DiskFault>)],
    left: (u64, u64, Option<u64>),
}

const FAULT: DiskFault = DiskFault { faults: 1 };

static RUNS: &[Run] = &[
    // A page is hardened as often as it is written.
    Run {
        failing: &[],
        answers: &[
            (Step::Harden(0x10_0000), Ok(0)),
            (Step::Put(0x10_0050, 7), Ok(2)),
            (Step::Harden(0x10_0050), Ok(3)),
            (Step::Harden(0x10_0050), Ok(3)),
            (Step::Put(0x10_0078, 8), Ok(4)),
            (Step::Harden(0x10_0078), Ok(5)),
        ],
        left: (5, 0x10_0078, None),
    },
    // A fault is told again without a call.
    Run {
        failing: &[2],
        answers: &[
            (Step::Put(0x10_0050, 7), Err(FAULT)),
            (Step::Put(0x10_0050, 7), Err(FAULT)),
            (Step::Harden(0x10_0000), Err(FAULT)),
        ],
        left: (2, 0x10_0000, Some(1)),
    },
];

fn make(rt: &impl Abort, writer: &mut Writer<MemDisk>, run: &Run) {
    for (row, (step, answer)) in run.answers.iter().enumerate() {
        assert_eq!(rt; moment_behind(writer, *step), *answer, "row {row}");
    }
    assert_eq!(rt;
        (writer.moment(), writer.written().0, writer.fault()),
        run.left
    );
}

#[test]
fn pages_are_put_and_made_durable(rt: HostRuntime) -> Result<(), Fail> {
    for run in RUNS {
        make(&rt, &mut writer_on_disk(rt.alloc(), run.failing)?, run);
    }
    Ok(())
}

static TWO_SEGMENTS: &[(Call, Answer)] = &[
    (Call::Read(1, 127), Ok(Some([1; 4]))),
    (Call::Read(2, 0), Ok(Some([2; 4]))),
    (Call::Read(2, 1), Ok(Some([0; 4]))),
    (Call::Read(3, 0), Ok(None)),
];

#[test]
fn full_segment_is_synced_and_the_next_one_made(rt: HostRuntime) -> Result<(), Fail> {
    let mut writer = writer_on_disk(rt.alloc(), &[])?;
    for page in 129..257 {
        let _ = moment_behind(&mut writer, Step::Put(page * 8192, 1));
    }
    let answers = [
        moment_behind(&mut writer, Step::Harden(0x20_0000)),
        moment_behind(&mut writer, Step::Put(0x20_0030, 2)),
    ];
    assert_eq!(rt; answers, [Ok(130), Ok(132)]);
    assert_eq!(rt; writer.disk().faults(), 0);
    play(&rt, &mut writer.into_disk(), TWO_SEGMENTS);
    Ok(())
}

static FOUND: &[(Call, Answer)] = &[
    (Call::Create(1), DONE),
    (Call::Write(1, 0, 7), DONE),
    (Call::Write(1, 1, 8), DONE),
    (Call::Create(2), DONE),
    (Call::Write(2, 0, 9), DONE),
];

static SETTLED: &[(Call, Answer)] = &[
    (Call::Read(1, 0), Ok(Some([7, 7, 0, 0]))),
    (Call::Read(1, 1), Ok(Some([0; 4]))),
    (Call::Read(2, 0), Ok(Some([0; 4]))),
    (Call::Read(3, 0), Ok(None)),
];

// Two syncs, three pages that are cleared, and two syncs; then the first two again.
#[test]
fn found_log_is_settled(rt: HostRuntime) -> Result<(), Fail> {
    let alloc = rt.alloc();
    let mut disk = MemDisk::new(alloc, 4, 1000, Vec::new(alloc), Vec::new(alloc))?;
    play(&rt, &mut disk, FOUND);
    let mut page = [0; 8192];
    for moment in [12, 14] {
        let count = settle(alloc, &mut disk, smallest(), Lsn(0x10_0010), &mut page);
        assert_eq!(rt; (count, disk.moment()), (Ok(2), moment));
        play(&rt, &mut disk, SETTLED);
    }
    Ok(())
}
