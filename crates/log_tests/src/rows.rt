//! What logs answer on one thread, call by call.

use crate::filled::{Ended, SETUP, filled};
use crate::steps::{Step, jobs_of};
use log_workers::Job;
use segment_disk::Disk;
use std::alloc::Global;
use std::process::Abort;
use std::sync::Wait;
use std::test::Fail;
use std::thread::Threads;
use wal_log::{
    Cause, Closed, CommitErr, FlushErr, Hard, InsertErr, Receipt, Sealed, Setup, Switch, SwitchErr,
};
use wal_types::Lsn;

// A log, what its backends ask one behind the other, and what is left of it.
struct Row {
    what: &'static str,
    ring_pages: u32,
    cap_segments: u32,
    // The counted calls that fail.
    fail: &'static [u64],
    backends: &'static [&'static [Step]],
    // The log's end, the disk's moment, and its count of faults where it has failed.
    left: (Lsn, u64, Option<u64>),
}

// Where the first record starts, behind the header with which segment 1 begins.
const START: Lsn = Lsn(0x10_0028);

// Where the first record ends if it takes up 40 bytes, and where it does if it fills its page.
const END: Lsn = Lsn(0x10_0050);

const PAGE_END: Lsn = Lsn(0x10_2000);

// Where a first record of 60,000 bytes ends.
const LONG_END: Lsn = Lsn(0x10_eb30);

const COMMITTED: Step = Step::Commit(Ok(Sealed {
    start: START,
    end: END,
    moment: 3,
}));

const FAILED: Step = Step::Commit(Err(CommitErr {
    cause: Cause::Disk { faults: 1 },
    reserved: Some(START),
}));

const DOWN: Step = Step::Commit(Err(CommitErr {
    cause: Cause::Down { faults: 1 },
    reserved: None,
}));

const FILLS_ITS_PAGE: Step = Step::Insert(
    8123,
    Ok(Receipt {
        start: START,
        end: PAGE_END,
    }),
);

const ROWS: &[Row] = &[
    Row {
        what: "nothing is flushed",
        ring_pages: 64,
        cap_segments: 64,
        fail: &[],
        backends: &[&[Step::Flush(
            Lsn(0x10_0000),
            Ok(Hard {
                upto: Lsn(0x10_0000),
                moment: 0,
            }),
        )]],
        left: (Lsn(0x10_0000), 0, None),
    },
    // The segment is made, both pages are written, and it is synced.
    Row {
        what: "a commit stands on the next page",
        ring_pages: 64,
        cap_segments: 64,
        fail: &[],
        backends: &[&[
            FILLS_ITS_PAGE,
            Step::Commit(Ok(Sealed {
                start: Lsn(0x10_2018),
                end: Lsn(0x10_2040),
                moment: 4,
            })),
        ]],
        left: (Lsn(0x10_2040), 4, None),
    },
    // The next page, which has no record, is not written.
    Row {
        what: "a full page is flushed",
        ring_pages: 64,
        cap_segments: 64,
        fail: &[],
        backends: &[&[
            FILLS_ITS_PAGE,
            Step::Flush(
                PAGE_END,
                Ok(Hard {
                    upto: PAGE_END,
                    moment: 3,
                }),
            ),
        ]],
        left: (PAGE_END, 3, None),
    },
    Row {
        what: "a flush makes no call where its address is reached, and none is above the end",
        ring_pages: 64,
        cap_segments: 64,
        fail: &[],
        backends: &[&[
            COMMITTED,
            Step::Insert(
                1,
                Ok(Receipt {
                    start: END,
                    end: Lsn(0x10_0070),
                }),
            ),
            Step::Flush(
                Lsn(0x10_0030),
                Ok(Hard {
                    upto: END,
                    moment: 3,
                }),
            ),
            Step::Flush(
                END,
                Ok(Hard {
                    upto: END,
                    moment: 3,
                }),
            ),
            Step::Flush(
                Lsn(0x10_0051),
                Ok(Hard {
                    upto: Lsn(0x10_0070),
                    moment: 5,
                }),
            ),
            Step::Flush(
                Lsn(0x20_0000),
                Err(FlushErr::Unreserved {
                    end: Lsn(0x10_0070),
                }),
            ),
        ]],
        left: (Lsn(0x10_0070), 5, None),
    },
    Row {
        what: "a record fills the ring, and none of it has to be written",
        ring_pages: 4,
        cap_segments: 64,
        fail: &[],
        backends: &[&[Step::Insert(
            32_627,
            Ok(Receipt {
                start: START,
                end: Lsn(0x10_8000),
            }),
        )]],
        left: (Lsn(0x10_8000), 0, None),
    },
    // The segment is made, and its first four pages are written.
    Row {
        what: "a record longer than the ring is written while it is inserted",
        ring_pages: 4,
        cap_segments: 64,
        fail: &[],
        backends: &[&[Step::Insert(
            59_971,
            Ok(Receipt {
                start: START,
                end: LONG_END,
            }),
        )]],
        left: (LONG_END, 5, None),
    },
    // One call makes the segment, 128 write its pages, and one syncs it.
    Row {
        what: "a commit ends its segment",
        ring_pages: 64,
        cap_segments: 64,
        fail: &[],
        backends: &[&[
            Step::Insert(
                1_045_419,
                Ok(Receipt {
                    start: START,
                    end: Lsn(0x1f_ffd8),
                }),
            ),
            Step::Commit(Ok(Sealed {
                start: Lsn(0x1f_ffd8),
                end: Lsn(0x20_0000),
                moment: 130,
            })),
        ]],
        left: (Lsn(0x20_0000), 130, None),
    },
    Row {
        what: "a full log tells what is left",
        ring_pages: 64,
        cap_segments: 1,
        fail: &[],
        backends: &[&[
            COMMITTED,
            Step::Insert(1_045_420, Err(InsertErr::Full { free: 1_045_448 })),
            Step::Flush(
                END,
                Ok(Hard {
                    upto: END,
                    moment: 3,
                }),
            ),
        ]],
        left: (END, 3, None),
    },
    Row {
        what: "two passes insert, which makes no call",
        ring_pages: 4,
        cap_segments: 2,
        fail: &[],
        backends: &[
            &[Step::Insert(
                8,
                Ok(Receipt {
                    start: START,
                    end: END,
                }),
            )],
            &[Step::Insert(
                8,
                Ok(Receipt {
                    start: END,
                    end: Lsn(0x10_0078),
                }),
            )],
        ],
        left: (Lsn(0x10_0078), 0, None),
    },
    // A record keeps its place, and a call that fails is counted.
    Row {
        what: "no segment is made for a record that is inserted",
        ring_pages: 4,
        cap_segments: 64,
        fail: &[1],
        backends: &[&[
            Step::Insert(
                59_971,
                Err(InsertErr::Disk {
                    faults: 1,
                    start: START,
                }),
            ),
            DOWN,
            Step::Flush(START, Err(FlushErr::Down { faults: 1 })),
        ]],
        left: (LONG_END, 1, Some(1)),
    },
    // The commit's page is written again with the rest of its segment, which is synced before the
    // next one is made.
    Row {
        what: "a switch ends its segment, and another one stays",
        ring_pages: 4,
        cap_segments: 2,
        fail: &[],
        backends: &[&[
            COMMITTED,
            Step::Switch(Ok(Switch::Done {
                start: END,
                end: Lsn(0x20_0000),
            })),
            Step::Switch(Ok(Switch::Stayed {
                end: Lsn(0x20_0000),
            })),
            Step::Commit(Ok(Sealed {
                start: Lsn(0x20_0028),
                end: Lsn(0x20_0050),
                moment: 135,
            })),
        ]],
        left: (Lsn(0x20_0050), 135, None),
    },
    Row {
        what: "too few bytes are left for a switch",
        ring_pages: 64,
        cap_segments: 1,
        fail: &[],
        backends: &[&[
            Step::Insert(
                1_045_451,
                Ok(Receipt {
                    start: START,
                    end: Lsn(0x1f_fff8),
                }),
            ),
            Step::Switch(Err(SwitchErr::Full { free: 8 })),
        ]],
        left: (Lsn(0x1f_fff8), 65, None),
    },
    Row {
        what: "the write of a commit fails",
        ring_pages: 4,
        cap_segments: 2,
        fail: &[2],
        backends: &[&[FAILED, DOWN]],
        left: (END, 2, Some(1)),
    },
    Row {
        what: "the sync of another pass's commit fails",
        ring_pages: 4,
        cap_segments: 2,
        fail: &[3],
        backends: &[
            &[FAILED],
            &[
                DOWN,
                Step::Insert(
                    8,
                    Err(InsertErr::Down {
                        faults: 1,
                        start: None,
                    }),
                ),
            ],
        ],
        left: (END, 3, Some(1)),
    },
];

#[test]
fn calls_are_told_what_is_listed(rt: HostRuntime) -> Result<(), Fail> {
    for row in ROWS {
        tells(&rt, rt.alloc(), row)?;
    }
    Ok(())
}

fn tells<R: Abort + Threads + Wait + Sync>(rt: &R, alloc: Global, row: &Row) -> Result<(), Fail> {
    let setup = Setup {
        ring_pages: row.ring_pages,
        cap_segments: row.cap_segments,
        ..SETUP
    };
    let fail = Vec::from_slice(alloc, row.fail)?;
    let Ended { work, closed } = filled(rt, alloc, setup, fail, jobs(alloc, row)?, 1)?;
    assert_eq!(rt; work.len(), row.backends.len());
    for (jobs, steps) in work.iter().zip(row.backends) {
        are_told(rt, row.what, jobs, steps);
    }
    let Closed { disk, end, down } = closed;
    assert_eq!(rt; (end, disk.moment(), down), row.left, "{}", row.what);
    Ok(())
}

fn jobs(alloc: Global, row: &Row) -> Result<Vec<Vec<Job>>, Fail> {
    let mut work = Vec::new(alloc);
    for steps in row.backends {
        work.push(jobs_of(alloc, steps)?)?;
    }
    Ok(work)
}

pub(crate) fn are_told<R: Abort>(rt: &R, what: &str, jobs: &[Job], steps: &[Step]) {
    assert_eq!(rt; jobs.len(), steps.len());
    for (job, step) in jobs.iter().zip(steps) {
        assert_eq!(rt; job.told, Some(step.told()), "{what}");
    }
}
