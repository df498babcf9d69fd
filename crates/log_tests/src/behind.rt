//! Commits that are answered before they are durable, and flushes behind them, on one thread.

ghost use Rattle.wal_log.specs.Logs.{IsPassOfLog};

use crate::filled::{SETUP, open};
use crate::records::record;
use log_workers::transaction;
use segment_disk::MemDisk;
use std::alloc::Global;
use std::process::Abort;
use std::sync::Wait;
use std::test::Fail;
use wal_log::{Caught, FlushErr, Hard, InsertErr, Pass, Receipt, TryFlushErr, Wal};
use wal_types::Lsn;

// A call with what it has to be told.
#[derive(Clone, Copy)]
enum Step {
    // Of a record with so many bytes of main data, up to this end.
    Insert(usize, Lsn),
    // Of a record that takes up 40 bytes, answered ahead.
    Commit(Result<Receipt, InsertErr>),
    // A flush behind: it flushes up to there, since this moment; it finds nothing to flush behind
    // that address; it is refused.
    Flushed(Lsn, u64),
    Idle(Lsn),
    Refused(FlushErr),
    // One try of a flush behind.
    Tried(Result<Caught, TryFlushErr>),
    // How far the log is durable, which makes no device call.
    Hard(Hard),
}

// Calls on a log of which the device calls with these numbers fail.
struct Row {
    what: &'static str,
    fail: &'static [u64],
    steps: &'static [Step],
}

const START: Lsn = Lsn(0x10_0000);

const END: Lsn = Lsn(0x10_0050);

// Where a first record ends if it takes up 40 bytes.
const FIRST: Receipt = Receipt {
    start: Lsn(0x10_0028),
    end: END,
};

const COMMITTED: Step = Step::Commit(Ok(FIRST));

const NOTHING_HARD: Step = Step::Hard(Hard {
    upto: START,
    moment: 0,
});

const PAGE_END: Lsn = Lsn(0x10_2000);

const ROWS: &[Row] = &[
    Row {
        what: "a commit answered ahead is flushed behind, once",
        fail: &[],
        steps: &[
            COMMITTED,
            NOTHING_HARD,
            Step::Flushed(END, 3),
            Step::Idle(END),
            Step::Hard(Hard {
                upto: END,
                moment: 3,
            }),
        ],
    },
    Row {
        what: "one try flushes it too, once",
        fail: &[],
        steps: &[
            COMMITTED,
            Step::Tried(Ok(Caught::Flushed(Hard {
                upto: END,
                moment: 3,
            }))),
            Step::Tried(Ok(Caught::Idle { upto: END })),
        ],
    },
    // The segment is made, both pages are written, and it is synced.
    Row {
        what: "a commit stands on the next page",
        fail: &[],
        steps: &[
            Step::Insert(8123, PAGE_END),
            Step::Commit(Ok(Receipt {
                start: Lsn(0x10_2018),
                end: Lsn(0x10_2040),
            })),
            Step::Flushed(Lsn(0x10_2040), 4),
            Step::Idle(Lsn(0x10_2040)),
        ],
    },
    Row {
        what: "where the end is a page's start, the whole page is flushed",
        fail: &[],
        steps: &[
            Step::Insert(8123, PAGE_END),
            Step::Flushed(PAGE_END, 3),
            Step::Idle(PAGE_END),
        ],
    },
    Row {
        what: "what nobody answered is flushed with its page alone",
        fail: &[],
        steps: &[Step::Insert(8, END), Step::Idle(START), NOTHING_HARD],
    },
    Row {
        what: "a failed sync is told to who made it, and then to all",
        fail: &[3],
        steps: &[
            COMMITTED,
            Step::Refused(FlushErr::Disk { faults: 1 }),
            Step::Refused(FlushErr::Down { faults: 1 }),
            Step::Tried(Err(TryFlushErr::Down { faults: 1 })),
            Step::Commit(Err(InsertErr::Down {
                faults: 1,
                start: None,
            })),
            NOTHING_HARD,
        ],
    },
];

// Whether a call is told what it has to be.
fn is_told<R: Wait>(
    rt: &R,
    alloc: Global,
    log: &Wal<MemDisk>,
    pass: &mut Pass,
    step: Step,
) -> Result<bool, Fail>
    requires pass { IsPassOfLog log.now pass.old }
    ensures pass { IsPassOfLog log.now pass.new }
{
    Ok(match step {
        Step::Insert(len, end) => {
            let body = record(alloc, 1, len)?;
            matches!(log.insert(rt, pass, &body), Ok(receipt) if receipt.end == end)
        }
        Step::Commit(told) => {
            let body = transaction(alloc, 1)?;
            log.commit_async(rt, pass, &body) == told
        }
        Step::Flushed(upto, moment) => {
            let hard = Hard { upto, moment };
            log.write_behind(rt, pass) == Ok(Caught::Flushed(hard))
        }
        Step::Idle(upto) => log.write_behind(rt, pass) == Ok(Caught::Idle { upto }),
        Step::Refused(e) => log.write_behind(rt, pass) == Err(e),
        Step::Tried(told) => log.try_write_behind(pass) == told,
        Step::Hard(told) => log.hard(pass) == told,
    })
}

// Which step of a row is told something else.
fn first_other<R: Wait>(rt: &R, alloc: Global, row: &Row) -> Result<Option<usize>, Fail> {
    let (log, mut pass) = open(alloc, SETUP, Vec::from_slice(alloc, row.fail)?)?;
    for (k, step) in row.steps.iter().enumerate() {
        if !is_told(rt, alloc, &log, &mut pass, *step)? {
            return Ok(Some(k));
        }
    }
    Ok(None)
}

#[test]
fn commits_are_answered_ahead_and_flushed_behind(rt: HostRuntime) -> Result<(), Fail> {
    for row in ROWS {
        let other = first_other(&rt, rt.alloc(), row)?;
        assert_eq!(rt; other, None, "{}", row.what);
    }
    Ok(())
}
