//! A copy that stops for good, with its lock held, on a disk that fails: each call beside it ends.

ghost use Rattle.std.specs.Prelude.{◌≡◌, false, IfOk};
ghost use Rattle.wal_spelling.specs.Spelling.{is_assembled_switch};
ghost use Rattle.wal_log.specs.Flights.{IsInFlightOf};
ghost use Rattle.wal_log.specs.Logs.{IsPassOfLog};

use crate::filled::{SETUP, open};
use crate::in_flight::{begun, copied, copies};
use crate::records::record;
use crate::rows::are_told;
use crate::steps::{Step, jobs_of};
use log_workers::{Job, Worker};
use segment_disk::MemDisk;
use std::alloc::Global;
use std::process::Abort;
use std::sync::Wait;
use std::sync::atomic::AtomicU64;
use std::test::Fail;
use std::thread;
use std::thread::Threads;
use wal_log::{
    CopyStop, FlushErr, Hard, Inflight, InsertErr, Pass, Setup, SwitchErr, TryErr, TryFlushErr, Wal,
};
use wal_spelling::Body;
use wal_types::Lsn;

type Log = Wal<MemDisk>;

// A call that waits for the copy, what it has to be told once the disk has failed, and how often is
// looked at most whether it has reserved a place before that.
struct Row {
    what: &'static str,
    looks: u32,
    waits: &'static [Step],
}

// The record before the copy ends here, and the copy's own there.
const FIRST_END: Lsn = Lsn(0x10_0050);

const END: Lsn = Lsn(0x10_0078);

// Above all that is reserved.
const ABOVE: Lsn = Lsn(0x20_0000);

const ROWS: &[Row] = &[
    // It is longer than the ring of four pages: it needs the page in which the copy stands.
    Row {
        what: "an insert that needs the copy's page",
        looks: 10_000_000,
        waits: &[Step::Insert(
            59_971,
            Err(InsertErr::Down {
                faults: 1,
                start: Some(END),
            }),
        )],
    },
    Row {
        what: "a flush up to the copy's end",
        looks: 20_000,
        waits: &[Step::Flush(END, Err(FlushErr::Down { faults: 1 }))],
    },
    Row {
        what: "a switch, which takes all locks",
        looks: 20_000,
        waits: &[Step::Switch(Err(SwitchErr::Down {
            faults: 1,
            start: None,
        }))],
    },
];

// What a pass is told that comes behind the fault.
const BEHIND: &[Step] = &[
    Step::Insert(
        8,
        Err(InsertErr::Down {
            faults: 1,
            start: None,
        }),
    ),
    Step::Flush(FIRST_END, Err(FlushErr::Down { faults: 1 })),
    Step::Switch(Err(SwitchErr::Down {
        faults: 1,
        start: None,
    })),
];

// A pass that is split off the first one.
pub(crate) fn split(log: &Log, first: &mut Pass) -> Result<Pass, Fail>
    requires first { IsPassOfLog log.now first.old }
    ensures first { IsPassOfLog log.now first.new }
    ensures second { IfOk result (λ pass. IsPassOfLog log.now pass) }
{
    if first.spare() == 0 {
        return Err(Fail::from("a spare pass"));
    }
    Ok(log.split(first))
}

// A pass makes its calls.
fn works<R: Wait>(rt: &R, log: &Log, pass: Pass, jobs: Vec<Job>) -> Vec<Job>
    requires pass { IsPassOfLog log.now pass }
{
    let mut worker = Worker { pass, jobs };
    worker.work(rt, log, &AtomicU64::new(1));
    let Worker { pass: _, jobs } = worker;
    jobs
}

// Looks until something is reserved behind the copy, but so many times at most.
fn awaits_a_record(log: &Log, pass: &mut Pass, looks: u32)
    requires pass { IsPassOfLog log.now pass.old }
    ensures pass { IsPassOfLog log.now pass.new }
{
    let unchanged = Err(TryFlushErr::Unreserved { end: END });
    for _look in 0..looks {
        if log.try_flush(pass, ABOVE) != unchanged {
            return;
        }
        thread::yield_now();
    }
}

// A flush, the disk's first call of which fails.
fn fails<R: Wait>(rt: &R, log: &Log, pass: Pass, looks: u32) -> Result<Hard, FlushErr>
    requires pass { IsPassOfLog log.now pass }
{
    let mut pass = pass;
    awaits_a_record(log, &mut pass, looks);
    log.flush(rt, &mut pass, FIRST_END)
}

// The copy is given up, which leaves its lock held.
fn given_up<'a, R: Abort>(rt: &R, log: &Log, flight: Inflight<'a>) -> Pass
    requires flight { IsInFlightOf log.now flight }
    ensures pass { IsPassOfLog log.now result }
{
    match flight.give_up(log) {
        Ok(pass) => pass,
        Err(_back) => panic!(rt; "the disk has failed"),
    }
}

// One pass makes calls that wait, while another one's flush fails.
fn side_by_side<R: Threads + Wait + Sync>(
    rt: &R,
    log: &Log,
    first: Pass,
    third: Pass,
    waits: Vec<Job>,
    looks: u32,
) -> (Vec<Job>, Result<Hard, FlushErr>)
    requires first { IsPassOfLog log.now first }
    requires third { IsPassOfLog log.now third }
{
    thread::join(
        rt,
        move ||
            requires { IsPassOfLog log.now third }
        { works(rt, log, third, waits) },
        move ||
            requires { IsPassOfLog log.now first }
        { fails(rt, log, first, looks) },
    )
}

// The second pass copies two words of its record and no more, beside calls of the first and the
// third. Its copy is given up then.
fn beside_a_copy<R: Abort + Threads + Wait + Sync>(
    rt: &R,
    log: &Log,
    passes: (Pass, Pass, Pass),
    body: &Body,
    waits: Vec<Job>,
    looks: u32,
) -> (Vec<Job>, Pass)
    requires first { IsPassOfLog log.now passes.0 }
    requires second { IsPassOfLog log.now passes.1 }
    requires third { IsPassOfLog log.now passes.2 }
    requires inserted { is_assembled_switch body.now ≡ false }
    ensures pass { IsPassOfLog log.now result.1 }
{
    let (first, second, third) = passes;
    let mut flight = begun(rt, log, second, body);
    copies(rt, log, &mut flight, 2, copied(2, CopyStop::Asked));
    let (told, flushed) = side_by_side(rt, log, first, third, waits, looks);
    let second = given_up(rt, log, flight);
    assert!(rt; flushed == Err(FlushErr::Disk { faults: 1 }));
    (told, second)
}

// No place is reserved behind the fault.
fn begins_nothing<R: Abort>(rt: &R, log: &Log, pass: Pass, body: &Body)
    requires pass { IsPassOfLog log.now pass }
    requires inserted { is_assembled_switch body.now ≡ false }
{
    match log.try_begin(pass, body) {
        Err((TryErr::Down { faults }, _pass)) => assert!(rt; faults == 1),
        _ => panic!(rt; "the disk has failed"),
    }
}

fn ends<R: Abort + Threads + Wait + Sync>(rt: &R, alloc: Global, row: &Row) -> Result<(), Fail> {
    let body = record(alloc, 1, 8)?;
    let waits = jobs_of(alloc, row.waits)?;
    let behind = jobs_of(alloc, BEHIND)?;
    let (log, mut first) = open(alloc, SETUP, vec![in alloc; 1; 1]?)?;
    let second = split(&log, &mut first)?;
    let third = split(&log, &mut first)?;
    let fourth = split(&log, &mut first)?;
    assert!(rt; log.insert(rt, &mut first, &body).is_ok());
    let (told, second) = beside_a_copy(rt, &log, (first, second, third), &body, waits, row.looks);
    are_told(rt, row.what, &told, row.waits);
    are_told(rt, row.what, &works(rt, &log, fourth, behind), BEHIND);
    begins_nothing(rt, &log, second, &body);
    Ok(())
}

#[test]
fn calls_beside_a_copy_that_stops_for_good_end(rt: HostRuntime) -> Result<(), Fail> {
    for row in ROWS {
        ends(&rt, rt.alloc(), row)?;
    }
    Ok(())
}

// One byte more than a segment has is refused, and so is one more than what a record of 40 leaves
// of it.
#[test]
fn a_full_log_reserves_nothing(rt: HostRuntime) -> Result<(), Fail> {
    let alloc = rt.alloc();
    let setup = Setup {
        cap_segments: 1,
        ..SETUP
    };
    let (log, mut first) = open(alloc, setup, Vec::new(alloc))?;
    let mut pass = split(&log, &mut first)?;
    for (len, left) in [(1_045_460, 1_045_488), (1_045_420, 1_045_448)] {
        let long = record(alloc, 1, len)?;
        pass = match log.try_begin(pass, &long) {
            Err((TryErr::Full { free }, back)) => {
                assert_eq!(rt; free, left);
                back
            }
            _ => panic!(&rt; "the log is full"),
        };
        assert!(&rt; log.insert(&rt, &mut first, &record(alloc, 2, 8)?).is_ok());
    }
    Ok(())
}
