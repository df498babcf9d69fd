//! Records that are inserted step by step, on one thread with several passes.

ghost use Rattle.std.specs.Prelude.{◌≡◌, false, [], ◌∷◌, IfOk};
ghost use Rattle.wal_spelling.specs.Spelling.{is_assembled_switch};
ghost use Rattle.wal_rule.specs.Passes.{view_of_pass};
ghost use Rattle.wal_log.specs.Flights.{IsInFlightOf, view_of_flight};
ghost use Rattle.wal_log.specs.Logs.{IsPassOfLog, setup_of_log};
ghost use Rattle.wal_log.specs.Sharing.{ShareNumbers};
ghost use Rattle.wal_log.specs.Standing.{KeepsPass};
ghost use Rattle.log_tests.specs.Pairs.{AreOfLog, KeepsBoth};

use crate::filled::{SETUP, open};
use crate::reading::{ReadBack, records_on};
use crate::records::record;
use log_workers::transaction;
use segment_disk::{Disk, MemDisk, Pick};
use std::alloc::Global;
use std::process::Abort;
use std::test::Fail;
use wal_log::numbers::calls_keep_numbers;
use wal_log::shared_numbers::passes_share_numbers;
use wal_log::{
    Closed, Copied, CopyStop, Hard, Inflight, LockNo, Pass, Receipt, Setup, TryErr, TryFlushErr,
    Wal,
};
use wal_rule::numbers::seats_keep_numbers;
use wal_spelling::Body;
use wal_types::Lsn;

type Log = Wal<MemDisk>;

// The order in which two passes insert a record each, and the calls between.
#[derive(Clone, Copy)]
enum Order {
    OtherWayRound,
    SecondInPart,
    RingFull,
}

// Two records with so much main data, and what is left of their log: the disk's moment, and what
// is read of whatever a crash leaves, from the moment of a sync on. The call before that wrote it:
// then it is read of the new words alone, and before that nothing is.
struct Row {
    order: Order,
    lens: [usize; 2],
    moment: u64,
    since: u64,
    found: &'static [ReadBack],
}

const ROWS: &[Row] = &[
    Row {
        order: Order::OtherWayRound,
        lens: [8, 8],
        moment: 3,
        since: 3,
        found: &[
            ReadBack {
                start: FIRST.start.0,
                xid: 1,
            },
            ReadBack {
                start: SECOND.start.0,
                xid: 2,
            },
        ],
    },
    Row {
        order: Order::SecondInPart,
        lens: [8, 8],
        moment: 5,
        since: 3,
        found: &[ReadBack {
            start: FIRST.start.0,
            xid: 1,
        }],
    },
    Row {
        order: Order::RingFull,
        lens: [59_971, 8],
        moment: 6,
        since: 0,
        found: &[],
    },
];

const START: Lsn = Lsn(0x10_0000);

// Two records that take up 40 bytes each. The first one's words are those of the page's header too.
const FIRST: Receipt = Receipt {
    start: Lsn(0x10_0028),
    end: Lsn(0x10_0050),
};

const SECOND: Receipt = Receipt {
    start: Lsn(0x10_0050),
    end: Lsn(0x10_0078),
};

const NONE: Hard = Hard {
    upto: START,
    moment: 0,
};

// Two words of the second record lie below, and three.
const TWO_WORDS: Lsn = Lsn(0x10_0060);

const THREE_WORDS: Lsn = Lsn(0x10_0068);

// The last one of the ring's four pages of segment 1 is not written, and holds the record itself.
const NO_PAGE: CopyStop = CopyStop::Absent {
    page: 132,
    end: 1_056_768,
    turn: 0,
    written: 1_048_576,
};

// Four pages of it are written.
const FOUR_PAGES: Lsn = Lsn(0x10_8000);

const LONG: Receipt = Receipt {
    start: Lsn(0x10_0028),
    end: Lsn(0x10_eb30),
};

// What calls are told.
pub(crate) fn copied(k: u32, stop: CopyStop) -> Copied {
    Copied { k, stop }
}

fn hard(upto: Lsn, moment: u64) -> Result<Hard, TryFlushErr> {
    Ok(Hard { upto, moment })
}

fn behind(lock: u8, word: u64) -> Result<Hard, TryFlushErr> {
    Err(TryFlushErr::Behind {
        lock: LockNo(lock),
        word,
    })
}

// A log with its first pass, and one that is split off it.
fn shared(alloc: Global, setup: Setup) -> Result<(Log, Pass, Pass), Fail>
    ensures first { IfOk result (λ s. IsPassOfLog s.0 s.1) }
    ensures second { IfOk result (λ s. IsPassOfLog s.0 s.2) }
    ensures none { IfOk result (λ s. (view_of_pass s.2).reserving.spare_end ≡ 0) }
    ensures numbers { IfOk result (λ s. ShareNumbers (setup_of_log s.0).passes (view_of_pass s.1)
        (view_of_pass s.2 ∷ [])) }
{
    seats_keep_numbers();
    passes_share_numbers();
    let (log, mut first) = open(alloc, setup, Vec::new(alloc))?;
    if first.spare() == 0 {
        return Err(Fail::from("a spare pass"));
    }
    let second = log.split(&mut first);
    Ok((log, first, second))
}

// A record's place is reserved.
pub(crate) fn begun<'a, R: Abort>(rt: &R, log: &Log, pass: Pass, body: &'a Body<'a>) -> Inflight<'a>
    requires pass { IsPassOfLog log.now pass }
    requires inserted { is_assembled_switch body.now ≡ false }
    ensures flight { IsInFlightOf log.now result }
    ensures keeps { KeepsPass (view_of_pass pass) (view_of_flight result) }
{
    match log.try_begin(pass, body) {
        Ok(flight) => flight,
        Err(_) => panic!(rt; "a place and a free lock"),
    }
}

// So many of its words are copied.
pub(crate) fn copies<'a, R: Abort>(
    rt: &R,
    log: &Log,
    flight: &mut Inflight<'a>,
    n: u32,
    told: Copied,
)
    requires flight { IsInFlightOf log.now flight.old }
    ensures flight { IsInFlightOf log.now flight.new }
    ensures keeps { KeepsPass (view_of_flight flight.old) (view_of_flight flight.new) }
{
    let copied = flight.copy(log, n);
    assert!(rt; copied == told);
}

// A try of a flush is told this.
fn flushes<R: Abort>(rt: &R, log: &Log, pass: &mut Pass, upto: Lsn, told: Result<Hard, TryFlushErr>)
    requires pass { IsPassOfLog log.now pass.old }
    ensures pass { IsPassOfLog log.now pass.new }
    ensures keeps { KeepsPass (view_of_pass pass.old) (view_of_pass pass.new) }
{
    let answer = log.try_flush(pass, upto);
    assert!(rt; answer == told);
}

// So far the log is told to be durable.
fn is_hard<R: Abort>(rt: &R, log: &Log, pass: &mut Pass, told: Hard)
    requires pass { IsPassOfLog log.now pass.old }
    ensures pass { IsPassOfLog log.now pass.new }
    ensures keeps { KeepsPass (view_of_pass pass.old) (view_of_pass pass.new) }
{
    let answer = log.hard(pass);
    assert!(rt; answer == told);
}

// Its words are copied that are left, so many, and its lock is given back.
pub(crate) fn finished<'a, R: Abort>(
    rt: &R,
    log: &Log,
    mut flight: Inflight<'a>,
    left: u32,
    receipt: Receipt,
) -> Pass
    requires flight { IsInFlightOf log.now flight }
    ensures pass { IsPassOfLog log.now result }
    ensures keeps { KeepsPass (view_of_flight flight.entry) (view_of_pass result) }
{
    copies(rt, log, &mut flight, 5000, copied(left, CopyStop::Whole));
    match flight.finish(log) {
        Ok((told, pass)) => {
            assert!(rt; told == receipt);
            pass
        }
        Err(_back) => panic!(rt; "no word is left"),
    }
}

// Words are left: so it is not finished.
fn not_finished<'a, R: Abort>(rt: &R, log: &Log, flight: Inflight<'a>) -> Inflight<'a>
    requires flight { IsInFlightOf log.now flight }
    ensures { result ≡ flight.entry }
{
    match flight.finish(log) {
        Ok(_) => panic!(rt; "words are left"),
        Err(back) => back,
    }
}

// The disk has not failed: so it is not given up.
fn handed_back<'a, R: Abort>(rt: &R, log: &Log, flight: Inflight<'a>) -> Inflight<'a>
    requires flight { IsInFlightOf log.now flight }
    ensures flight { IsInFlightOf log.now result }
    ensures keeps { KeepsPass (view_of_flight flight.entry) (view_of_flight result) }
{
    let back = not_finished(rt, log, flight);
    match back.give_up(log) {
        Ok(_) => panic!(rt; "no disk has failed"),
        Err(again) => again,
    }
}

// The first pass takes the other one in, and the log is closed.
fn closed(log: Log, mut first: Pass, second: Pass) -> Closed<MemDisk>
    requires first { IsPassOfLog log first }
    requires second { IsPassOfLog log second }
    requires numbers { ShareNumbers (setup_of_log log).passes (view_of_pass first)
        (view_of_pass second ∷ []) }
    requires none { (view_of_pass second).reserving.spare_end ≡ 0 }
{
    passes_share_numbers();
    log.join(&mut first, second);
    log.close(first)
}

// The record begun first is copied last: until then nothing behind its start is durable.
fn other_way_round<R: Abort>(
    rt: &R,
    log: &Log,
    passes: (Pass, Pass),
    one: &Body,
    two: &Body,
) -> (Pass, Pass)
    requires passes { AreOfLog log.now passes }
    requires one { is_assembled_switch one.now ≡ false }
    requires two { is_assembled_switch two.now ≡ false }
    ensures passes { AreOfLog log.now result }
    ensures keeps { KeepsBoth passes result }
{
    let (first, second) = passes;
    let earlier = begun(rt, log, first, one);
    let later = begun(rt, log, second, two);
    let mut second = finished(rt, log, later, 5, SECOND);
    flushes(rt, log, &mut second, SECOND.end, behind(0, 1));
    is_hard(rt, log, &mut second, NONE);
    let first = finished(rt, log, earlier, 10, FIRST);
    flushes(rt, log, &mut second, SECOND.end, hard(SECOND.end, 3));
    (first, second)
}

// Words of the second record are copied, and told: a flush writes them, and promises what lies
// before them, and the next one of the same address makes no call. A watch for more than that ends
// at the record's lock.
fn second_in_part<R: Abort>(
    rt: &R,
    log: &Log,
    passes: (Pass, Pass),
    one: &Body,
    two: &Body,
) -> (Pass, Pass)
    requires passes { AreOfLog log.now passes }
    requires one { is_assembled_switch one.now ≡ false }
    requires two { is_assembled_switch two.now ≡ false }
    ensures passes { AreOfLog log.now result }
    ensures keeps { KeepsBoth passes result }
{
    let (first, second) = passes;
    let whole = begun(rt, log, first, one);
    let mut first = finished(rt, log, whole, 10, FIRST);
    let unreserved = TryFlushErr::Unreserved { end: FIRST.end };
    flushes(rt, log, &mut first, Lsn(0x20_0000), Err(unreserved));
    let mut partly = begun(rt, log, second, two);
    copies(rt, log, &mut partly, 2, copied(2, CopyStop::Asked));
    flushes(rt, log, &mut first, FIRST.end, hard(TWO_WORDS, 3));
    flushes(rt, log, &mut first, FIRST.end, hard(TWO_WORDS, 3));
    flushes(rt, log, &mut first, SECOND.end, behind(1, TWO_WORDS.0 + 1));
    copies(rt, log, &mut partly, 1, copied(1, CopyStop::Asked));
    flushes(rt, log, &mut first, THREE_WORDS, hard(THREE_WORDS, 5));
    let partly = handed_back(rt, log, partly);
    (first, finished(rt, log, partly, 2, SECOND))
}

// All four buffers hold pages of the record itself, none of which is written. A flush up to where
// the log begins makes no device call, one up to where the copy has come makes room.
fn ring_full<R: Abort>(rt: &R, log: &Log, passes: (Pass, Pass), one: &Body) -> (Pass, Pass)
    requires passes { AreOfLog log.now passes }
    requires one { is_assembled_switch one.now ≡ false }
    ensures passes { AreOfLog log.now result }
    ensures keeps { KeepsBoth passes result }
{
    let (first, mut second) = passes;
    let mut long = begun(rt, log, first, one);
    copies(rt, log, &mut long, 100_000, copied(4096, NO_PAGE));
    flushes(rt, log, &mut second, START, Ok(NONE));
    copies(rt, log, &mut long, 100_000, copied(0, NO_PAGE));
    flushes(rt, log, &mut second, FOUR_PAGES, hard(FOUR_PAGES, 6));
    (finished(rt, log, long, 3430, LONG), second)
}

fn played<R: Abort>(
    rt: &R,
    log: &Log,
    order: Order,
    passes: (Pass, Pass),
    one: &Body,
    two: &Body,
) -> (Pass, Pass)
    requires passes { AreOfLog log.now passes }
    requires one { is_assembled_switch one.now ≡ false }
    requires two { is_assembled_switch two.now ≡ false }
    ensures passes { AreOfLog log.now result }
    ensures keeps { KeepsBoth passes result }
{
    match order {
        Order::OtherWayRound => other_way_round(rt, log, passes, one, two),
        Order::SecondInPart => second_in_part(rt, log, passes, one, two),
        Order::RingFull => ring_full(rt, log, passes, one),
    }
}

// The log in which a row was played, closed.
fn ended<R: Abort>(rt: &R, alloc: Global, row: &Row) -> Result<Closed<MemDisk>, Fail> {
    let one = record(alloc, 1, row.lens[0])?;
    let two = record(alloc, 2, row.lens[1])?;
    let (log, first, second) = shared(alloc, SETUP)?;
    calls_keep_numbers();
    passes_share_numbers();
    let (first, second) = played(rt, &log, row.order, (first, second), &one, &two);
    Ok(closed(log, first, second))
}

// What a crash leaves at each moment, with old words, new ones and both, has these records, if they
// are synced by then, or are written and all words are new; and else none.
fn leaves<R: Abort>(
    rt: &R,
    alloc: Global,
    disk: &MemDisk,
    since: u64,
    found: &[ReadBack],
) -> Result<(), Fail> {
    for moment in 0..=disk.moment() {
        for (pick, from) in [
            (Pick::Old, since),
            (Pick::New, since.saturating_sub(1)),
            (Pick::Odd, since),
        ] {
            let mut left = disk.crash(alloc, moment, pick)?;
            let wanted = if moment < from { &[] } else { found };
            assert!(rt; records_on(alloc, &mut left)?.as_slice() == wanted);
        }
    }
    Ok(())
}

#[test]
fn records_are_copied_in_any_order(rt: HostRuntime) -> Result<(), Fail> {
    let alloc = rt.alloc();
    for row in ROWS {
        let Closed { disk, .. } = ended(&rt, alloc, row)?;
        assert!(rt; disk.moment() == row.moment);
        leaves(&rt, alloc, &disk, row.since, row.found)?;
    }
    Ok(())
}

// Begins so many records, one behind the other with none of them copied, and tells why one could
// not be. They are finished then, the last one first.
fn told_behind<R: Abort>(
    rt: &R,
    log: &Log,
    first: &mut Pass,
    body: &Body,
    count: u32,
) -> Option<TryErr>
    requires pass { IsPassOfLog log.now first.old }
    requires inserted { is_assembled_switch body.now ≡ false }
    ensures pass { IsPassOfLog log.now first.new }
{
    if count == 0 || first.spare() == 0 {
        return None;
    }
    let pass = log.split(first);
    match log.try_begin(pass, &*body) {
        Err((e, pass)) => {
            log.join(first, pass);
            Some(e)
        }
        Ok(flight) => {
            let told = told_behind(rt, log, first, &*body, count - 1);
            log.join(first, spent(rt, log, flight));
            told
        }
    }
}

// A record of which no word is copied is handed back, and then finished.
fn spent<'a, R: Abort>(rt: &R, log: &Log, flight: Inflight<'a>) -> Pass
    requires flight { IsInFlightOf log.now flight }
    ensures pass { IsPassOfLog log.now result }
{
    let mut back = handed_back(rt, log, flight);
    back.copy(log, 5000);
    match back.finish(log) {
        Ok((_, pass)) => pass,
        Err(_back) => panic!(rt; "no word is left"),
    }
}

#[test]
fn eight_records_are_in_flight_at_most(rt: HostRuntime) -> Result<(), Fail> {
    let alloc = rt.alloc();
    let body = transaction(alloc, 1)?;
    let setup = Setup {
        passes: 10,
        ..SETUP
    };
    let (log, mut first) = open(alloc, setup, Vec::new(alloc))?;
    match told_behind(&rt, &log, &mut first, &body, 9) {
        Some(TryErr::AllHeld { seen }) => assert_eq!(rt; seen, [1; 8]),
        _ => panic!(&rt; "all locks are held"),
    }
    Ok(())
}
