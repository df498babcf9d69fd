//! A segment switch by one try, on one thread with two passes.

ghost use Rattle.std.specs.Prelude.{◌≡◌, false};
ghost use Rattle.wal_spelling.specs.Record.{switch_record};
ghost use Rattle.wal_spelling.specs.Spelling.{assembled, is_assembled_switch};
ghost use Rattle.wal_log.specs.Flights.{IsInFlightOf};
ghost use Rattle.wal_log.specs.Logs.{IsPassOfLog};

use crate::filled::{SETUP, open};
use crate::in_flight::{begun, finished};
use crate::records::record;
use crate::stuck::split;
use segment_disk::MemDisk;
use std::process::Abort;
use std::test::Fail;
use wal_log::{Inflight, LockNo, Pass, Receipt, SwitchBegun, TryErr, TrySwitchErr, Wal};
use wal_spelling::Body;
use wal_types::Lsn;

type Log = Wal<MemDisk>;

// So much main data leaves 456 bytes of the segment's 1,045,488 that are in no page header. A
// record of 40 stands there, and the switch takes up 416.
const LONG: usize = 1_045_000;

const SHORT: Receipt = Receipt {
    start: Lsn(0x1f_fe38),
    end: Lsn(0x1f_fe60),
};

const SWITCH: Receipt = Receipt {
    start: Lsn(0x1f_fe60),
    end: Lsn(0x20_0000),
};

// A record is in flight under the lock that is tried first.
fn finds_lock_taken<R: Abort>(rt: &R, log: &Log, pass: Pass, switch: &Body) -> Pass
    requires pass { IsPassOfLog log.now pass }
    requires switch { switch.now ≡ assembled switch_record }
    ensures pass { IsPassOfLog log.now result }
{
    let (lock, word) = (LockNo(0), 1);
    match log.try_switch(pass, switch) {
        Err((e, back)) => {
            assert!(rt; e == TrySwitchErr::Taken { lock, word });
            back
        }
        Ok(_) => panic!(rt; "a lock is held"),
    }
}

fn switch_begun<'a, R: Abort>(rt: &R, log: &Log, pass: Pass, switch: &'a Body<'a>) -> Inflight<'a>
    requires pass { IsPassOfLog log.now pass }
    requires switch { switch.now ≡ assembled switch_record }
    ensures flight { IsInFlightOf log.now result }
{
    match log.try_switch(pass, switch) {
        Ok(SwitchBegun::Going(flight)) => flight,
        _ => panic!(rt; "free locks"),
    }
}

// While it is in flight nobody else reserves.
fn finds_all_held<R: Abort>(rt: &R, log: &Log, pass: Pass, body: &Body) -> Pass
    requires pass { IsPassOfLog log.now pass }
    requires inserted { is_assembled_switch body.now ≡ false }
    ensures pass { IsPassOfLog log.now result }
{
    match log.try_begin(pass, body) {
        Err((TryErr::AllHeld { seen }, back)) => {
            assert!(rt; seen == [1; 8]);
            back
        }
        _ => panic!(rt; "all locks are held"),
    }
}

fn stays<R: Abort>(rt: &R, log: &Log, pass: Pass, switch: &Body)
    requires pass { IsPassOfLog log.now pass }
    requires switch { switch.now ≡ assembled switch_record }
{
    match log.try_switch(pass, switch) {
        Ok(SwitchBegun::Stayed { end, pass: _ }) => assert!(rt; end == SWITCH.end),
        _ => panic!(rt; "a segment's start"),
    }
}

#[test]
fn a_switch_is_tried_beside_a_record(rt: HostRuntime) -> Result<(), Fail> {
    let alloc = rt.alloc();
    let (long, short) = (record(alloc, 1, LONG)?, record(alloc, 2, 8)?);
    let switch = Body::switch(alloc);
    let (log, mut first) = open(alloc, SETUP, Vec::new(alloc))?;
    let second = split(&log, &mut first)?;
    assert!(&rt; log.insert(&rt, &mut first, &long).is_ok());
    let flight = begun(&rt, &log, first, &short);
    let second = finds_lock_taken(&rt, &log, second, &switch);
    let first = finished(&rt, &log, flight, 5, SHORT);
    let flight = switch_begun(&rt, &log, second, &switch);
    let _first = finds_all_held(&rt, &log, first, &short);
    let second = finished(&rt, &log, flight, 52, SWITCH);
    stays(&rt, &log, second, &switch);
    Ok(())
}
