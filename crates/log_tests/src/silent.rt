//! A copy of no words tells nothing under its lock, and one of some words tells how far it came.

ghost use Rattle.wal_log.specs.Flights.{IsInFlightOf};
ghost use Rattle.wal_log.specs.Logs.{IsPassOfLog};

use crate::filled::{SETUP, open};
use log_workers::transaction;
use segment_disk::MemDisk;
use std::process::Abort;
use std::test::Fail;
use wal_log::{Copied, CopyStop, Inflight, LockNo, Pass, TryFlushErr, Wal};
use wal_types::Lsn;

// So many words are copied, words are left, and a flush finds the lock with this word.
fn told_by<'a, R: Abort>(
    rt: &R,
    log: &Wal<MemDisk>,
    flight: &mut Inflight<'a>,
    other: &mut Pass,
    words: u32,
    word: u64,
)
    requires flight { IsInFlightOf log.now flight.old }
    requires other { IsPassOfLog log.now other.old }
    ensures flight { IsInFlightOf log.now flight.new }
    ensures other { IsPassOfLog log.now other.new }
{
    let copied = Copied {
        k: words,
        stop: CopyStop::Asked,
    };
    assert_eq!(rt; flight.copy(log, words), copied);
    let behind = TryFlushErr::Behind {
        lock: LockNo(0),
        word,
    };
    assert_eq!(rt; log.try_flush(other, Lsn(0x10_0050)), Err(behind));
}

#[test]
fn a_copy_of_no_words_tells_nothing(rt: HostRuntime) -> Result<(), Fail> {
    let alloc = rt.alloc();
    let body = transaction(alloc, 1)?;
    let (log, mut first) = open(alloc, SETUP, Vec::new(alloc))?;
    if first.spare() == 0 {
        return Err(Fail::from("a spare pass"));
    }
    let mut second = log.split(&mut first);
    match log.try_begin(first, &body) {
        Err(_) => panic!(&rt; "a place and a free lock"),
        Ok(mut flight) => {
            told_by(&rt, &log, &mut flight, &mut second, 0, 1);
            told_by(&rt, &log, &mut flight, &mut second, 1, 0x10_0009);
            told_by(&rt, &log, &mut flight, &mut second, 0, 0x10_0009);
            flight.copy(&log, 9);
            match flight.finish(&log) {
                Ok(_) => Ok(()),
                Err(_back) => panic!(&rt; "no word is left"),
            }
        }
    }
}
