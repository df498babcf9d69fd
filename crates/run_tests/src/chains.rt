//! Runs that go on, each with the log that a crash of the run before it left.

use crate::listed::{DUMP, front_listed, has_all};
use crate::meeting::{NOBODY, THREE};
use crate::picks::{Words, pick};
use crate::played::{Run, play};
use crate::told::{Which, durable, starts_told};
use backend_cli::ToldLists;
use rand_xoshiro::SplitMix64;
use rand_xoshiro::rand_core::{Rng, SeedableRng};
use segment_disk::{Disk, MemDisk};
use std::alloc::Global;
use std::process::Abort;
use std::sync::Wait;
use std::test::Fail;
use std::thread::Threads;
use wal_types::Lsn;

const RUNS: u32 = 200;

// For how many counted calls a disk has room: a run writes each page of three segments, and some of
// them again.
const CALLS: u32 = 1000;

// A log of at most three segments is soon full.
const APPEND: [&str; 8] = [
    "run", "--append", "--seg", "1048576", "--cap", "3", "--ring", "4",
];

const COMMIT: (&str, &str) = ("C ", " 0\n");

const AHEAD: (&str, &str) = ("A ", " 0\n");

const SHORT: (&str, &str) = ("I ", " 10 00 aa\n");

const MIDDLE: (&str, &str) = ("I ", " 10 00 500*5a\n");

// A page's image takes up more than a page, six of them more than the ring.
const IMAGE: (&str, &str) = ("I ", " 10 00 - 1663/5/16384:0:7:-:0+0+5a\n");

const IMAGES: (&str, &str) = (
    "I ",
    " 10 00 - 1663/5/16384:0:1:-:0+0+5a 1663/5/16384:0:2:-:0+0+5a 1663/5/16384:0:3:-:0+0+5a \
     1663/5/16384:0:4:-:0+0+5a 1663/5/16384:0:5:-:0+0+5a 1663/5/16384:0:6:-:0+0+5a\n",
);

// What stands before and behind the transaction in a line. In those that have none it is a comment.
static LINES: [(&str, &str); 16] = [
    COMMIT,
    COMMIT,
    COMMIT,
    COMMIT,
    AHEAD,
    AHEAD,
    ("F\n# ", "\n"),
    ("L\n# ", "\n"),
    SHORT,
    SHORT,
    MIDDLE,
    MIDDLE,
    IMAGE,
    IMAGE,
    IMAGE,
    IMAGES,
];

const SWITCH: (&str, &str) = ("W\n# ", "\n");

// One line of so many closes its segment.
const LINES_PER_SWITCH: u64 = 60;

fn line(random: &mut SplitMix64) -> (&'static str, &'static str) {
    if random.next_u64() % LINES_PER_SWITCH == 0 {
        SWITCH
    } else {
        LINES[(random.next_u64() % 16) as usize]
    }
}

// A script of three backends, each of one to four lines of one transaction.
fn random_script(alloc: Global, random: &mut SplitMix64, xid: u32) -> Result<Vec<u8>, Fail> {
    let xid = format!(in alloc; "{xid}")?;
    let mut script = Vec::new(alloc);
    for _ in 0..3 {
        if !script.is_empty() {
            script.extend_from_slice(b"B\n")?;
        }
        let lines = 1 + random.next_u64() % 4;
        for _ in 0..lines {
            let (before, behind) = line(random);
            script.extend_from_slice(before.as_bytes())?;
            script.extend_from_slice(xid.as_bytes())?;
            script.extend_from_slice(behind.as_bytes())?;
        }
    }
    Ok(script)
}

// A log that a crash left: where its records start, and their listing.
#[derive(Drop)]
struct LeftLog {
    disk: MemDisk,
    starts: Vec<Lsn>,
    listing: Vec<u8>,
}

fn no_log(alloc: Global) -> Result<LeftLog, Fail> {
    Ok(LeftLog {
        disk: MemDisk::new(alloc, 3, CALLS, Vec::new(alloc), Vec::new(alloc))?,
        starts: Vec::new(alloc),
        listing: Vec::new(alloc),
    })
}

#[test]
fn no_crash_of_a_chain_loses_what_was_durable(rt: HostRuntime) -> Result<(), Fail> {
    let alloc = rt.alloc();
    let mut random = SplitMix64::seed_from_u64(0);
    let mut log = no_log(alloc)?;
    for run in 0..RUNS {
        let script = random_script(alloc, &mut random, run + 1)?;
        let words = match random.next_u64() % 4 {
            0 => Words::New,
            1 => Words::Odd,
            _ => Words::Random,
        };
        log = go_on(&rt, alloc, log, script, words, &mut random)?;
    }
    Ok(())
}

// Goes on with a log, and crashes at a random moment. Behind a run that found the log full a new
// one is begun.
fn go_on<R: Abort + Threads + Wait + Sync>(
    rt: &R,
    alloc: Global,
    log: LeftLog,
    script: Vec<u8>,
    words: Words,
    random: &mut SplitMix64,
) -> Result<LeftLog, Fail> {
    let LeftLog {
        disk,
        starts,
        listing,
    } = log;
    let run = play(rt, alloc, &APPEND, script, disk, THREE)?;
    let count = starts.len();
    let found = format!(in alloc; "found {count} end ")?;
    assert!(rt; run.out.taken().starts_with(found.as_bytes()));
    let moments = run.disk.moment().saturating_add(1);
    let moment = random.next_u64() % moments;
    let left = run.disk.crash(alloc, moment, pick(alloc, words, random)?)?;
    let left = play(rt, alloc, &DUMP, Vec::new(alloc), left, NOBODY)?;
    let order = order_behind(alloc, starts, &run.told)?;
    let durable = starts_told(alloc, &run.told, durable(&run.told, moment))?;
    let status = run.status;
    is_front(rt, &left, &order, &durable, &listing);
    is_whole(rt, alloc, run, &order, &left)?;
    if status == 5 {
        return no_log(alloc);
    }
    left_log(alloc, left, &order)
}

// The records that were found, and behind them those that lines were told.
fn order_behind(alloc: Global, starts: Vec<Lsn>, told: &ToldLists) -> Result<Vec<Lsn>, Fail> {
    let mut order = starts;
    order.extend_from_slice(&starts_told(alloc, told, Which::All)?)?;
    Ok(order)
}

// What a crash left is a front of the order, with all that was found and all that was durable.
fn is_front<R: Abort>(rt: &R, left: &Run, order: &[Lsn], durable: &[Lsn], listing: &[u8]) {
    let text = left.out.taken();
    assert!(rt; text.starts_with(listing));
    let front = front_listed(text, order).expect(rt, "a front of the order");
    assert!(rt; has_all(front, durable));
}

// The run's log is the whole order, of which what a crash left is a front.
fn is_whole<R: Abort + Threads + Wait + Sync>(
    rt: &R,
    alloc: Global,
    run: Run,
    order: &[Lsn],
    left: &Run,
) -> Result<(), Fail> {
    assert!(rt; run.status == 0 || run.status == 5);
    let whole = play(rt, alloc, &DUMP, Vec::new(alloc), run.disk, NOBODY)?;
    let text = whole.out.taken();
    assert!(rt; whole.status == 0 && front_listed(text, order) == Some(order));
    assert!(rt; text.starts_with(left.out.taken()));
    Ok(())
}

fn left_log(alloc: Global, left: Run, order: &[Lsn]) -> Result<LeftLog, Fail> {
    let listing = Vec::from_slice(alloc, left.out.taken())?;
    let front = front_listed(&listing, order).ok_or("a front of the order")?;
    Ok(LeftLog {
        disk: left.disk,
        starts: Vec::from_slice(alloc, front)?,
        listing,
    })
}
