//! Random lines of eight backends, and a log writer beside them, on disks that fail and crash.

use crate::faults::{DOWN, outlive_at};
use crate::listed::is_listed;
use crate::meeting::EIGHT;
use crate::played::{Run, disk_of, play};
use crate::told::{OWN_FAULT, count_for, count_told};
use rand_xoshiro::SplitMix64;
use rand_xoshiro::rand_core::{Rng, SeedableRng};
use segment_disk::Disk;
use std::alloc::Global;
use std::process::Abort;
use std::sync::Wait;
use std::test::Fail;
use std::thread::Threads;

const IMAGE: &[u8] = b"I 1 10 00 - 1663/5/16384:0:7:-:0+0+5a\n";

// Commits, some answered ahead, flushes, some behind, and inserts of several sizes.
static LINES: [&[u8]; 16] = [
    b"C 1 0\n",
    b"C 1 0\n",
    b"C 1 0\n",
    b"A 1 0\n",
    b"A 1 0\n",
    b"F\n",
    b"L\n",
    b"I 1 10 00 2000*5a\n",
    b"I 1 10 00 500*5a\n",
    b"I 1 10 00 500*5a\n",
    b"I 1 10 00 500*5a\n",
    b"I 1 10 00 500*5a\n",
    b"I 1 10 00 100*5a\n",
    b"I 1 10 00 100*5a\n",
    b"I 1 10 00 aa\n",
    b"I 1 10 00 aa\n",
];

// A line, of which so many of twenty insert a page's image.
fn line(random: &mut SplitMix64, images: u64) -> &'static [u8] {
    if random.next_u64() % 20 < images {
        IMAGE
    } else {
        LINES[(random.next_u64() % 16) as usize]
    }
}

// A script of eight backends, each of one to four lines.
fn random_script(alloc: Global, random: &mut SplitMix64, images: u64) -> Result<Vec<u8>, Fail> {
    let mut script = Vec::new(alloc);
    for _ in 0..8 {
        if !script.is_empty() {
            script.extend_from_slice(b"B\n")?;
        }
        let lines = 1 + random.next_u64() % 4;
        for _ in 0..lines {
            script.extend_from_slice(line(random, images))?;
        }
    }
    Ok(script)
}

// Of how many runs so many of twenty lines insert a page's image: where there are four, most runs
// go around the ring.
const RUNS: [(u32, u64); 2] = [(150, 0), (50, 4)];

// A call of one of these numbers fails, if the run makes so many, or none: it makes some eight.
const CALLS: u64 = 10;

#[test]
fn random_lines_end_and_outlive_crashes(rt: HostRuntime) -> Result<(), Fail> {
    let alloc = rt.alloc();
    let mut random = SplitMix64::seed_from_u64(0);
    let words = ["run", "--seg", "1048576", "--ring", "4", "--writer", "100"];
    for (count, images) in RUNS {
        for _ in 0..count {
            let script = random_script(alloc, &mut random, images)?;
            let disk = disk_of(alloc, 1, &[random.next_u64() % CALLS])?;
            let run = play(&rt, alloc, &words, script, disk, EIGHT)?;
            let moments = run.disk.moment().saturating_add(1);
            outlive_at(&rt, alloc, &run, random.next_u64() % moments)?;
            ends(&rt, alloc, run)?;
        }
    }
    Ok(())
}

// On a disk that did not fail the records are listed where they were told. Else one line at most is
// told the fault as its own, and each behind it that the disk is down.
fn ends<R: Abort + Threads + Wait + Sync>(rt: &R, alloc: Global, run: Run) -> Result<(), Fail> {
    if run.disk.faults() == 0 {
        assert!(rt; (run.status, run.told.len()) == (0, 9));
        assert!(rt; is_listed(rt, alloc, run)?);
    } else {
        assert!(rt; (run.status, run.told.len()) == (4, 9));
        assert!(rt; count_told(&run.told, Some(DOWN)).is_some());
        assert!(rt; count_for(&run.told, OWN_FAULT) <= 1);
    }
    Ok(())
}
