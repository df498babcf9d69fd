//! Random schedules of eight backends: what crashes leave of them, and what holds on the way.

use crate::schedule::Schedule;
use std::alloc::Global;
use std::process::Abort;
use std::test::Fail;

// How many pages the ring has, and the seeds.
static SCHEDULES: [(u32, u64, u64); 5] = [
    (4, 0, 60),
    (5, 60, 120),
    (6, 120, 180),
    (7, 180, 240),
    (8, 240, 300),
];

// Up to how many turns a backend is given, one of the eight, and how often at most one goes on in a
// schedule that is cut off.
static GRAINS: [([u64; 8], u64); 3] = [
    ([1; 8], 400_000),
    ([64; 8], 12_000),
    ([1500, 64, 64, 4, 4, 4, 4, 4], 8000),
];

// What is wrong with a schedule, if anything: every other one goes on to its end, the others are
// cut off somewhere.
fn fault(alloc: Global, ring_pages: u32, seed: u64) -> Result<Option<&'static str>, Fail> {
    let (grain, most) = &GRAINS[(seed % 6 / 2) as usize];
    let mut schedule = Schedule::new(alloc, ring_pages, seed, grain)?;
    if seed % 2 == 0 {
        schedule.cut_off(alloc, *most)?;
    } else {
        schedule.finish(alloc)?;
    }
    schedule.wrong(alloc)
}

// The first schedule that is wrong, by its ring and its seed, with what is.
fn first_fault(alloc: Global) -> Result<Option<(u32, u64, &'static str)>, Fail> {
    for (ring_pages, first, end) in &SCHEDULES {
        for seed in *first..*end {
            if let Some(fault) = fault(alloc, *ring_pages, seed)? {
                return Ok(Some((*ring_pages, seed, fault)));
            }
        }
    }
    Ok(None)
}

#[test]
fn schedules_keep_what_they_promise(rt: HostRuntime) -> Result<(), Fail> {
    assert_eq!(rt; first_fault(rt.alloc())?, None);
    Ok(())
}
