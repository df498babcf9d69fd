//! Links that lose, repeat, reorder, cut and garble the frames of a long log, and standbys that
//! crash between them.

use crate::frames::{Link, sent_over};
use crate::listed::Listed;
use crate::log::{Log, START};
use crate::primary::with_commits;
use crate::standbys::open_three;
use rand_xoshiro::SplitMix64;
use rand_xoshiro::rand_core::{Rng, SeedableRng};
use segment_disk::{Disk, MemDisk, Pick};
use std::alloc::Global;
use std::process::Abort;
use std::test::Fail;
use wal_stream::{Accepted, Standby, StandbyErr};
use wal_types::Lsn;

// Lines of each of the generator's four backends: 4,000 records, over 364 pages of three segments.
const LINES: u32 = 1000;

const STANDBYS: u64 = 8;

// Links that each standby has.
const LINKS: u64 = 50;

// Pages whose frames are sent over a link.
const SENT: u16 = 40;

// An opening makes durable what it found with its first calls, one for each segment that is there.
const SEGMENTS: u64 = 3;

// A crash decides so many words at random, those of the first 40 pages that wait for a sync, and
// loses what is behind them.
const WORDS: usize = 40_960;

// Commits of a standby that has gone on as a primary.
const COMMITS: u32 = 3;

// What a link makes of the next frame.
fn random_link(random: &mut SplitMix64) -> Link {
    let place = (random.next_u64() % 8224) as usize;
    match random.next_u64() % 64 {
        0 => Link::Cut(place),
        1 => Link::Byte(place, 0x5a),
        _ => Link::Whole,
    }
}

// Up to where a page is sent: as far as it or the log goes, or up to any of its words.
fn random_upto(random: &mut SplitMix64, log: &Log, page: u16) -> u64 {
    let word = random.next_u64() % 1024;
    match random.next_u64() % 16 {
        0 => log
            .end_in(page)
            .min(START + 8192 * u64::from(page) + 8 * word + 8),
        _ => log.end_in(page),
    }
}

// The pages that come over a link, of those from one on: some are lost, some come twice, or late,
// or behind any other page of the log.
fn random_pages(
    alloc: Global,
    random: &mut SplitMix64,
    first: u16,
    pages: u16,
) -> Result<Vec<u16>, Fail> {
    let mut order = Vec::new(alloc);
    let mut late = first;
    for page in first..first.saturating_add(SENT).min(pages) {
        match random.next_u64() % 64 {
            0 => {}
            1..5 => {
                order.push(page)?;
                order.push(page)?;
            }
            5..7 => {
                order.push(late)?;
                late = page;
            }
            7..9 => {
                order.push((random.next_u64() % u64::from(pages.max(1))) as u16)?;
                order.push(page)?;
            }
            _ => order.push(page)?,
        }
    }
    order.push(late)?;
    Ok(order)
}

// The page that holds a place of the log.
fn page_of(place: u64) -> u16 {
    (place.saturating_sub(START) / 8192).min(1000) as u16
}

// What a standby that has the log up to an end answers to a whole frame of it.
fn answer_to(end: u64, page: u16, upto: u64) -> Result<Accepted, StandbyErr> {
    if upto <= end {
        Ok(Accepted::Old { upto: Lsn(upto) })
    } else if START / 8192 + u64::from(page) == end / 8192 {
        Ok(Accepted::Taken { upto: Lsn(upto) })
    } else {
        Err(StandbyErr::Gap { at: Lsn(end) })
    }
}

// Offers the frame of a page up to a place, as a link makes it: the standby answers by where it
// stands, and is then where it was, or behind what it took.
fn offer(
    rt: &impl Abort,
    alloc: Global,
    standby: &mut Standby<MemDisk>,
    log: &Log,
    page: u16,
    upto: u64,
    link: Link,
) -> Result<(), Fail> {
    let end = standby.upto();
    let bytes = log.frame(page, Some(upto))?;
    let sent = sent_over(alloc, link, &bytes)?;
    let is_whole = sent.as_slice() == bytes.as_slice();
    let told = if is_whole {
        answer_to(end.0, page, upto)
    } else {
        Err(StandbyErr::Bad)
    };
    assert_eq!(rt; standby.accept(&sent), told);
    let behind = match told {
        Ok(Accepted::Taken { upto }) => upto,
        _ => end,
    };
    assert_eq!(rt; standby.upto(), behind);
    Ok(())
}

// Frames come over a link, from the page on in which the standby's log ends.
fn feed(
    rt: &impl Abort,
    alloc: Global,
    random: &mut SplitMix64,
    log: &Log,
    standby: &mut Standby<MemDisk>,
) -> Result<(), Fail> {
    let first = page_of(standby.upto().0);
    for page in &random_pages(alloc, random, first, log.pages())? {
        let upto = random_upto(random, log, *page);
        let link = random_link(random);
        offer(rt, alloc, standby, log, *page, upto, link)?;
    }
    Ok(())
}

// What is done with a standby over a link: from which moment on what it found is durable, and
// whether it hardens at the end.
#[derive(Clone, Copy)]
struct Turn {
    durable: u64,
    hardens: bool,
}

// A standby that is opened on a disk is fed over a link, and hardens or is just closed; the disk
// holds a front of the log then, with all that was promised. Noted is from which moments on how
// much is.
fn over_link(
    rt: &impl Abort,
    alloc: Global,
    random: &mut SplitMix64,
    log: &Log,
    disk: MemDisk,
    turn: Turn,
    promises: &mut Vec<(u64, u64)>,
) -> Result<MemDisk, Fail> {
    let mut standby = open_three(alloc, disk)?;
    promises.push((turn.durable, standby.upto().0))?;
    feed(rt, alloc, random, log, &mut standby)?;
    let hardened = if turn.hardens { standby.harden()?.0 } else { 0 };
    let mut disk = standby.close();
    let last = disk.moment();
    promises.push((last, hardened))?;
    let listed = Listed::of(alloc, &mut disk)?;
    assert!(rt; listed.is_front(&log.ends, promised_by(promises, last)));
    Ok(disk)
}

// Up to where the log was promised by a moment.
fn promised_by(promises: &[(u64, u64)], moment: u64) -> u64 {
    let mut upto = 0;
    for (since, promised) in promises {
        if *since <= moment {
            upto = upto.max(*promised);
        }
    }
    upto
}

// Of each word the write that is kept: none, or one of the first two since its segment's sync.
fn random_writes(alloc: Global, random: &mut SplitMix64) -> Result<Vec<u32>, Fail> {
    let mut numbers = Vec::with_capacity(alloc, WORDS)?;
    for _word in 0..WORDS {
        numbers.push((random.next_u64() % 3) as u32)?;
    }
    Ok(numbers)
}

fn random_pick(alloc: Global, random: &mut SplitMix64) -> Result<Pick, Fail> {
    match random.next_u64() % 4 {
        0 => Ok(Pick::Old),
        1 => Ok(Pick::New),
        _ => Ok(Pick::List(random_writes(alloc, random)?)),
    }
}

// A crash comes at some moment: what is left is a front of the log, with all that was promised by
// then.
fn crashed(
    rt: &impl Abort,
    alloc: Global,
    random: &mut SplitMix64,
    log: &Log,
    disk: &MemDisk,
    promises: &[(u64, u64)],
) -> Result<MemDisk, Fail> {
    let last = disk.moment();
    let moment = match random.next_u64() % 4 {
        0 => last,
        _ => random.next_u64() % last.saturating_add(1),
    };
    let mut left = disk.crash(alloc, moment, random_pick(alloc, random)?)?;
    let listed = Listed::of(alloc, &mut left)?;
    assert!(rt; listed.is_front(&log.ends, promised_by(promises, moment)));
    Ok(left)
}

// Behind a link that loses nothing the standby has the whole log.
fn catch_up(rt: &impl Abort, alloc: Global, log: &Log, disk: MemDisk) -> Result<MemDisk, Fail> {
    let mut standby = open_three(alloc, disk)?;
    for page in 0..log.pages() {
        offer(
            rt,
            alloc,
            &mut standby,
            log,
            page,
            log.end_in(page),
            Link::Whole,
        )?;
    }
    assert_eq!(rt; standby.harden(), Ok(Lsn(log.end())));
    let mut disk = standby.close();
    let listed = Listed::of(alloc, &mut disk)?;
    assert!(rt; listed.ends == log.ends && listed.end == Ok(log.end()));
    Ok(disk)
}

// Each second standby is closed with pages that wait for a sync, and the next one is opened on
// these or on what a crash left.
fn follow(
    rt: &impl Abort,
    alloc: Global,
    random: &mut SplitMix64,
    log: &Log,
) -> Result<MemDisk, Fail> {
    let mut disk = MemDisk::new(alloc, 3, 1000, Vec::new(alloc), Vec::new(alloc))?;
    let mut promises = Vec::new(alloc);
    let mut waits = false;
    for link in 0..LINKS {
        let syncs = if waits { SEGMENTS } else { 0 };
        let turn = Turn {
            durable: disk.moment().saturating_add(syncs),
            hardens: link % 2 == 0,
        };
        waits = link % 2 == 1;
        disk = over_link(rt, alloc, random, log, disk, turn, &mut promises)?;
        if random.next_u64() % 2 == 0 {
            disk = crashed(rt, alloc, random, log, &disk, &promises)?;
            promises.clear();
            waits = false;
        }
    }
    catch_up(rt, alloc, log, disk)
}

// The last one goes on as a primary then.
#[test]
fn standbys_follow_their_log_over_links(rt: HostRuntime) -> Result<(), Fail> {
    let alloc = rt.alloc();
    let log = Log::generated(alloc, LINES)?;
    let mut random = SplitMix64::seed_from_u64(0);
    let mut disk = follow(&rt, alloc, &mut random, &log)?;
    for _standby in 1..STANDBYS {
        disk = follow(&rt, alloc, &mut random, &log)?;
    }
    let mut disk = with_commits(&rt, alloc, disk, COMMITS)?;
    let listed = Listed::of(alloc, &mut disk)?;
    assert!(rt; listed.ends.starts_with(&log.ends));
    assert_eq!(rt; listed.ends.len(), log.ends.len() + COMMITS as usize);
    assert!(rt; listed.end.is_ok());
    Ok(())
}
