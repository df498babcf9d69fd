//! A schedule under way, with what it reserved.

use crate::lines::{Ask, Planned, records_left, scripts_of};
use crate::played::{Played, SETUP};
use crate::reserved::Log;
use crate::{BackendNow, MachineNow, Part, fault_of};
use machine_state::Setup;
use rand_xoshiro::SplitMix64;
use rand_xoshiro::rand_core::{Rng, SeedableRng};
use segment_disk::Pick;
use std::alloc::Global;
use std::test::Fail;
use wal_core::{Event, PlainFlight, Turn};

const BACKENDS: u32 = 8;

// How many lines each backend has.
const LINES: u32 = 20;

// Of twenty lines an insert of up to three pages, five commits, two flushes, small inserts.
fn planned(random: &mut SplitMix64, xid: u32) -> Planned {
    let (ask, rmid, len) = match random.next_u64() % 20 {
        0 => (Ask::Insert, 10, 1 + random.next_u64() % (3 * 8168)),
        1..=5 => (Ask::Commit, 1, 8),
        6..=7 => (Ask::Flush, 0, 0),
        _ => (Ask::Insert, 10, 1 + random.next_u64() % 200),
    };
    Planned {
        ask,
        rmid,
        xid,
        len: len as usize,
    }
}

fn named(part: Part) -> &'static str {
    match part {
        Part::Order => "the position and the last start",
        Part::Locks => "who holds the locks",
        Part::Turns => "who has the turns",
        Part::Progress => "what the locks tell",
        Part::Ring => "the words of the ring",
        Part::Pages => "the pages of the ring",
        Part::Positions => "the written and flushed ends",
    }
}

/// Eight backends, what they are to do, and what is known of what they did.
#[derive(Drop)]
pub struct Schedule {
    core: Played,
    random: SplitMix64,
    // One of these numbers is picked, up to which a backend is given turns.
    grain: &'static [u64; 8],
    // What all lines are to do, one backend's behind another's. A record's transaction is one more
    // than its line's number.
    plan: Vec<Planned>,
    // What each backend knows, and which lock it has.
    backends: Vec<BackendNow>,
    log: Log,
    // How many records were reserved when a backend had reserved its last one.
    reserved: [usize; 8],
    // So many of the first records are promised: a commit or a flush was answered behind them.
    promised: usize,
    // The first thing that was found wrong.
    wrong: Option<&'static str>,
    turns: u64,
    answered: u64,
}

impl Schedule {
    /// Random lines on a ring of so many pages.
    pub fn new(
        alloc: Global,
        ring_pages: u32,
        seed: u64,
        grain: &'static [u64; 8],
    ) -> Result<Schedule, Fail> {
        let mut random = SplitMix64::seed_from_u64(seed);
        let plan = plan(alloc, &mut random)?;
        let core = machine(alloc, ring_pages, &plan)?;
        Ok(Schedule {
            backends: backends(alloc, &core)?,
            core,
            random,
            grain,
            plan,
            log: Log::new(alloc),
            reserved: [0; 8],
            promised: 0,
            wrong: None,
            turns: 0,
            answered: 0,
        })
    }

    // A turn, and what is known behind it. Whether the backend moved.
    fn turn(&mut self, alloc: Global, backend: u32) -> Result<bool, Fail> {
        let line = self.core.answered(backend);
        let turn = self.core.turn(backend);
        if let Turn::Moved { event } = turn {
            self.note(alloc, backend, line, event)?;
        }
        if self.core.answered(backend) != line {
            self.note_answer(backend, line);
        }
        self.turns = self.turns.wrapping_add(1);
        if self.turns % 100 == 0 && self.wrong.is_none() {
            self.wrong = self.fault(alloc)?;
        }
        Ok(matches!(turn, Turn::Moved { .. }))
    }

    fn note(&mut self, alloc: Global, backend: u32, line: u32, event: Event) -> Result<(), Fail> {
        let view = self.core.view(backend).ok_or("a backend")?;
        if let Some(now) = self.backends.get_mut(backend as usize) {
            now.view = view;
        }
        match event {
            Event::TakeLock { lock } => self.hold(backend, None, Some(lock)),
            Event::ReleaseLock { lock } => self.hold(backend, Some(lock), None),
            Event::StorePosition => self.reserve(alloc, backend, line, view.flight)?,
            _ => {}
        }
        Ok(())
    }

    // A backend that has this lock, or none, has that one from now on.
    fn hold(&mut self, backend: u32, old: Option<u32>, new: Option<u32>) {
        match self.backends.get_mut(backend as usize) {
            Some(now) if now.lock == old => now.lock = new,
            _ => self.wrong = Some("a lock is taken or released out of turn"),
        }
    }

    // The record of a line is reserved.
    fn reserve(
        &mut self,
        alloc: Global,
        backend: u32,
        line: u32,
        flight: PlainFlight,
    ) -> Result<(), Fail> {
        let planned = self.planned(backend, line).ok_or("a line")?;
        let PlainFlight::Copying { start, prev, .. } = flight else {
            return Err(Fail::from("a record that is to be copied"));
        };
        self.log.add(alloc, planned, start, prev)?;
        if let Some(reserved) = self.reserved.get_mut(backend as usize) {
            *reserved = self.log.order.len();
        }
        Ok(())
    }

    fn planned(&self, backend: u32, line: u32) -> Option<Planned> {
        let number = (u64::from(backend) * u64::from(LINES)).wrapping_add(u64::from(line));
        self.plan.get(number as usize).copied()
    }

    // A line is answered. All records of its backend are promised where it flushes.
    fn note_answer(&mut self, backend: u32, line: u32) {
        self.answered = self.answered.wrapping_add(1);
        let reserved = self.reserved.get(backend as usize).copied();
        let planned = self.planned(backend, line);
        if planned.is_some_and(|planned| planned.flushes()) {
            self.promised = self.promised.max(reserved.unwrap_or(0));
        }
    }

    // The part of the words that is not what it has to be, if any.
    fn fault(&self, alloc: Global) -> Result<Option<&'static str>, Fail> {
        let words = self.core.words(alloc)?;
        let moment = MachineNow {
            setup: self.core.setup(),
            words: &words,
            order: &self.log.order,
            log: &self.log.words,
            backends: &self.backends,
        };
        Ok(fault_of(&moment).map(named))
    }

    // Lets some backend go on.
    fn go_on(&mut self, alloc: Global) -> Result<(), Fail> {
        let backend = (self.random.next_u64() % 8) as u32;
        let most = self.grain[(self.random.next_u64() % 8) as usize].max(1);
        for _ in 0..self.random.next_u64() % most + 1 {
            if !self.turn(alloc, backend)? {
                return Ok(());
            }
        }
        Ok(())
    }

    /// Up to so many times some backend goes on.
    pub fn cut_off(&mut self, alloc: Global, most: u64) -> Result<(), Fail> {
        for _ in 0..self.random.next_u64() % most.max(1) {
            self.go_on(alloc)?;
        }
        Ok(())
    }

    /// Goes on until all lines are answered, or behind a great many turns.
    pub fn finish(&mut self, alloc: Global) -> Result<(), Fail> {
        for _ in 0..10_000_000 {
            if self.answered == u64::from(BACKENDS * LINES) {
                return Ok(());
            }
            self.go_on(alloc)?;
        }
        self.wrong = Some("not all lines are answered");
        Ok(())
    }

    /// What was found wrong, or is with what a crash leaves now, if anything.
    pub fn wrong(&self, alloc: Global) -> Result<Option<&'static str>, Fail> {
        if self.wrong.is_some() {
            return Ok(self.wrong);
        }
        for pick in [Pick::Old, Pick::New, Pick::Odd] {
            let found = records_left(alloc, &self.core, pick)?;
            if !self.log.records.starts_with(&found) {
                return Ok(Some("records are read that are no front of the order"));
            }
            if found.len() < self.promised {
                return Ok(Some("a record is lost of which a commit or a flush was answered"));
            }
        }
        Ok(None)
    }
}

fn plan(alloc: Global, random: &mut SplitMix64) -> Result<Vec<Planned>, Fail> {
    let mut plan = Vec::new(alloc);
    for number in 0..BACKENDS * LINES {
        plan.push(planned(random, number + 1))?;
    }
    Ok(plan)
}

fn machine(alloc: Global, ring_pages: u32, plan: &[Planned]) -> Result<Played, Fail> {
    let setup = Setup {
        ring_pages,
        ..SETUP
    };
    let plans: Vec<&[Planned]> = plan.chunks(LINES as usize).collect(alloc)?;
    Played::new(alloc, setup, scripts_of(alloc, &plans)?, Vec::new(alloc))
}

fn backends(alloc: Global, core: &Played) -> Result<Vec<BackendNow>, Fail> {
    let mut backends = Vec::new(alloc);
    for backend in 0..BACKENDS {
        let view = core.view(backend).ok_or("a backend")?;
        backends.push(BackendNow { view, lock: None })?;
    }
    Ok(backends)
}
