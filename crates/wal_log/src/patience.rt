// How a call waits where another backend may be within a device call: nobody wakes it (PostgreSQL's
// lwlock.c has a semaphore for each backend that waits). It spins, then yields, since a sync may
// take no longer than a sleep; and behind so many pauses it sleeps, so that many backends that wait
// for one slow sync leave their processors to others.
use crossbeam_utils::Backoff;
use std::sync::Wait;
use std::thread::Parker;
use std::time::Duration;

// The pauses before the first sleep: a millisecond or more of yields, as was measured. A sleep
// takes some 0.11 to 0.16 (docs/PERFORMANCE.md), so it adds little to what is waited for.
const PAUSES: u32 = 4000;

// In microseconds.
const SLEEP: u64 = 50;

#[derive(Drop)]
pub(crate) struct Patience {
    backoff: Backoff,
    pauses: u32,
    parker: Parker,
}

impl Patience {
    pub(crate) fn new() -> Patience {
        Patience {
            backoff: Backoff::new(),
            pauses: 0,
            parker: Parker::new(),
        }
    }

    // A pause, longer than the ones before.
    pub(crate) fn pause<R: Wait>(&mut self, rt: &R) {
        if self.pauses < PAUSES {
            self.pauses += 1;
            self.backoff.snooze();
        } else {
            self.parker.park_timeout(rt, Duration::from_micros(SLEEP));
        }
    }
}
