//! What single turns, and small schedules of them, tell and leave, as rows.

use crate::lines::{Ask, Found, Planned, records_left, scripts_of};
use crate::played::{Played, SETUP};
use machine_state::Setup;
use segment_disk::Pick;
use std::alloc::Global;
use std::process::Abort;
use std::test::Fail;
use wal_core::{Event, PlainPlace, Turn};

// A machine, the turns that its backends have, and what is left behind them.
struct Row {
    what: &'static str,
    cap_segments: u32,
    // The calls of the disk that fail, by their numbers from 1.
    fail: &'static [u64],
    scripts: &'static [&'static [Planned]],
    steps: &'static [Step],
    // How many calls the disk got, and the records that a crash leaves where it keeps durable words
    // alone.
    calls: u64,
    left: &'static [Found],
}

// So many turns of a backend, fewer where a line is answered or a call of the disk fails, and what
// is seen behind them.
struct Step {
    backend: u32,
    turns: u32,
    // What the last one told, where it is looked at.
    told: Option<Turn>,
    // How many lines of the backend are answered, and how far it is with a reservation.
    answered: u32,
    place: PlainPlace,
    is_full: bool,
    // What some of the shared words hold, by their numbers.
    words: &'static [(usize, u64)],
}

const STEP: Step = Step {
    backend: 0,
    turns: 1,
    told: None,
    answered: 0,
    place: PlainPlace::Free,
    is_full: false,
    words: &[],
};

const POSITION: usize = 0;

const LAST_START: usize = 1;

const LOCK_1: usize = 3;

const FLUSHED: usize = 14;

const FLUSH: Planned = Planned {
    ask: Ask::Flush,
    rmid: 0,
    xid: 0,
    len: 0,
};

// A record of 40 bytes.
const COMMIT_700: Planned = Planned {
    ask: Ask::Commit,
    rmid: 1,
    xid: 700,
    len: 8,
};

const COMMIT_701: Planned = Planned {
    xid: 701,
    ..COMMIT_700
};

// Backend 0 is told that its commit's call failed, and then, as all others are, that the disk had.
const FAILS: &[Step] = &[
    Step {
        turns: 1100,
        ..STEP
    },
    Step {
        turns: 3,
        answered: 1,
        ..STEP
    },
    Step {
        told: Some(Turn::Down { faults: 1 }),
        answered: 2,
        ..STEP
    },
    Step {
        turns: 2000,
        told: Some(Turn::Done),
        answered: 2,
        ..STEP
    },
    Step {
        backend: 1,
        told: Some(Turn::Down { faults: 1 }),
        answered: 1,
        ..STEP
    },
    Step {
        backend: 1,
        turns: 2000,
        told: Some(Turn::Done),
        answered: 1,
        ..STEP
    },
    Step {
        turns: 2000,
        told: Some(Turn::Done),
        answered: 2,
        ..STEP
    },
];

// Backend 1 has reserved and copied, and is about to flush, when a call of backend 0 fails.
const FAILS_UNDER_WAY: &[Step] = &[
    Step {
        backend: 1,
        turns: 18,
        ..STEP
    },
    Step {
        turns: 1100,
        ..STEP
    },
    Step {
        turns: 2000,
        answered: 1,
        ..STEP
    },
    Step {
        backend: 1,
        turns: 2000,
        told: Some(Turn::Down { faults: 1 }),
        answered: 1,
        ..STEP
    },
    Step {
        turns: 2000,
        told: Some(Turn::Done),
        answered: 1,
        ..STEP
    },
    Step {
        backend: 1,
        turns: 2000,
        told: Some(Turn::Done),
        answered: 1,
        ..STEP
    },
];

// Backend 0 waits for the position, which backend 1 has locked.
const WAITS: Step = Step {
    told: Some(Turn::Waits {
        on: 0,
        value: 1_045_489,
    }),
    words: &[(POSITION, 1_045_489), (LOCK_1, 1)],
    ..STEP
};

const FAILING: Row = Row {
    what: "the create of the first commit fails",
    cap_segments: 2,
    fail: &[1],
    scripts: &[&[COMMIT_700, FLUSH], &[COMMIT_700], &[COMMIT_701]],
    steps: FAILS,
    calls: 1,
    left: &[],
};

const FAILING_UNDER_WAY: Row = Row {
    what: "the create fails while another backend is under way",
    scripts: &[&[COMMIT_700], &[COMMIT_701]],
    steps: FAILS_UNDER_WAY,
    ..FAILING
};

static ROWS: &[Row] = &[
    Row {
        what: "one commit on an empty log takes 1,064 turns",
        cap_segments: 2,
        fail: &[],
        scripts: &[&[COMMIT_700]],
        steps: &[
            Step {
                turns: 0,
                words: &[(POSITION, 1_045_488)],
                ..STEP
            },
            // The insert, under the lock of the pass with the number 1.
            Step {
                turns: 18,
                told: Some(Turn::Moved {
                    event: Event::ReleaseLock { lock: 1 },
                }),
                words: &[(POSITION, 1_045_528), (LAST_START, 1_048_616)],
                ..STEP
            },
            // The flush.
            Step {
                told: Some(Turn::Moved {
                    event: Event::LoadDown,
                }),
                ..STEP
            },
            Step {
                told: Some(Turn::Moved {
                    event: Event::LoadPosition,
                }),
                ..STEP
            },
            Step {
                turns: 1043,
                ..STEP
            },
            Step {
                told: Some(Turn::Moved {
                    event: Event::ReleaseWriteTurn,
                }),
                answered: 1,
                ..STEP
            },
            Step {
                told: Some(Turn::Done),
                answered: 1,
                words: &[(FLUSHED, 1_048_656)],
                ..STEP
            },
        ],
        // The segment is made, its first page is written, and it is synced.
        calls: 3,
        left: &[(700, 1_048_616, 8)],
    },
    FAILING,
    Row {
        what: "the write of the first commit fails",
        fail: &[2],
        calls: 2,
        ..FAILING
    },
    Row {
        what: "the sync of the first commit fails",
        fail: &[3],
        calls: 3,
        ..FAILING
    },
    FAILING_UNDER_WAY,
    Row {
        what: "the write fails while another backend is under way",
        fail: &[2],
        calls: 2,
        ..FAILING_UNDER_WAY
    },
    Row {
        what: "the sync fails while another backend is under way",
        fail: &[3],
        calls: 3,
        ..FAILING_UNDER_WAY
    },
    Row {
        what: "records stand in the order of their turns",
        cap_segments: 2,
        fail: &[],
        scripts: &[&[COMMIT_700], &[COMMIT_701]],
        steps: &[
            Step {
                backend: 1,
                turns: 2000,
                answered: 1,
                ..STEP
            },
            Step {
                backend: 1,
                told: Some(Turn::Done),
                answered: 1,
                ..STEP
            },
            Step {
                turns: 2000,
                answered: 1,
                ..STEP
            },
        ],
        // The page is written and synced for each.
        calls: 5,
        left: &[(701, 1_048_616, 8), (700, 1_048_656, 8)],
    },
    Row {
        what: "a position that is locked is waited for",
        cap_segments: 2,
        fail: &[],
        scripts: &[&[COMMIT_700], &[COMMIT_701]],
        steps: &[
            Step {
                backend: 1,
                turns: 3,
                told: Some(Turn::Moved {
                    event: Event::LockPosition,
                }),
                place: PlainPlace::Locked { at: 1_045_488 },
                ..STEP
            },
            Step {
                turns: 2,
                told: Some(Turn::Moved {
                    event: Event::TakeLock { lock: 1 },
                }),
                ..STEP
            },
            WAITS,
            WAITS,
            WAITS,
            Step {
                backend: 1,
                turns: 3,
                told: Some(Turn::Moved {
                    event: Event::StorePosition,
                }),
                ..STEP
            },
            Step {
                told: Some(Turn::Moved {
                    event: Event::LockPosition,
                }),
                place: PlainPlace::Locked { at: 1_045_528 },
                ..STEP
            },
        ],
        calls: 0,
        left: &[],
    },
    Row {
        what: "a full log keeps what went before",
        cap_segments: 1,
        fail: &[],
        scripts: &[&[
            // With a header of 24 bytes and one of 5, all of the segment but 40 bytes.
            Planned {
                ask: Ask::Insert,
                rmid: 10,
                xid: 1,
                len: 1_045_419,
            },
            Planned {
                xid: 2,
                ..COMMIT_700
            },
            Planned {
                ask: Ask::Commit,
                rmid: 10,
                xid: 3,
                len: 0,
            },
        ]],
        steps: &[
            Step {
                turns: 2_000_000,
                answered: 1,
                ..STEP
            },
            Step {
                turns: 2_000_000,
                answered: 2,
                ..STEP
            },
            Step {
                turns: 100,
                answered: 3,
                is_full: true,
                ..STEP
            },
            Step {
                told: Some(Turn::Done),
                answered: 3,
                is_full: true,
                ..STEP
            },
        ],
        // The segment is made, its 128 pages are written, and it is synced.
        calls: 130,
        left: &[(1, 1_048_616, 1_045_419), (2, 2_097_112, 8)],
    },
];

impl Row {
    fn machine(&self, alloc: Global) -> Result<Played, Fail> {
        let setup = Setup {
            cap_segments: self.cap_segments,
            ..SETUP
        };
        let scripts = scripts_of(alloc, self.scripts)?;
        Played::new(alloc, setup, scripts, Vec::from_slice(alloc, self.fail)?)
    }

    // The number of the first step behind which something else is seen; that behind the last where
    // it is at the end.
    fn wrong_step(&self, alloc: Global) -> Result<Option<usize>, Fail> {
        let mut core = self.machine(alloc)?;
        let mut calls = 0;
        for (number, step) in self.steps.iter().enumerate() {
            let told = step.play(&mut core, &mut calls);
            if !step.is_seen(&core, told) {
                return Ok(Some(number));
            }
        }
        let left = records_left(alloc, &core, Pick::Old)?;
        if calls != self.calls || left.as_slice() != self.left {
            return Ok(Some(self.steps.len()));
        }
        Ok(None)
    }
}

impl Step {
    // What the last turn tells. The calls of the disk are counted.
    fn play(&self, core: &mut Played, calls: &mut u64) -> Turn {
        let answered = core.answered(self.backend);
        let mut told = Turn::Done;
        for _ in 0..self.turns {
            told = core.turn(self.backend);
            let called = called(told);
            *calls = calls.wrapping_add(u64::from(called.is_some()));
            if called == Some(false) || core.answered(self.backend) != answered {
                return told;
            }
        }
        told
    }

    fn is_seen(&self, core: &Played, told: Turn) -> bool {
        (self.told.is_none() || self.told == Some(told))
            && core.answered(self.backend) == self.answered
            && core.place(self.backend) == Some(self.place)
            && core.full() == self.is_full
            && have(&core.words_outside_the_ring(), self.words)
    }
}

// Whether a turn was a call of the disk; None where it was none, else whether it succeeded.
fn called(turn: Turn) -> Option<bool> {
    let Turn::Moved { event } = turn else {
        return None;
    };
    match event {
        Event::Create { done, .. } => Some(done),
        Event::Write { done, .. } => Some(done),
        Event::Sync { done, .. } => Some(done),
        _ => None,
    }
}

// Whether words hold what is wanted.
fn have(words: &[u64], wanted: &[(usize, u64)]) -> bool {
    for (number, word) in wanted {
        if words.get(*number) != Some(word) {
            return false;
        }
    }
    true
}

// The first row that goes otherwise, and the number of its step.
fn first_wrong(alloc: Global) -> Result<Option<(&'static str, usize)>, Fail> {
    for row in ROWS {
        if let Some(step) = row.wrong_step(alloc)? {
            return Ok(Some((row.what, step)));
        }
    }
    Ok(None)
}

#[test]
fn turns_tell_and_leave_what_is_listed(rt: HostRuntime) -> Result<(), Fail> {
    assert_eq!(rt; first_wrong(rt.alloc())?, None);
    Ok(())
}
