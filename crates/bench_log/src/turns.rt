//! Plays ten million turns of eight backends of the machine, for their instructions to be counted
//! (bench/turns.py).

mod lines;
mod played;

use lines::{BACKENDS, scripts};
use machine_state::Setup;
use played::PlayedCore;
use std::alloc::Global;
use std::io;
use wal_core::{Event, Turn};

const SETUP: Setup = Setup {
    seg_size: 1 << 20,
    ring_pages: 8,
    cap_segments: 1,
    sysid: 1,
    passes: 9,
};

const TURNS: u64 = 10_000_000;

// How the turns ended.
#[derive(Clone, Copy)]
struct Counts {
    copied: u64,
    loaded: u64,
    zeroed: u64,
    other: u64,
    waited: u64,
    done: u64,
    last: Turn,
}

/// Plays them, and prints how many were had; with `kinds` also how many of each kind.
pub fn print_turns(rt: HostRuntime, kinds: bool) -> io::Result<()> {
    let Some(counts) = count_turns(rt.alloc(), TURNS) else {
        println!(rt; "no memory")?;
        return Ok(());
    };
    if kinds {
        counts.print_kinds(rt)?;
    }
    println!(rt; "turns {}", counts.sum())
}

// So many turns, on as many machines one behind another as it takes; none where memory runs out.
fn count_turns(alloc: Global, turns: u64) -> Option<Counts> {
    let mut counts = Counts {
        copied: 0,
        loaded: 0,
        zeroed: 0,
        other: 0,
        waited: 0,
        done: 0,
        last: Turn::Done,
    };
    let mut left = turns;
    for _ in 0..turns {
        if left == 0 {
            break;
        }
        let mut core = machine(alloc)?;
        left = play(&mut core, left, &mut counts);
    }
    Some(counts)
}

fn machine(alloc: Global) -> Option<PlayedCore> {
    PlayedCore::new(alloc, SETUP, scripts(alloc).ok()?, Vec::new(alloc)).ok()
}

// Turns of backends, chosen at random, until all lines are answered or no turn is left. How many
// are left.
fn play(core: &mut PlayedCore, turns: u64, counts: &mut Counts) -> u64 {
    let mut state = 0x9e37_79b9_7f4a_7c15u64;
    let mut left = turns;
    let mut ended = 0u64;
    for _ in 0..turns {
        state ^= state << 13;
        state ^= state >> 7;
        state ^= state << 17;
        let given = (1 + (state >> 40) % 32).min(left);
        let made = counts.turns(core, ((state >> 32) % u64::from(BACKENDS)) as u32, given);
        left = left.saturating_sub(made);
        // So many times in a row a backend had no line left.
        ended = if made == 1 && counts.last == Turn::Done {
            ended.wrapping_add(1)
        } else {
            0
        };
        if left == 0 || ended == 200 {
            return left;
        }
    }
    left
}

impl Counts {
    fn print_kinds(self, rt: HostRuntime) -> io::Result<()> {
        let Counts {
            copied,
            loaded,
            zeroed,
            other,
            waited,
            done,
            ..
        } = self;
        println!(rt; "copied {copied} loaded {loaded} zeroed {zeroed}")?;
        println!(rt; "other {other} waited {waited} done {done}")
    }

    fn sum(self) -> u64 {
        let moved = [self.copied, self.loaded, self.zeroed, self.other];
        let mut sum = self.waited.wrapping_add(self.done);
        for count in moved {
            sum = sum.wrapping_add(count);
        }
        sum
    }

    // So many turns of a backend, fewer where it waits or is done. How many it had.
    fn turns(&mut self, core: &mut PlayedCore, backend: u32, given: u64) -> u64 {
        for made in 0..given {
            let turn = core.turn(backend);
            self.count(turn);
            if !matches!(turn, Turn::Moved { .. }) {
                return made + 1;
            }
        }
        given
    }

    fn count(&mut self, turn: Turn) {
        self.last = turn;
        let counter = match turn {
            Turn::Moved {
                event: Event::StoreRingWord,
            } => &mut self.copied,
            Turn::Moved {
                event: Event::LoadRingWord { .. },
            } => &mut self.loaded,
            Turn::Moved {
                event: Event::ZeroRingWord,
            } => &mut self.zeroed,
            Turn::Moved { .. } => &mut self.other,
            Turn::Waits { .. } => &mut self.waited,
            Turn::Done | Turn::Down { .. } => &mut self.done,
        };
        *counter = counter.wrapping_add(1);
    }
}
