//! A machine that tests play.

ghost use Rattle.std.specs.Prelude.{All};
ghost use Rattle.machine_state.specs.Sound.{IsSetup};
ghost use Rattle.wal_core.specs.Lines.{InsertsNoSwitch};

use machine_state::layout::{
    BUFFER_ENDS, DOWN, FLUSHED, INITIALISED_END, LAST_START, LOCKS, MAPPING_TURN, MOMENT, POSITION,
    WRITE_TURN, WRITTEN, number_of_lock,
};
use machine_state::{Setup, is_setup};
use segment_disk::{MemDisk, Memory, Pick};
use std::alloc::{AllocError, Global};
use std::marker::Model;
use std::test::Fail;
use wal_core::{Core, PlainPlace, PlainView, Script, Turn, Word};

/// Segments of 1 MiB, of which the log may fill two, and a ring of four pages.
pub const SETUP: Setup = Setup {
    seg_size: 1_048_576,
    ring_pages: 4,
    cap_segments: 2,
    sysid: 1,
    passes: 9,
};

/// A core that is as turns leave it, which is what its next turn rests on.
#[derive(Drop)]
pub struct Played {
    core: Core,
    setup: Setup,
}

impl Model for Played {
    ghost use Rattle.wal_core.specs.declared.machine.Core.{Core};
    ghost use Rattle.wal_core.specs.Cores.{IsPlayed};
    ghost use Rattle.std.specs.Prelude.{◌≡◌};
    ghost use Rattle.machine_state.specs.Sound.{IsSetup};

    ghost Value = { Core };

    ghost view = { λ p. p.core };

    ghost invariant = { λ p. IsPlayed p.core × IsSetup p.setup
        × (p.core.words.pages ≡ (p.setup).ring_pages) };
}

impl Played {
    /// A machine that begins with these scripts, on a disk that fails at these calls.
    pub fn new(
        alloc: Global,
        setup: Setup,
        scripts: Vec<Script>,
        fail: Vec<u64>,
    ) -> Result<Played, Fail>
        requires { All (All InsertsNoSwitch) scripts.items }
    {
        if !is_setup(setup) {
            return Err(Fail::from("a setup"));
        }
        Ok(Played {
            core: Core::new(alloc, setup, scripts, fail)?,
            setup,
        })
    }

    /// A turn of a backend; where it is not there nothing is changed, as where its lines are done.
    pub fn turn(&mut self, backend: u32) -> Turn {
        if backend < self.core.backends() {
            self.core.turn(backend)
        } else {
            Turn::Done
        }
    }

    /// How many lines of a backend are answered; 0 where it is not there.
    pub fn answered(&self, backend: u32) -> u32 {
        if backend < self.core.backends() {
            self.core.answered(backend)
        } else {
            0
        }
    }

    pub fn full(&self) -> bool {
        self.core.full()
    }

    pub fn view(&self, backend: u32) -> Option<PlainView> {
        self.core.view(backend)
    }

    /// How far a backend is with a reservation.
    pub fn place(&self, backend: u32) -> Option<PlainPlace> {
        Some(self.view(backend)?.place)
    }

    pub fn setup(&self) -> Setup
        ensures { IsSetup result }
    {
        self.setup
    }

    /// All words that the backends share, by their numbers.
    pub fn words(&self, alloc: Global) -> Result<Vec<u64>, AllocError> {
        let mut words = Vec::from_slice(alloc, &self.words_outside_the_ring())?;
        for buffer in 0..self.setup.ring_pages {
            words.push(self.core.word(Word::BufferEnd(buffer)))?;
        }
        for place in 0..self.setup.ring_pages * 1024 {
            words.push(self.core.word(Word::Ring(place)))?;
        }
        Ok(words)
    }

    /// The words before the ring's, by their numbers.
    pub fn words_outside_the_ring(&self) -> [u64; BUFFER_ENDS] {
        let mut words = [0; BUFFER_ENDS];
        words[POSITION] = self.core.word(Word::Position);
        words[LAST_START] = self.core.word(Word::LastStart);
        for lock in 0..LOCKS {
            words[number_of_lock(lock)] = self.core.word(Word::Lock(lock));
        }
        words[MAPPING_TURN] = self.core.word(Word::MappingTurn);
        words[WRITE_TURN] = self.core.word(Word::WriteTurn);
        words[INITIALISED_END] = self.core.word(Word::InitialisedEnd);
        words[WRITTEN] = self.core.word(Word::Written);
        words[FLUSHED] = self.core.word(Word::Flushed);
        words[MOMENT] = self.core.word(Word::Moment);
        words[DOWN] = self.core.word(Word::Down);
        words
    }

    pub fn crash(&self, alloc: Global, pick: Pick) -> Result<MemDisk, Memory> {
        self.core.crash(alloc, pick)
    }
}
