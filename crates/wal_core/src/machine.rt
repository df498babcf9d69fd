//! The machine of many backends over plain data. A core that `new` gave, and that was changed by
//! turns alone, plays some machine that runs (`IsPlayed`): that is what each call rests on, and
//! what a turn leaves. What words and views hold between two turns keeps the machine's invariant; a
//! caller reads them (`word`, `view`) and cannot change them.

ghost use Rattle.std.specs.Prelude.{◌≡◌, ◌↔◌, ◌+◌, ◌<◌, ◌≤◌, [], All, List, length, slice_get, Some, None, IfOk, IfErr, IfSome, MatchResult};
ghost use Rattle.segment_disk.specs.DiskImage.{LeftAt};
ghost use Rattle.segment_disk.specs.First.{first_state};
ghost use Rattle.segment_disk.specs.MemDisk.{first_image, tape_of};
ghost use Rattle.segment_disk.specs.Picks.{IsPicked, choice_of};
ghost use Rattle.segment_disk.specs.Tape.{state_now};
ghost use Rattle.machine_state.specs.Sound.{IsSetup, IsSound};
ghost use Rattle.machine_state.specs.Suited.{tape_from};
ghost use Rattle.machine_state.specs.Views.{HasAt, Plain, View};
ghost use Rattle.machine_turns.specs.Doing.{Ask, Backend, Machine};
ghost use Rattle.machine_turns.specs.Standing.{HasBackend};
ghost use Rattle.machine_turns.specs.Turned.{turned};
ghost use Rattle.machine_state.specs.Numbers.{IsWord, word_named};
ghost use Rattle.wal_core.specs.Cores.{HasBegun, HasWriter, IsPlayed, core_of, machine_begun};
ghost use Rattle.wal_core.specs.Lines.{AreScriptsFor, InsertsNoSwitch};
ghost use Rattle.wal_core.specs.PlainData.{plain_view, turn_of};
ghost use Rattle.wal_core.specs.Playing.{PlaysMachine};

use crate::beginning::{flush_count, lanes_of, line_count, log_end};
use machine_state::{LogShape, MachineWords, Setup, Word};
use machine_turns::{MachineWriter, PlainBackend, PlainView, Script, Turn};
use segment_disk::{MemDisk, Memory, Pick};
use std::alloc::{AllocError, Global};

/// Why no core was made.
#[derive(Clone, Copy, Debug, PartialEq, Eq)]
pub enum CoreErr {
    /// A field of the setup is out of its range, or there are not fewer scripts than passes.
    BadSetup,
    /// Memory ran out.
    Memory,
}

/// The machine of a log that several backends write, played one turn at a time: the shared words,
/// the writer on a disk in memory, and a lane for each backend.
///
/// Backend b is the pass with the number b + 1. Contracts see a core by the machine that it plays
/// (`PlaysMachine`): what each turn tells and leaves is what the machine's `turned` says.
#[derive(Drop)]
pub struct Core {
    shape: LogShape,
    words: MachineWords,
    writer: MachineWriter,
    lanes: Vec<PlainBackend>,
    full: bool,
}

impl Core {
    /// A machine over a log and a disk that hold nothing, with these scripts, one for each backend.
    /// `fail` lists the counted calls of the disk that fail, by their numbers from 1. The disk has
    /// room for every call that the scripts can make: one for each page of the log and each line,
    /// one more for each line that flushes, and two for each segment. No line inserts a segment
    /// switch, since that would need all eight locks, and a backend takes one.
    pub fn new(
        alloc: Global,
        setup: Setup,
        scripts: Vec<Script>,
        fail: Vec<u64>,
    ) -> Result<Core, CoreErr>
        requires no_switch { All (All InsertsNoSwitch) scripts.items }
        // It begins as the machine whose log and disk hold nothing, and is played; `BadSetup` comes
        // just where the setup is none, or has too few passes for the scripts.
        ensures bad_setup { IfErr result (λ e. e ≡ CoreErr.BadSetup
            ↔ ((IsSetup setup × (length scripts.items < setup.passes)) → ⊥)) }
        ensures begun { IfOk result (λ core. HasBegun setup fail.items (core_of core)) }
        ensures plays { IfOk result (λ core. (asks : List (List Ask))
            → AreScriptsFor asks scripts.items
            → PlaysMachine (core_of core) (machine_begun (core_of core) asks)) }
        ensures played { IfOk result (λ core. IsPlayed core) }
        // There is a backend for each script.
        ensures lanes { IfOk result (λ core.
            length (core_of core).lanes ≡ length scripts.items) }
    {
        let Some(shape) = LogShape::new(setup) else {
            return Err(CoreErr::BadSetup);
        };
        if scripts.len() >= shape.passes() as usize {
            return Err(CoreErr::BadSetup);
        }
        let words = MachineWords::first(alloc, setup, 0)?;
        let end = log_end(&shape, &scripts);
        let lines = line_count(&scripts);
        let flushes = flush_count(&scripts);
        let writer = MachineWriter::new(alloc, &shape, end, lines, flushes, fail)?;
        let lanes = lanes_of(alloc, &shape, scripts)?;
        Ok(Core {
            shape,
            words,
            writer,
            lanes,
            full: false,
        })
    }

    /// One turn of a backend that is there: the step that the order of steps names for it. Where
    /// that waits, or its lines are all answered, nothing is changed. It takes no memory.
    pub fn turn(&mut self, backend: u32) -> Turn
        requires there { backend < length (core_of self.old).lanes }
        requires played { IsPlayed self.old }
        // What it tells and leaves is the machine's turn.
        ensures turned { (m : Machine) → PlaysMachine (core_of self.old) m
            → (result ≡ turn_of (turned m backend).0)
            × PlaysMachine (core_of self.new) (turned m backend).1 }
        // The machine keeps its invariant.
        ensures sound { (m : Machine) → PlaysMachine (core_of self.old) m
            → let n = (turned m backend).1 in
            IsSound n.first n.opening n.state.words n.state.home n.state.views }
        ensures played { IsPlayed self.new }
        // All backends stay.
        ensures lanes { length (core_of self.new).lanes ≡ length (core_of self.old).lanes }
    {
        self.lanes[backend as usize].turn(
            &self.shape,
            &mut self.words,
            &mut self.writer,
            &mut self.full,
        )
    }

    /// How many backends there are.
    pub fn backends(&self) -> u32
        requires { IsPlayed self.now }
        ensures count { result ≡ length (core_of self.now).lanes }
        ensures machine { (m : Machine) → PlaysMachine (core_of self.now) m
            → length m.backends ≡ result }
    {
        self.lanes.len() as u32
    }

    /// How many lines of a backend that is there are answered.
    pub fn answered(&self, backend: u32) -> u32
        requires { backend < length (core_of self.now).lanes }
        ensures { (m : Machine) (b : Backend) → PlaysMachine (core_of self.now) m
            → HasBackend m backend b → b.answered ≡ result }
    {
        let answered = self.lanes[backend as usize].answered;
        // It fits: the disk has room for a call for each line.
        u32::try_from(answered).unwrap_or(u32::MAX)
    }

    /// What a word that all backends share holds now.
    pub fn word(&self, word: Word) -> u64
        requires there { IsWord self.now.words.pages word }
        ensures { (m : Machine) → PlaysMachine (core_of self.now) m
            → result ≡ word_named self.now.words.pages (m.state).words word }
    {
        self.words.get(word)
    }

    /// What a backend knows and is about; `None` where it is not there.
    pub fn view(&self, backend: u32) -> Option<PlainView>
        ensures there { (m : Machine) (b : Backend) (v : View) → PlaysMachine (core_of self.now) m
            → HasBackend m backend b → HasAt (m.state).views (backend + 1) v
            → result ≡ Some (plain_view v) }
        ensures absent { (m : Machine) → PlaysMachine (core_of self.now) m
            → length m.backends ≤ backend → result ≡ None }
    {
        match self.lanes.get(backend as usize) {
            Some(lane) => Some(lane.view),
            None => None,
        }
    }

    /// Whether a line was answered that the log is full.
    pub fn full(&self) -> bool
        ensures { (m : Machine) → PlaysMachine (core_of self.now) m → m.full ≡ result }
    {
        self.full
    }

    /// The disk that a crash leaves now, with the words that the pick says. It is there to be read,
    /// and has no room for a counted call.
    pub fn crash(&self, alloc: Global, pick: Pick) -> Result<MemDisk, Memory>
        // An image that a crash at the last moment of the writer's disk may leave, wherever the
        // writer is: the one that the pick names. The core goes on as it was.
        ensures left { IfOk result (λ disk. (m : Machine) (w : Plain)
            → PlaysMachine (core_of self.now) m → HasWriter m w
            → IfSome (tape_from m.first w.calls) (λ tape. LeftAt tape (length tape.calls)
            (first_image disk))) }
        ensures picked { IfOk result (λ disk. (m : Machine) (w : Plain)
            → PlaysMachine (core_of self.now) m → HasWriter m w
            → IfSome (tape_from m.first w.calls) (λ tape. IsPicked (choice_of pick) (state_now tape)
            (first_image disk))) }
        ensures nothing_called { IfOk result (λ disk. tape_of disk
            ≡ Some (record { at_first = first_state disk.first.items; calls = [] })) }
    {
        self.writer.crash(alloc, pick)
    }
}

impl From<AllocError> for CoreErr {
    ghost use Rattle.std.specs.Prelude.{◌≡◌};
    ghost use Rattle.wal_core.specs.declared.machine.CoreErr.TheVariants.{Memory};

    ghost from_gives = { λ _ e. e ≡ Memory };

    fn from(_e: AllocError) -> CoreErr {
        CoreErr::Memory
    }
}

impl From<Memory> for CoreErr {
    ghost use Rattle.std.specs.Prelude.{◌≡◌};
    ghost use Rattle.wal_core.specs.declared.machine.CoreErr.TheVariants.{Memory};

    ghost from_gives = { λ _ e. e ≡ Memory };

    fn from(_e: Memory) -> CoreErr {
        CoreErr::Memory
    }
}
