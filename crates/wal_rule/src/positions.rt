// How far the log is reserved, written, durable and answered, and whether its disk has failed
// (PostgreSQL's xlog.c, LogwrtResult, asyncXactLSN). Each pass may load these words. Only who has
// the writer in hand stores what is written; behind a sync the disk's moment; behind both the
// flushed address. Who loads the flushed address and then the moment is promised that all below the
// one is durable from the other on: its moment was stored before it, and one that is stored
// meanwhile is later, so nothing is promised too early. Down is set by who met the fault, to the
// disk's count, and stays. The last word tells up to where commits are answered that may not be
// durable: anybody raises it, to what it has seen reserved at most. As each step (quiet.rt) these
// are made by a seated pass whose view lets it step.
ghost use Rattle.std.specs.Prelude.{◌≡◌, ◌≢◌, ℕ, ◌<◌, ◌≤◌, ◌^◌, All};
ghost use Rattle.segment_disk.specs.Cause.{Rose};
ghost use Rattle.machine_state.specs.Moves.{unlocked};
ghost use Rattle.machine_state.specs.Views.{FlushPromise};
ghost use Rattle.machine_state.specs.Steps.{load_down, load_flushed, load_moment, load_position, load_async, load_written, raise_async, set_down, store_flushed, store_moment, store_written, MayStep, value_behind};
ghost use Rattle.wal_rule.specs.Downs.{KnowsDown};
ghost use Rattle.wal_rule.specs.Stepping.{Meets};
ghost use Rattle.wal_rule.specs.SeatedPasses.{Steps, opening_of, view_of};

use crate::memory::{
    DOWN_PLACE, FLUSHED_PLACE, MOMENT_PLACE, POSITION_PLACE, WRITTEN_PLACE, place_behind,
};
use crate::plays::OfKind;
use crate::quiet::{NO_OPERANDS, Operands};
use crate::seated::SeatedPass;
use machine_state::layout::async_number;
use segment_disk::Disk;
use std::marker::Brand;

pub struct LoadsPosition;

impl OfKind for LoadsPosition {
    ghost kind = { load_position };
}

pub struct LoadsWritten;

impl OfKind for LoadsWritten {
    ghost kind = { load_written };
}

pub struct LoadsFlushed;

impl OfKind for LoadsFlushed {
    ghost kind = { load_flushed };
}

pub struct LoadsMoment;

impl OfKind for LoadsMoment {
    ghost kind = { load_moment };
}

pub struct LoadsDown;

impl OfKind for LoadsDown {
    ghost kind = { load_down };
}

pub struct LoadsAsync;

impl OfKind for LoadsAsync {
    ghost kind = { load_async };
}

pub struct StoresWritten;

impl OfKind for StoresWritten {
    ghost kind = { store_written };
}

pub struct StoresMoment;

impl OfKind for StoresMoment {
    ghost kind = { store_moment };
}

pub struct StoresFlushed;

impl OfKind for StoresFlushed {
    ghost kind = { store_flushed };
}

pub struct SetsDown;

impl OfKind for SetsDown {
    ghost kind = { set_down };
}

impl<'a, D: Disk> SeatedPass<'a, D> {
    /// How far records are reserved: a byte position, one more while it is locked. No pass has seen
    /// more.
    pub fn load_position(&mut self) -> u64
        // What is met is no less than what the pass has seen, and is seen then.
        ensures steps { Steps load_position result self.old self.new }
        ensures met { Meets (view_of self.old) load_position result }
        ensures rises { (view_of self.old).reserving.seen ≤ unlocked result }
        ensures low { result < 2 ^ 60 }
    {
        self.loads::<LoadsPosition>(POSITION_PLACE, NO_OPERANDS)
    }

    /// The written address.
    pub fn load_written(&mut self) -> u64
        ensures steps { Steps load_written result self.old self.new }
        ensures met { Meets (view_of self.old) load_written result }
    {
        self.loads::<LoadsWritten>(WRITTEN_PLACE, NO_OPERANDS)
    }

    /// The flushed address. The pass was promised nothing beyond it.
    pub fn load_flushed(&mut self) -> u64
        // The view keeps the address: `load_moment` promises what is below it.
        ensures steps { Steps load_flushed result self.old self.new }
        ensures met { Meets (view_of self.old) load_flushed result }
        ensures furthest { All (λ (p : FlushPromise). p.upto ≤ result)
            (view_of self.old).writing.promises }
    {
        self.loads::<LoadsFlushed>(FLUSHED_PLACE, NO_OPERANDS)
    }

    /// The disk's moment when the last flush had ended. The pass was promised nothing of a later
    /// one.
    pub fn load_moment(&mut self) -> u64
        // The view is promised that all below the flushed address that it loaded last is durable
        // from this moment on.
        ensures steps { Steps load_moment result self.old self.new }
        ensures met { Meets (view_of self.old) load_moment result }
        ensures latest { All (λ (p : FlushPromise). p.moment ≤ result)
            (view_of self.old).writing.promises }
    {
        self.loads::<LoadsMoment>(MOMENT_PLACE, NO_OPERANDS)
    }

    /// The disk's count of faults where it has failed, else 0. It is the count that the pass knows,
    /// where it knows one, and is above that at the opening, or the last that there is.
    pub fn load_down(&mut self) -> u64
        ensures steps { Steps load_down result self.old self.new }
        ensures met { Meets (view_of self.old) load_down result }
        ensures known { (faults : ℕ) → KnowsDown faults (view_of self.old) → result ≡ faults }
        ensures rose { result ≢ 0 → Rose (opening_of self.old).faults result }
    {
        self.loads::<LoadsDown>(DOWN_PLACE, NO_OPERANDS)
    }

    /// The address up to which commits are answered that may not be durable yet. The pass counts on
    /// it then for its own entries, and counted on nothing beyond it.
    pub fn load_async(&mut self) -> u64
        ensures steps { Steps load_async result self.old self.new }
        ensures met { Meets (view_of self.old) load_async result }
        ensures furthest { (view_of self.old).async_met ≤ result }
    {
        let number = async_number(self.shape().ring_pages());
        self.loads::<LoadsAsync>(place_behind(number), NO_OPERANDS)
    }

    /// Raises that address where it is still the expected one, and else leaves it; it answers what
    /// was there. The pass has seen so much reserved, and the address is a multiple of 8.
    pub fn raise_async(&mut self, expected: u64, upto: u64) -> u64
        requires may { MayStep (view_of self.old) (raise_async expected upto) }
        ensures steps { Steps (raise_async expected upto) result self.old self.new }
        ensures met { Meets (view_of self.old) (raise_async expected upto) result }
    {
        let number = async_number(self.shape().ring_pages());
        self.exchanges::<Brand>(place_behind(number), expected, upto, two(expected, upto))
    }

    /// Stores as written what the writer in hand has written: from now on pages below that address
    /// may be given up, and the writer may go back, unless it met a fault.
    pub fn store_written(&mut self, written: u64)
        requires may { MayStep (view_of self.old) store_written }
        requires value { written ≡ value_behind (view_of self.old) store_written 0 }
        ensures steps { Steps store_written 0 self.old self.new }
    {
        self.stores::<StoresWritten>(WRITTEN_PLACE, written, NO_OPERANDS);
    }

    /// Stores the disk's moment, behind which all that is written is durable: the writer has met no
    /// fault, and no segment waits for a sync.
    pub fn store_moment(&mut self, moment: u64)
        requires may { MayStep (view_of self.old) store_moment }
        requires value { moment ≡ value_behind (view_of self.old) store_moment 0 }
        ensures steps { Steps store_moment 0 self.old self.new }
    {
        self.stores::<StoresMoment>(MOMENT_PLACE, moment, NO_OPERANDS);
    }

    /// Stores as flushed what is durable from the moment on that was stored, which is all that is
    /// written; that is stored as written too. The pass is promised it.
    pub fn store_flushed(&mut self, flushed: u64)
        requires may { MayStep (view_of self.old) store_flushed }
        requires value { flushed ≡ value_behind (view_of self.old) store_flushed 0 }
        ensures steps { Steps store_flushed 0 self.old self.new }
    {
        self.stores::<StoresFlushed>(FLUSHED_PLACE, flushed, NO_OPERANDS);
    }

    /// Stores the disk's count of faults, which the writer in hand has met: from now on no call of
    /// the log goes to the device.
    pub fn set_down(&mut self, faults: u64)
        requires may { MayStep (view_of self.old) set_down }
        requires value { faults ≡ value_behind (view_of self.old) set_down 0 }
        ensures steps { Steps set_down 0 self.old self.new }
    {
        self.stores::<SetsDown>(DOWN_PLACE, faults, NO_OPERANDS);
    }
}

// Two numbers.
fn two(first: u64, second: u64) -> Operands
    ensures { result ≡ record { first = first; second = second } }
{
    Operands { first, second }
}
