// The turn to write, and the writer in its slot (PostgreSQL's xlog.c, WALWriteLock). Who meets 0 in
// the turn's word has the turn, and nobody else; it may take the writer out of its slot. Only with
// the writer in hand the device is called, and written, moment, flushed and down are stored: so the
// device's calls come one after another. The writer goes back once its written address is stored,
// or, behind a fault, once down is set: so whoever takes it next finds in the words how far it
// came. Then the turn is given back. As each step (quiet.rt) these are made by a seated pass whose
// view lets it step.
ghost use Rattle.std.specs.Prelude.{◌≡◌, ◌≢◌, ℕ, true, false, []};
ghost use mathlib.Core.Option.{none};
ghost use Rattle.machine_state.specs.Steps.{release_write_turn, slot_in, slot_out, take_write_turn, view_behind, MayStep};
ghost use Rattle.wal_rule.specs.Ruled.{HasInHand, HasTaken, IsOutOf};
ghost use Rattle.machine_state.specs.Views.{Lent};
ghost use Rattle.wal_rule.specs.Stepping.{Meets};
ghost use Rattle.wal_rule.specs.SeatedPasses.{Steps, began_of, hand_of, opening_of, view_of};

use crate::memory::WRITE_TURN_PLACE;
use crate::plays::{BeganOn, OfKind, SlotIn, SlotOut};
use crate::quiet::NO_OPERANDS;
use crate::seated::SeatedPass;
use segment_disk::Disk;
use std::marker::Brand;

pub struct TakesWriteTurn;

impl OfKind for TakesWriteTurn {
    ghost kind = { take_write_turn };
}

pub struct ReleasesWriteTurn;

impl OfKind for ReleasesWriteTurn {
    ghost kind = { release_write_turn };
}

impl<'a, D: Disk> SeatedPass<'a, D> {
    /// Takes the turn to write where it is free, which is where the word found is 0. The pass does
    /// not have it, and stores one more than its pass's number.
    pub fn take_write_turn(&mut self) -> u64
        requires may { MayStep (view_of self.old) take_write_turn }
        ensures steps { Steps take_write_turn result self.old self.new }
        ensures met { Meets (view_of self.old) take_write_turn result }
    {
        self.exchanges::<TakesWriteTurn>(
            WRITE_TURN_PLACE,
            0,
            u64::from(self.number) + 1,
            NO_OPERANDS,
        )
    }

    /// Takes the writer out of its slot. The pass has the turn to write. It is the log's writer, as
    /// the last one left it who had it. With it the view keeps as known what the pass's watch has
    /// found to be copied, where that has visited all eight locks, and else nothing.
    pub fn slot_out(&mut self)
        requires may { MayStep (view_of self.old) slot_out }
        ensures out { (met : ℕ) × (w : _) × IsOutOf D.tape D.moment D.faults
            (began_of D.tape self.old) (opening_of self.old) met w self.old.seat.me
            self.new.seat.me }
        ensures table { self.new.table ≡ self.old.table }
    {
        self.slot_out_on::<Brand>();
    }

    // Takes the writer out of its slot, with the tape at the opening picked for the proof.
    fn slot_out_on<B: BeganOn>(&mut self)
        requires may { MayStep (view_of self.old) slot_out }
        requires began { B.began ≡ began_of D.tape self.old }
        ensures out { (met : ℕ) × (w : _) × IsOutOf D.tape D.moment D.faults
            B.began (opening_of self.old) met w self.old.seat.me self.new.seat.me }
        ensures table { self.new.table ≡ self.old.table }
    {
        self.table
            .table
            .shared
            .load::<SlotOut<D, B>>(&mut self.seat, WRITE_TURN_PLACE);
    }

    /// Puts the writer back into its slot, as the pass's view keeps it. Its written address is
    /// stored as written and it met no fault, or the pass has set down.
    pub fn slot_in(&mut self)
        requires may { MayStep (view_of self.old) slot_in }
        requires out { (l : Lent) × (w : _) × HasInHand D.tape D.moment D.faults
            (began_of D.tape self.old) (opening_of self.old) self.old.seat.me l w }
        ensures view { (met : ℕ)
            × (self.new.seat.me ≡ (view_behind (view_of self.old) slot_in met none, [])) }
        ensures table { self.new.table ≡ self.old.table }
    {
        self.table
            .table
            .shared
            .load::<SlotIn>(&mut self.seat, WRITE_TURN_PLACE);
    }

    /// Gives the turn to write back, with the writer in its slot.
    pub fn release_write_turn(&mut self)
        requires may { MayStep (view_of self.old) release_write_turn }
        ensures steps { Steps release_write_turn 0 self.old self.new }
    {
        self.stores::<ReleasesWriteTurn>(WRITE_TURN_PLACE, 0, NO_OPERANDS);
    }

    /// Where the turn to write is free, takes it and the writer. A call that waits tries again
    /// where the answer is false.
    pub fn take_writer(&mut self) -> bool
        requires may { MayStep (view_of self.old) take_write_turn }
        requires none_out { hand_of self.old ≡ [] }
        // At true the pass has the turn and the writer, and nothing else has changed for it; at
        // false the turn was somebody's, and nothing has.
        ensures taken { result ≡ true → HasTaken D.tape D.moment D.faults
            (began_of D.tape self.old) (opening_of self.old) self.old.seat.me self.new.seat.me }
        ensures same { result ≡ false → self.new.seat.me ≡ self.old.seat.me }
        ensures table { self.new.table ≡ self.old.table }
        ensures met { result ≡ false
            → (turn : ℕ) × (turn ≢ 0) × Meets (view_of self.old) take_write_turn turn }
    {
        if self.take_write_turn() != 0 {
            return false;
        }
        self.slot_out();
        true
    }
}
