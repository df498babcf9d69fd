// The steps of a reservation (PostgreSQL's xlog.c, ReserveXLogInsertLocation; its insertpos_lck is
// the lowest bit of the position's word here). In this order: the position (word 0) is locked where
// it is still the one met; the last start (word 1) is loaded, and the record's own start stored for
// the next one; the position behind the record is stored, which unlocks it. Nobody else stores into
// words 0 and 1 between. From the last store on the record stands in the order, in flight under
// insertion locks that the pass held before: who sees it reserved, and then visits the locks, finds
// it. Where it does not fit, or a switch would leave the log where it stands, the position is
// stored as it was, before word 1 is loaded. As each step (quiet.rt) these are made by a seated
// pass whose view lets it step.
ghost use Rattle.std.specs.Prelude.{◌≡◌, ℕ, List};
ghost use Rattle.wal_types.specs.declared.record.Record.{Record};
ghost use Rattle.machine_state.specs.Steps.{give_position_back, load_prev, lock_position, stay, store_position, store_prev, MayStep, value_behind};
ghost use Rattle.wal_rule.specs.Stepping.{Meets};
ghost use Rattle.wal_rule.specs.SeatedPasses.{Steps, view_of};

use crate::memory::{LAST_START_PLACE, POSITION_PLACE};
use crate::plays::OfKind;
use crate::quiet::NO_OPERANDS;
use crate::seated::SeatedPass;
use segment_disk::Disk;
use std::marker::Brand;

pub struct LoadsPrev;

impl OfKind for LoadsPrev {
    ghost kind = { load_prev };
}

pub struct StoresPrev;

impl OfKind for StoresPrev {
    ghost kind = { store_prev };
}

pub struct Stays;

impl OfKind for Stays {
    ghost kind = { stay };
}

impl<'a, D: Disk> SeatedPass<'a, D> {
    /// Locks the position where it is still the expected one, which is a byte position. The pass
    /// has none locked; it has this one, and nobody else, where the word found is the expected one.
    pub fn lock_position(&mut self, expected: u64) -> u64
        requires may { MayStep (view_of self.old) (lock_position expected) }
        ensures steps { Steps (lock_position expected) result self.old self.new }
        ensures met { Meets (view_of self.old) (lock_position expected) result }
    {
        self.exchanges::<Brand>(POSITION_PLACE, expected, expected + 1, NO_OPERANDS)
    }

    /// The address at which the last reserved record starts, 0 where there is none. The pass has
    /// the position locked, so that no other record is reserved meanwhile.
    pub fn load_prev(&mut self) -> u64
        requires may { MayStep (view_of self.old) load_prev }
        ensures steps { Steps load_prev result self.old self.new }
    {
        self.loads::<LoadsPrev>(LAST_START_PLACE, NO_OPERANDS)
    }

    /// Stores, for the next record, the address at which this one starts: that of the position that
    /// the pass has locked. The start before it was loaded.
    pub fn store_prev(&mut self, start: u64)
        requires may { MayStep (view_of self.old) store_prev }
        requires value { start ≡ value_behind (view_of self.old) store_prev 0 }
        ensures steps { Steps store_prev 0 self.old self.new }
    {
        self.stores::<StoresPrev>(LAST_START_PLACE, start, NO_OPERANDS);
    }

    /// Stores the byte position behind the record, and so reserves its place. The locks under which
    /// the record stands, and the record, are picked with the kind.
    pub fn store_position<K: OfKind>(&mut self, position: u64)
        requires kind { (locks : List ℕ) × (value : Record)
            × (K.kind ≡ store_position locks value) }
        // The next start is stored, the record may stand under the locks and fits, and nothing is
        // in flight; the locks are some that the pass holds.
        requires may { MayStep (view_of self.old) K.kind }
        requires value { position ≡ value_behind (view_of self.old) K.kind 0 }
        ensures steps { Steps K.kind 0 self.old self.new }
    {
        self.stores::<K>(POSITION_PLACE, position, NO_OPERANDS);
    }

    /// Stores the position as it was before it was locked, where too few bytes are left for the
    /// record, which is picked with the kind.
    pub fn give_position_back<K: OfKind>(&mut self, position: u64)
        requires kind { (value : Record) × (K.kind ≡ give_position_back value) }
        // The position is locked, and nothing was loaded or stored since: no word is left changed.
        requires may { MayStep (view_of self.old) K.kind }
        requires value { position ≡ value_behind (view_of self.old) K.kind 0 }
        ensures steps { Steps K.kind 0 self.old self.new }
    {
        self.stores::<K>(POSITION_PLACE, position, NO_OPERANDS);
    }

    /// Stores the position as it was before it was locked, where the log stands at a segment's
    /// start: a switch has nothing to do there (RequestXLogSwitch).
    pub fn stay(&mut self, position: u64)
        // The position is locked, and nothing was loaded or stored since.
        requires may { MayStep (view_of self.old) stay }
        requires value { position ≡ value_behind (view_of self.old) stay 0 }
        ensures steps { Steps stay 0 self.old self.new }
    {
        self.stores::<Stays>(POSITION_PLACE, position, NO_OPERANDS);
    }
}
