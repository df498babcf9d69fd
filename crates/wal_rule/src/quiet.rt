// Steps that move no writer and call no device: one load, store or exchange each. Each kind is a
// call in one of the files beside this one, by one of these three functions. Such a call picks the
// kind (`K`) and shows what holds of it: the pass's view lets it make the step (`may`); the place
// is that of the machine's word for this kind (`place`), and the value the machine's own (`loads`,
// `stores`, `exchanges`); the table's memory has that place (`there`). Then the step keeps the
// rule, whatever others do between, and the view behind it is the machine's (`steps`). A store
// meets nothing: the view behind it is the same whatever the word held (`meets_none`).
ghost use Rattle.std.specs.Prelude.{◌≡◌, ℕ, ◌<◌, ◌==◌, if◌then◌else◌};
ghost use mathlib.Core.Option.{none};
ghost use Rattle.machine_state.specs.Steps.{view_behind, MayStep, value_behind, word_of_step};
ghost use Rattle.wal_rule.specs.Stepping.{IsQuiet, Meets};
ghost use Rattle.wal_rule.specs.SeatedPasses.{Steps, view_of};
ghost use Rattle.wal_rule.specs.WordPlaces.{place_of_word};

use crate::plays::{Finds, OfKind, Quietly};
use crate::seated::SeatedPass;
use crate::table::LogTable;
use segment_disk::Disk;

/// The operands of a step's kind, by which its call picks the kind for the proof; nothing else
/// reads them.
#[derive(Clone, Copy)]
pub struct Operands {
    pub first: u64,
    pub second: u64,
}

pub const NO_OPERANDS: Operands = Operands {
    first: 0,
    second: 0,
};

impl<'a, D: Disk> SeatedPass<'a, D> {
    // A step of a kind that loads a word, and leaves it as it was.
    pub(crate) fn loads<K: OfKind>(&mut self, place: usize, operands: Operands) -> u64
        requires quiet { IsQuiet K.kind }
        requires place { place ≡ place_of_word (word_of_step (view_of self.old) K.kind) }
        requires there { place < self.old.table.now.table.shared.table_id.words }
        requires may { MayStep (view_of self.old) K.kind }
        requires loads { (met : ℕ) → met ≡ value_behind (view_of self.old) K.kind met }
        ensures steps { Steps K.kind result self.old self.new }
        ensures met { Meets (view_of self.old) K.kind result }
    {
        self.loads_at::<K>(self.table, place, operands)
    }

    // A step of a kind that loads a word, where the caller has taken the table out of the pass: so
    // a run of steps looks it up once.
    #[inline(always)]
    pub(crate) fn loads_at<K: OfKind>(
        &mut self,
        table: &LogTable<D>,
        place: usize,
        operands: Operands,
    ) -> u64
        requires table { table.now ≡ self.old.table.now }
        requires quiet { IsQuiet K.kind }
        requires place { place ≡ place_of_word (word_of_step (view_of self.old) K.kind) }
        requires there { place < self.old.table.now.table.shared.table_id.words }
        requires may { MayStep (view_of self.old) K.kind }
        requires loads { (met : ℕ) → met ≡ value_behind (view_of self.old) K.kind met }
        ensures steps { Steps K.kind result self.old self.new }
        ensures met { Meets (view_of self.old) K.kind result }
    {
        table.table.shared.load::<Finds<K>>(&mut self.seat, place)
    }

    // A step of a kind that stores a word, whatever it held.
    pub(crate) fn stores<K: OfKind>(&mut self, place: usize, value: u64, operands: Operands)
        requires quiet { IsQuiet K.kind }
        requires place { place ≡ place_of_word (word_of_step (view_of self.old) K.kind) }
        requires there { place < self.old.table.now.table.shared.table_id.words }
        requires may { MayStep (view_of self.old) K.kind }
        requires stores { (met : ℕ) → value ≡ value_behind (view_of self.old) K.kind met }
        requires meets_none { (met other : ℕ)
            → view_behind (view_of self.old) K.kind met none ≡ view_behind
            (view_of self.old) K.kind other none }
        ensures steps { Steps K.kind 0 self.old self.new }
    {
        self.stores_at::<K>(self.table, place, value, operands);
    }

    // A step of a kind that stores a word, where the caller has taken the table out of the pass.
    #[inline(always)]
    pub(crate) fn stores_at<K: OfKind>(
        &mut self,
        table: &LogTable<D>,
        place: usize,
        value: u64,
        operands: Operands,
    )
        requires table { table.now ≡ self.old.table.now }
        requires quiet { IsQuiet K.kind }
        requires place { place ≡ place_of_word (word_of_step (view_of self.old) K.kind) }
        requires there { place < self.old.table.now.table.shared.table_id.words }
        requires may { MayStep (view_of self.old) K.kind }
        requires stores { (met : ℕ) → value ≡ value_behind (view_of self.old) K.kind met }
        requires meets_none { (met other : ℕ)
            → view_behind (view_of self.old) K.kind met none ≡ view_behind
            (view_of self.old) K.kind other none }
        ensures steps { Steps K.kind 0 self.old self.new }
    {
        table
            .table
            .shared
            .store::<Quietly<K>>(&mut self.seat, place, value)
    }

    // A step of a kind that exchanges a word where it meets what it expects, and else leaves it. It
    // answers what it met, so that the caller knows which it was.
    pub(crate) fn exchanges<K: OfKind>(
        &mut self,
        place: usize,
        expected: u64,
        value: u64,
        operands: Operands,
    ) -> u64
        requires quiet { IsQuiet K.kind }
        requires place { place ≡ place_of_word (word_of_step (view_of self.old) K.kind) }
        requires there { place < self.old.table.now.table.shared.table_id.words }
        requires may { MayStep (view_of self.old) K.kind }
        requires exchanges { (met : ℕ) → (if met == expected then value else met)
            ≡ value_behind (view_of self.old) K.kind met }
        ensures steps { Steps K.kind result self.old self.new }
        ensures met { Meets (view_of self.old) K.kind result }
    {
        self.table
            .table
            .shared
            .compare_exchange::<Finds<K>>(&mut self.seat, place, expected, value)
    }
}
