// The table and its rule. Its words are the machine's, by the numbers that they have there (`Words`
// of machine_state), each at a place of its own in memory (memory.rt): the position and the last
// start; the insertion locks; the turns to map and to write; how far pages are mapped, the log
// written and durable, since which moment, and whether the disk has failed; the buffers' ends; the
// ring; and last the async address. Slot 0 has the writer. PostgreSQL's xlog.c has these in
// XLogCtlData and XLogCtlInsert, under spinlocks and LWLocks; here a word changes in one atomic
// step, and between any two steps of any seats the rule holds. So nobody has to hold a lock to load
// a word, and what a load tells is told by the rule.
ghost use Rattle.std.specs.Prelude.{◌≡◌, ◌+◌};
ghost use Rattle.machine_state.specs.Words.{word_count};
ghost use Rattle.wal_rule.specs.Beginning.{HoldsRule, founded_view};
ghost use Rattle.wal_rule.specs.Founded.{began_of_founding, founded_opening};
ghost use Rattle.wal_rule.specs.WordPlaces.{places_between, words_of};

use crate::seats::{Founding, PassView};
use crate::writer::LogWriter;
use atomic_table::{Seat, Table, TableRule};
use machine_state::LogShape;
use segment_disk::Disk;
use std::alloc::Global;
use std::marker::PhantomData;

/// The rule of the table of a log on a disk: the machine's invariant, once the table is begun.
pub struct LogRule<D> {
    disk: PhantomData<D>,
}

impl<D: Disk> TableRule<LogWriter<D>, PassView, Founding<D>> for LogRule<D> {
    ghost holds = { λ key s. HoldsRule D.tape D.moment D.faults (founded_opening key)
        (began_of_founding D.tape key) (words_of s.words) s.homes s.views };

    ghost first = { λ key. founded_view D.tape D.moment key };
}

/// A seat of the table: what one backend steps with.
pub type LogSeat<D> = Seat<LogWriter<D>, PassView>;

/// The table of a log's shared words, each at its place, with the writer in slot 0; and the log's
/// shape.
#[derive(Drop)]
pub struct LogTable<D: Disk> {
    pub table: Table<LogWriter<D>, PassView, Founding<D>, LogRule<D>, Global>,
    pub shape: LogShape,
    pub ghost shaped: { shape ≡ table.shared.key.setup },
    pub ghost wide: { table.shared.table_id.words
        ≡ word_count table.shared.key.setup + places_between },
    pub ghost one_slot: { table.shared.table_id.slots ≡ 1 },
}
