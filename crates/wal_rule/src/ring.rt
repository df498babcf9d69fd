// Words of the ring: 1024 for each buffer, behind the buffers' end words (PostgreSQL's xlog.c,
// GetXLogBuffer, CopyXLogRecordToWAL, XLogWrite). A buffer's end word says which page it holds. A
// pass whose record is in flight stores the record's words one by one, in rising order, each below
// an end that it has met; no two records own a word, so copies go side by side and need no lock
// between them. Who has the writer in hand loads words of a page that is not written whole and
// begins where all is copied: each is 0 or the log's, and the log's below the address up to which
// all is known to be copied. As each step (quiet.rt) these are made by a seated pass whose view
// lets it step.
ghost use Rattle.std.specs.Prelude.{◌≡◌, ◌<◌};
ghost use Rattle.machine_state.specs.Steps.{load_buffer_end, load_ring_word, store_ring_word, MayStep, value_behind, word_of_step};
ghost use Rattle.wal_rule.specs.Stepping.{Meets};
ghost use Rattle.wal_rule.specs.SeatedPasses.{Steps, view_of};

use crate::memory::place_behind;
use crate::plays::OfKind;
use crate::quiet::{NO_OPERANDS, Operands};
use crate::seated::SeatedPass;
use crate::table::LogTable;
use machine_state::layout::BUFFER_ENDS;
use segment_disk::Disk;
use std::marker::Brand;

pub struct StoresRingWord;

impl OfKind for StoresRingWord {
    ghost kind = { store_ring_word };
}

impl<'a, D: Disk> SeatedPass<'a, D> {
    /// The address behind the page that a buffer holds, 0 where it holds none. The pass has met
    /// this end then: the page stays there while a word on it is still to be copied.
    pub fn load_buffer_end(&mut self, buffer: u32) -> u64
        requires buffer { MayStep (view_of self.old) (load_buffer_end buffer) }
        ensures steps { Steps (load_buffer_end buffer) result self.old self.new }
        ensures met { Meets (view_of self.old) (load_buffer_end buffer) result }
    {
        let number = BUFFER_ENDS + buffer as usize;
        self.loads::<Brand>(place_behind(number), one(u64::from(buffer)))
    }

    /// Stores the next word of the record that is copied, by the number that this word has among
    /// all. The word lies on a page whose end the pass has met, or on one before it. The caller has
    /// taken the pass's table out of it, so that a run of stores looks it up once.
    #[inline(always)]
    pub fn store_ring_word(&mut self, table: &LogTable<D>, number: usize, word: u64)
        requires table { table.now ≡ self.old.table.now }
        requires number { number ≡ word_of_step (view_of self.old) store_ring_word }
        requires may { MayStep (view_of self.old) store_ring_word }
        requires value { word ≡ value_behind (view_of self.old) store_ring_word 0 }
        ensures steps { Steps store_ring_word 0 self.old self.new }
    {
        self.stores_at::<StoresRingWord>(table, place_behind(number), word, NO_OPERANDS);
    }

    /// Loads the log's k-th word for a write, by the number that it has among all. The pass has the
    /// writer in hand; the word's page is not written whole, and begins where all is known to be
    /// copied. The caller has taken the pass's table out of it.
    #[inline(always)]
    pub fn load_ring_word(&mut self, table: &LogTable<D>, k: u64, number: usize) -> u64
        requires table { table.now ≡ self.old.table.now }
        requires number { number ≡ word_of_step (view_of self.old) (load_ring_word k) }
        requires may { MayStep (view_of self.old) (load_ring_word k) }
        ensures steps { Steps (load_ring_word k) result self.old self.new }
    {
        self.loads_at::<Brand>(table, place_behind(number), one(k))
    }
}

// One number.
fn one(number: u64) -> Operands
    ensures { result ≡ record { first = number; second = 0 } }
{
    Operands {
        first: number,
        second: 0,
    }
}
