// The turn to map a page, and its steps (PostgreSQL's xlog.c, AdvanceXLInsertBuffer, which holds
// WALBufMappingLock). Who has the turn loads the initialised end, which is where the new page
// begins, and then the written address (`load_written`). Only where the page that the buffer holds
// ends at or below it, that page's end word is cleared; then the buffer's words are zeroed, the new
// page's end word is stored, and behind it the initialised end. So no word is lost that is not
// written, and nobody stores into the buffer while its end word is 0. Before the end word is
// cleared the turn may be given back, and behind the last store, but not between. As each step
// (quiet.rt) these are made by a seated pass whose view lets it step.
ghost use Rattle.std.specs.Prelude.{◌≡◌, ◌<◌};
ghost use Rattle.machine_state.specs.Steps.{clear_end, load_initialised_end, publish_end, publish_initialised_end, release_mapping_turn, take_mapping_turn, zero_ring_word, MayStep, value_behind, word_of_step};
ghost use Rattle.wal_rule.specs.Stepping.{Meets};
ghost use Rattle.wal_rule.specs.SeatedPasses.{Steps, view_of};

use crate::memory::{INITIALISED_END_PLACE, MAPPING_TURN_PLACE, place_behind};
use crate::plays::OfKind;
use crate::quiet::NO_OPERANDS;
use crate::seated::SeatedPass;
use crate::table::LogTable;
use segment_disk::Disk;

pub struct TakesMappingTurn;

impl OfKind for TakesMappingTurn {
    ghost kind = { take_mapping_turn };
}

pub struct LoadsInitialisedEnd;

impl OfKind for LoadsInitialisedEnd {
    ghost kind = { load_initialised_end };
}

pub struct ClearsEnd;

impl OfKind for ClearsEnd {
    ghost kind = { clear_end };
}

pub struct ZeroesRingWord;

impl OfKind for ZeroesRingWord {
    ghost kind = { zero_ring_word };
}

pub struct PublishesEnd;

impl OfKind for PublishesEnd {
    ghost kind = { publish_end };
}

pub struct PublishesInitialisedEnd;

impl OfKind for PublishesInitialisedEnd {
    ghost kind = { publish_initialised_end };
}

pub struct ReleasesMappingTurn;

impl OfKind for ReleasesMappingTurn {
    ghost kind = { release_mapping_turn };
}

impl<'a, D: Disk> SeatedPass<'a, D> {
    /// Takes the turn to map a page where it is free, which is where the word found is 0. The pass
    /// does not have it, and stores one more than its pass's number.
    pub fn take_mapping_turn(&mut self) -> u64
        requires may { MayStep (view_of self.old) take_mapping_turn }
        ensures steps { Steps take_mapping_turn result self.old self.new }
        ensures met { Meets (view_of self.old) take_mapping_turn result }
    {
        self.exchanges::<TakesMappingTurn>(
            MAPPING_TURN_PLACE,
            0,
            u64::from(self.number) + 1,
            NO_OPERANDS,
        )
    }

    /// The address below which each page has been mapped. Anybody may load it; to who has just
    /// taken the turn it says where the page begins that is to be mapped.
    pub fn load_initialised_end(&mut self) -> u64
        ensures steps { Steps load_initialised_end result self.old self.new }
        ensures met { Meets (view_of self.old) load_initialised_end result }
    {
        self.loads::<LoadsInitialisedEnd>(INITIALISED_END_PLACE, NO_OPERANDS)
    }

    /// Clears the end word of the page's buffer, by its number among all words: the page that it
    /// held is given up. What the pass has loaded as written reaches that page's end. From now on
    /// the turn is not given back until the new page is there.
    pub fn clear_end(&mut self, end: usize)
        requires end { end ≡ word_of_step (view_of self.old) clear_end }
        requires may { MayStep (view_of self.old) clear_end }
        ensures steps { Steps clear_end 0 self.old self.new }
    {
        self.stores::<ClearsEnd>(place_behind(end), 0, NO_OPERANDS);
    }

    /// Zeroes the page's next word, by its number among all words. The caller has taken the pass's
    /// table out of it, so that a run of stores looks it up once.
    #[inline(always)]
    pub fn zero_ring_word(&mut self, table: &LogTable<D>, number: usize)
        requires table { table.now ≡ self.old.table.now }
        requires number { number ≡ word_of_step (view_of self.old) zero_ring_word }
        requires may { MayStep (view_of self.old) zero_ring_word }
        ensures steps { Steps zero_ring_word 0 self.old self.new }
    {
        self.stores_at::<ZeroesRingWord>(table, place_behind(number), 0, NO_OPERANDS);
    }

    /// Stores the page's end, by the number of its buffer's end word: from now on the page is
    /// there, and copies that meet its end may store their words on it. All its words are zeroed.
    pub fn publish_end(&mut self, end: usize, page_end: u64)
        requires end { end ≡ word_of_step (view_of self.old) publish_end }
        requires may { MayStep (view_of self.old) publish_end }
        requires value { page_end ≡ value_behind (view_of self.old) publish_end 0 }
        ensures steps { Steps publish_end 0 self.old self.new }
    {
        self.stores::<PublishesEnd>(place_behind(end), page_end, NO_OPERANDS);
    }

    /// Stores that all below the page's end has been mapped, behind its end word: so who loads the
    /// initialised end finds the pages below it, as far as they are not given up.
    pub fn publish_initialised_end(&mut self, page_end: u64)
        requires may { MayStep (view_of self.old) publish_initialised_end }
        requires value { page_end ≡ value_behind (view_of self.old) publish_initialised_end 0 }
        ensures steps { Steps publish_initialised_end 0 self.old self.new }
    {
        self.stores::<PublishesInitialisedEnd>(INITIALISED_END_PLACE, page_end, NO_OPERANDS);
    }

    /// Gives the turn to map back, before anything was changed or once the page is there.
    pub fn release_mapping_turn(&mut self)
        requires may { MayStep (view_of self.old) release_mapping_turn }
        ensures steps { Steps release_mapping_turn 0 self.old self.new }
    {
        self.stores::<ReleasesMappingTurn>(MAPPING_TURN_PLACE, 0, NO_OPERANDS);
    }
}
