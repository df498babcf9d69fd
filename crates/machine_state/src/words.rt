ghost use Rattle.std.specs.Prelude.{◌≡◌, ◌+◌, ◌<◌, ◌≤◌, ◌^◌, [], length, set, IfOk};
ghost use Rattle.wal_page.specs.LogPlace.{IsPlace, new_place};
ghost use Rattle.machine_state.specs.Words.{Opening};
ghost use Rattle.machine_state.specs.Sound.{IsSetup};
ghost use Rattle.machine_state.specs.Opened.{AreFirstWords};
ghost use Rattle.machine_state.specs.FirstWords.{GoOnBehind, IsEndOf, IsLastPage};
ghost use Rattle.machine_state.specs.Numbers.{IsWord, number_of_word, word_named};

use crate::first::{LogEnd, set_first_words};
use crate::layout::{
    BUFFER_ENDS, DOWN, FLUSHED, INITIALISED_END, LAST_START, MAPPING_TURN, MOMENT, POSITION,
    WRITE_TURN, WRITTEN, async_number, number_of_lock,
};
use crate::setup::Setup;
use crate::word::Word;
use byte_position::{PAGE_SIZE, Page};
use std::alloc::{AllocError, Global};
use std::marker::Model;

/// The words that all backends share, as plain numbers; contracts see the list of them, and how
/// many pages the ring has.
#[derive(Debug, Drop)]
pub struct MachineWords {
    pages: u32,
    words: Vec<u64>,
}

impl Model for MachineWords {
    ghost use Rattle.std.specs.Prelude.{◌≡◌, ◌+◌, ◌*◌, ◌≤◌, length};
    ghost use Rattle.machine_state.specs.Words.{ends_number};
    ghost use Rattle.machine_state.specs.Numbers.{WordsState};

    ghost Value = { WordsState };

    ghost view = { λ w. record { pages = w.pages; words = w.words.items } };

    ghost invariant = { λ w.
        (w.pages ≤ 64) × (length w.words.items ≡ ends_number + w.pages + w.pages * 1024 + 1) };
}

impl MachineWords {
    /// The words of a log that holds nothing, whose ring holds the first pages, all zeros. `moment`
    /// is the disk's at the opening.
    pub fn first(alloc: Global, setup: Setup, moment: u64) -> Result<MachineWords, AllocError>
        requires { IsSetup setup }
        ensures pages { IfOk result (λ words. words.pages ≡ setup.ring_pages) }
        ensures first { (opening : Opening) → opening.setup ≡ setup → opening.moment ≡ moment
            → opening.place ≡ new_place setup.seg_size
            → IfOk result (λ words. AreFirstWords opening words.words) }
    {
        let end = LogEnd::first(setup.seg_size);
        let no_words = [0; PAGE_SIZE as usize];
        MachineWords::resume(alloc, setup, moment, end, &no_words)
    }

    /// The words of a log that is gone on with behind this end. `page` is the page in which it
    /// ends, of which the ring gets what is below the end: what stands behind it on the disk is
    /// not the log's. `moment` is the disk's at the opening.
    pub fn resume(
        alloc: Global,
        setup: Setup,
        moment: u64,
        end: LogEnd,
        page: &Page,
    ) -> Result<MachineWords, AllocError>
        requires setup { IsSetup setup }
        requires low { end.address < 2 ^ 44 }
        ensures pages { IfOk result (λ words. words.pages ≡ setup.ring_pages) }
        // For each log that was found so they are the words to begin with.
        ensures first { (opening : Opening) → opening.setup ≡ setup → opening.moment ≡ moment
            → IsPlace setup.seg_size opening.place → IsEndOf opening end
            → IsLastPage opening page.now
            → IfOk result (λ words. AreFirstWords opening words.words) }
    {
        let words = first_words(alloc, setup.ring_pages, moment, end, page)?;
        Ok(MachineWords {
            pages: setup.ring_pages,
            words,
        })
    }

    /// All words, in the machine's numbering.
    pub fn as_slice(&self) -> &[u64]
        ensures { result.now ≡ self.now.words }
    {
        &self.words
    }

    /// A word's number now.
    pub fn get(&self, word: Word) -> u64
        requires { IsWord self.now.pages word }
        ensures { result ≡ word_named self.now.pages self.now.words word }
    {
        self.words[self.number_of(word)]
    }

    /// Stores a number in a word.
    pub fn set(&mut self, word: Word, number: u64)
        requires { IsWord self.old.pages word }
        ensures { self.new ≡ record self.old {
          words = set self.old.words (number_of_word self.old.pages word) number;
        } }
    {
        let place = self.number_of(word);
        self.words[place] = number;
    }

    /// A word's number: where it stands in the list.
    pub fn number_of(&self, word: Word) -> usize
        requires { IsWord self.now.pages word }
        ensures value { result ≡ number_of_word self.now.pages word }
        ensures within { result < length self.now.words }
        ensures low { result < 2 ^ 17 }
    {
        let first_of_ring = BUFFER_ENDS + self.pages as usize;
        match word {
            Word::Position => POSITION,
            Word::LastStart => LAST_START,
            Word::Lock(lock) => number_of_lock(lock),
            Word::MappingTurn => MAPPING_TURN,
            Word::WriteTurn => WRITE_TURN,
            Word::InitialisedEnd => INITIALISED_END,
            Word::Written => WRITTEN,
            Word::Flushed => FLUSHED,
            Word::Moment => MOMENT,
            Word::Down => DOWN,
            Word::BufferEnd(buffer) => BUFFER_ENDS + buffer as usize,
            Word::Ring(place) => first_of_ring + place as usize,
            Word::Async => async_number(self.pages),
        }
    }
}

fn first_words(
    alloc: Global,
    ring_pages: u32,
    moment: u64,
    end: LogEnd,
    page: &Page,
) -> Result<Vec<u64>, AllocError>
    requires some { 1 ≤ ring_pages }
    requires few { ring_pages ≤ 64 }
    requires low { end.address < 2 ^ 44 }
    ensures { IfOk result (λ words. GoOnBehind ring_pages moment end page.now words.items) }
{
    let mut words = vec![in alloc; 0; async_number(ring_pages) + 1]?;
    set_first_words(&mut words, ring_pages, moment, end, page);
    Ok(words)
}
