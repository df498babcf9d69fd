//! Which pages the ring has.

ghost use Rattle.std.specs.Prelude.{◌≡◌, ◌↔◌, ◌+◌, ◌*◌, ◌%◌, ℕ, ◌<◌, ◌≤◌, Any, IsTrue};
ghost use Rattle.machine_state.specs.Words.{end_word, initialised_word, written_word};
ghost use Rattle.machine_tests.specs.Pages.{ArePresent, HasPublished, IsEndIn, IsInitialisedEnd, PagesAgree, highest_end};

use crate::moment::BackendNow;
use crate::words::word_at;
use byte_position::PAGE_SIZE;
use machine_state::Setup;
use machine_state::layout::{BUFFER_ENDS, INITIALISED_END, WRITTEN};
use machine_turns::PlainStage;

pub(crate) fn pages_agree(setup: Setup, words: &[u64], backends: &[BackendNow]) -> bool
    requires { 0 < setup.ring_pages }
    ensures { IsTrue result ↔ PagesAgree setup words.now backends.now }
{
    are_ends(setup, words)
        && are_present(
            setup,
            word_at(words, WRITTEN),
            word_at(words, INITIALISED_END),
            words,
        )
        && is_initialised_end(
            word_at(words, INITIALISED_END),
            highest_end(words, setup.ring_pages),
            backends,
        )
}

// Each buffer holds nothing, or a page that belongs in it.
fn are_ends(setup: Setup, words: &[u64]) -> bool
    requires { 0 < setup.ring_pages }
    ensures { IsTrue result ↔ ((buffer : ℕ) → buffer < setup.ring_pages
        → IsEndIn setup buffer (end_word words.now buffer)) }
{
    for buffer in 0..setup.ring_pages {
        if !is_end_in(setup, buffer, word_at(words, BUFFER_ENDS + buffer as usize)) {
            return false;
        }
    }
    true
}

fn is_end_in(setup: Setup, buffer: u32, end: u64) -> bool
    requires { 0 < setup.ring_pages }
    ensures { IsTrue result ↔ IsEndIn setup buffer end }
{
    end == 0
        || end % PAGE_SIZE == 0
            && setup.seg_size < end
            && (end / PAGE_SIZE).saturating_sub(1) % u64::from(setup.ring_pages)
                == u64::from(buffer)
}

// Each page that ends behind what is written, and was mapped, is there.
fn are_present(setup: Setup, written: u64, initialised: u64, words: &[u64]) -> bool
    requires { 0 < setup.ring_pages }
    ensures { IsTrue result ↔ ArePresent setup written initialised words.now }
{
    for page in written / PAGE_SIZE..initialised / PAGE_SIZE {
        let buffer = (page % u64::from(setup.ring_pages)) as usize;
        if word_at(words, BUFFER_ENDS + buffer) != (page + 1) * PAGE_SIZE {
            return false;
        }
    }
    true
}

fn highest_end(words: &[u64], pages: u32) -> u64
    ensures { result ≡ highest_end words.now pages }
{
    let mut highest = 0;
    for buffer in 0..pages {
        highest = word_at(words, BUFFER_ENDS + buffer as usize).max(highest);
    }
    highest
}

fn is_initialised_end(initialised: u64, highest: u64, backends: &[BackendNow]) -> bool
    ensures { IsTrue result ↔ IsInitialisedEnd initialised highest backends.now }
{
    initialised == highest
        || highest >= PAGE_SIZE
            && highest - PAGE_SIZE == initialised
            && any_has_published(initialised, backends)
}

fn any_has_published(address: u64, backends: &[BackendNow]) -> bool
    ensures { IsTrue result ↔ Any (λ b. HasPublished address b.view.stage) backends.now }
{
    backends
        .iter()
        .any(|b| has_published(address, b.view.stage))
}

fn has_published(address: u64, stage: PlainStage) -> bool
    ensures { IsTrue result ↔ HasPublished address stage }
{
    match stage {
        PlainStage::Published { at } => at == address,
        PlainStage::Away
        | PlainStage::Taken
        | PlainStage::Looked { .. }
        | PlainStage::Ready { .. }
        | PlainStage::Zeroing { .. } => false,
    }
}
