//! The words of the pages in the ring.

ghost use Rattle.std.specs.Prelude.{◌↔◌, Any, IsTrue};
ghost use Rattle.machine_tests.specs.Ring.{IsLoggedOrToCopy, IsToCopy, PageAgrees, RingAgrees};

use crate::moment::BackendNow;
use crate::words::word_at;
use byte_position::{PAGE_SIZE, PAGE_WORDS};
use machine_state::Setup;
use machine_state::layout::BUFFER_ENDS;
use machine_turns::PlainFlight;

pub(crate) fn ring_agrees(setup: Setup, words: &[u64], log: &[u64], backends: &[BackendNow]) -> bool
    ensures { IsTrue result ↔ RingAgrees setup words.now log.now backends.now }
{
    for buffer in 0..setup.ring_pages {
        if word_at(words, BUFFER_ENDS + buffer as usize) != 0
            && !page_agrees(setup, words, log, backends, buffer)
        {
            return false;
        }
    }
    true
}

fn page_agrees(
    setup: Setup,
    words: &[u64],
    log: &[u64],
    backends: &[BackendNow],
    buffer: u32,
) -> bool
    ensures { IsTrue result ↔ PageAgrees setup words.now log.now backends.now buffer }
{
    let begin = word_at(words, BUFFER_ENDS + buffer as usize).saturating_sub(PAGE_SIZE);
    let from = BUFFER_ENDS + setup.ring_pages as usize + buffer as usize * PAGE_WORDS as usize;
    for n in 0..1024 {
        let word = word_at(words, from + n);
        if !word_agrees(setup, log, backends, begin + 8 * n as u64, word) {
            return false;
        }
    }
    true
}

fn word_agrees(setup: Setup, log: &[u64], backends: &[BackendNow], address: u64, word: u64) -> bool
    ensures { IsTrue result ↔ IsLoggedOrToCopy setup log.now backends.now address word }
{
    word == word_at(log, (address.saturating_sub(setup.seg_size) / 8) as usize)
        || word == 0 && any_is_to_copy(address, backends)
}

fn any_is_to_copy(address: u64, backends: &[BackendNow]) -> bool
    ensures { IsTrue result ↔ Any (λ b. IsToCopy address b.view.flight) backends.now }
{
    backends.iter().any(|b| is_to_copy(address, b.view.flight))
}

fn is_to_copy(address: u64, flight: PlainFlight) -> bool
    ensures { IsTrue result ↔ IsToCopy address flight }
{
    match flight {
        PlainFlight::Landed => false,
        PlainFlight::Copying { next, end, .. } => next <= address && address < end,
    }
}
