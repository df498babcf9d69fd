//! The written and flushed ends.

ghost use Rattle.std.specs.Prelude.{◌↔◌, All, IsTrue};
ghost use Rattle.machine_tests.specs.Positions.{HasCopiedBelow, PositionsAgree};

use crate::moment::BackendNow;
use crate::words::word_at;
use machine_state::layout::{FLUSHED, WRITTEN};
use machine_turns::PlainFlight;

pub(crate) fn positions_agree(
    first: u64,
    words: &[u64],
    log: &[u64],
    backends: &[BackendNow],
) -> bool
    ensures { IsTrue result ↔ PositionsAgree first words.now log.now backends.now }
{
    let written = word_at(words, WRITTEN);
    let flushed = word_at(words, FLUSHED);
    first <= flushed
        && flushed <= written
        && written.saturating_sub(first).div_ceil(8) <= log.len() as u64
        && have_copied_below(written, backends)
}

fn have_copied_below(address: u64, backends: &[BackendNow]) -> bool
    ensures { IsTrue result ↔ All (λ b. HasCopiedBelow address b.view.flight) backends.now }
{
    backends
        .iter()
        .all(|b| has_copied_below(address, b.view.flight))
}

fn has_copied_below(address: u64, flight: PlainFlight) -> bool
    ensures { IsTrue result ↔ HasCopiedBelow address flight }
{
    match flight {
        PlainFlight::Landed => true,
        PlainFlight::Copying { next, end, .. } => next >= end || address <= next,
    }
}
