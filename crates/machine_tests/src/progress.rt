//! What the locks tell of copies.

ghost use Rattle.std.specs.Prelude.{◌↔◌, ◌≤◌, ◌+◌, IsTrue};
ghost use Rattle.machine_tests.specs.Progress.{ProgressAgrees, TellsAtMost, most_of};

use crate::moment::BackendNow;
use crate::words::word_at;
use machine_state::layout::number_of_lock;
use machine_turns::PlainFlight;

pub(crate) fn progress_agrees(words: &[u64], backends: &[BackendNow]) -> bool
    ensures { IsTrue result ↔ ProgressAgrees words.now backends.now }
{
    backends
        .iter()
        .all(|b| tells_at_most(words, b.lock, b.view.flight))
}

fn tells_at_most(words: &[u64], lock: Option<u32>, flight: PlainFlight) -> bool
    ensures { IsTrue result ↔ TellsAtMost words.now lock (most_of flight) }
{
    match lock {
        Some(lock) => is_at_most(word_at(words, number_of_lock(lock)), flight),
        None => true,
    }
}

fn is_at_most(word: u64, flight: PlainFlight) -> bool
    ensures { IsTrue result ↔ word ≤ most_of flight }
{
    match flight {
        PlainFlight::Landed => word <= 1,
        PlainFlight::Copying { next, .. } => word.saturating_sub(1) <= next,
    }
}
