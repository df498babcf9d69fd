//! Who holds the insertion locks.

ghost use Rattle.std.specs.Prelude.{◌≡◌, ◌↔◌, ◌<◌, IsTrue, ◌==◌, if◌then◌else◌};
ghost use Rattle.machine_state.specs.Words.{lock_word};
ghost use Rattle.machine_tests.specs.Locks.{LocksAgree, held_by, is_lock};

use crate::moment::BackendNow;
use crate::words::word_at;
use machine_state::layout::number_of_lock;

pub(crate) fn locks_agree(words: &[u64], backends: &[BackendNow]) -> bool
    ensures { IsTrue result ↔ LocksAgree words.now backends.now }
{
    for lock in 0..8 {
        let holders = if word_at(words, number_of_lock(lock)) == 0 {
            0
        } else {
            1
        };
        if held_by(lock, backends) != holders {
            return false;
        }
    }
    true
}

fn held_by(lock: u32, backends: &[BackendNow]) -> usize
    ensures { result ≡ held_by lock backends.now }
{
    backends.iter().filter(|b| is_lock(lock, b.lock)).count()
}

fn is_lock(lock: u32, has: Option<u32>) -> bool
    ensures { result ≡ is_lock lock has }
{
    match has {
        Some(other) => other == lock,
        None => false,
    }
}
