//! Who has the turn to map a page, and who has the turn to write.

ghost use Rattle.std.specs.Prelude.{◌≡◌, ◌↔◌, ◌+◌, All, IsTrue, true, ◌==◌, if◌then◌else◌};
ghost use Rattle.machine_tests.specs.Turns.{TurnAgrees, TurnsAgree, maps, writes};

use crate::moment::BackendNow;
use crate::words::word_at;
use machine_state::layout::{MAPPING_TURN, WRITE_TURN};
use machine_turns::{PlainHold, PlainStage};

pub(crate) fn turns_agree(words: &[u64], backends: &[BackendNow]) -> bool
    ensures { IsTrue result ↔ TurnsAgree words.now backends.now }
{
    mapping_agrees(word_at(words, MAPPING_TURN), backends)
        && writing_agrees(word_at(words, WRITE_TURN), backends)
}

fn mapping_agrees(turn: u64, backends: &[BackendNow]) -> bool
    ensures { IsTrue result ↔ TurnAgrees turn (λ b. maps b.view.stage) backends.now }
{
    let holders = backends.iter().filter(|b| maps(b.view.stage)).count();
    holders == (if turn == 0 { 0 } else { 1 })
        && backends.iter().all(|b| !maps(b.view.stage) || turn == u64::from(b.view.number) + 1)
}

fn writing_agrees(turn: u64, backends: &[BackendNow]) -> bool
    ensures { IsTrue result ↔ TurnAgrees turn (λ b. writes b.view.hold) backends.now }
{
    let holders = backends.iter().filter(|b| writes(b.view.hold)).count();
    holders == (if turn == 0 { 0 } else { 1 })
        && backends.iter().all(|b| !writes(b.view.hold) || turn == u64::from(b.view.number) + 1)
}

fn maps(stage: PlainStage) -> bool
    ensures { result ≡ maps stage }
{
    match stage {
        PlainStage::Away => false,
        PlainStage::Taken
        | PlainStage::Looked { .. }
        | PlainStage::Ready { .. }
        | PlainStage::Zeroing { .. }
        | PlainStage::Published { .. } => true,
    }
}

fn writes(hold: PlainHold) -> bool
    ensures { result ≡ writes hold }
{
    match hold {
        PlainHold::Idle => false,
        PlainHold::Turned | PlainHold::Out { .. } => true,
    }
}
