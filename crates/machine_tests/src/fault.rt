//! What is wrong with a moment.

ghost use Rattle.std.specs.Prelude.{◌↔◌, IsTrue, MatchOption};
ghost use Rattle.machine_state.specs.Sound.{IsSetup};
ghost use Rattle.machine_tests.specs.declared.moment.Part.{Part};
ghost use Rattle.machine_tests.specs.Agreeing.{Agrees};

use crate::locks::locks_agree;
use crate::moment::{MachineNow, Part};
use crate::order::order_agrees;
use crate::pages::pages_agree;
use crate::positions::positions_agree;
use crate::progress::progress_agrees;
use crate::ring::ring_agrees;
use crate::turn_words::turns_agree;

/// The first part that does not agree with the records and the backends; `None` where all do.
pub fn fault_of(moment: &MachineNow) -> Option<Part>
    requires { IsSetup moment.now.setup }
    ensures { MatchOption result ((part : Part) → Agrees moment.now part)
        (λ part. Agrees moment.now part → ⊥) }
{
    if !agrees(moment, Part::Order) {
        return Some(Part::Order);
    }
    if !agrees(moment, Part::Locks) {
        return Some(Part::Locks);
    }
    if !agrees(moment, Part::Turns) {
        return Some(Part::Turns);
    }
    if !agrees(moment, Part::Progress) {
        return Some(Part::Progress);
    }
    if !agrees(moment, Part::Ring) {
        return Some(Part::Ring);
    }
    if !agrees(moment, Part::Pages) {
        return Some(Part::Pages);
    }
    if !agrees(moment, Part::Positions) {
        return Some(Part::Positions);
    }
    None
}

/// Whether a part agrees with the records and the backends.
pub fn agrees(moment: &MachineNow, part: Part) -> bool
    requires { IsSetup moment.now.setup }
    ensures { IsTrue result ↔ Agrees moment.now part }
{
    let MachineNow {
        setup,
        words,
        order,
        log,
        backends,
    } = *moment;
    match part {
        Part::Order => order_agrees(setup, words, order, backends),
        Part::Locks => locks_agree(words, backends),
        Part::Turns => turns_agree(words, backends),
        Part::Progress => progress_agrees(words, backends),
        Part::Ring => ring_agrees(setup, words, log, backends),
        Part::Pages => pages_agree(setup, words, backends),
        Part::Positions => positions_agree(setup.seg_size, words, log, backends),
    }
}
