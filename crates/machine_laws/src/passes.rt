//! Passes that come and go keep the invariant. No word changes by it; a number goes from one pass
//! to another, and what a pass holds that gives up stays with a view with which nobody steps.

ghost use Rattle.std.specs.Prelude.{ℕ};
ghost use Rattle.segment_disk.specs.Tape.{DiskState};
ghost use Rattle.machine_state.specs.Words.{Opening};
ghost use Rattle.machine_state.specs.Steps.{GivesUp, Joins, Splits, State};
ghost use Rattle.machine_state.specs.Sound.{IsSound};

/// A pass is split off another one, takes one in that is about nothing, or gives up its copy with
/// the locks under which it stands.
pub fn passes_keep_it_sound()
    ensures splits { (first : DiskState) (opening : Opening) (s t : State) (id : ℕ)
        → IsSound first opening s.words s.home s.views → Splits id s t
        → IsSound first opening t.words t.home t.views }
    ensures joins { (first : DiskState) (opening : Opening) (s t : State) (id : ℕ)
        → IsSound first opening s.words s.home s.views → (other : ℕ) → Joins id other s t
        → IsSound first opening t.words t.home t.views }
    ensures gives_up { (first : DiskState) (opening : Opening) (s t : State) (id : ℕ)
        → IsSound first opening s.words s.home s.views → GivesUp id s t
        → IsSound first opening t.words t.home t.views }
{}
