//! Which numbers a pass has behind a call, so that its caller knows when it has all of them: with
//! these no other pass is left, and the log may be closed.

ghost use Rattle.wal_rule.specs.Closing.{KeepsNumbers};
ghost use Rattle.machine_state.specs.Views.{View};
ghost use Rattle.wal_log.specs.Standing.{KeepsPass};

/// A call that leaves of a pass what `KeepsPass` says takes no number away.
pub fn calls_keep_numbers()
    ensures { (old new : View) → KeepsPass old new → KeepsNumbers old new }
{}
