//! Which numbers a seat has, so that its caller knows when it has all of them: what `close` asks
//! for. Numbers are passed on by splits and joins alone, and are never made or lost.

ghost use Rattle.std.specs.Prelude.{◌⊎◌, ℕ};
ghost use mathlib.Core.Option.{Option};
ghost use Rattle.machine_state.specs.Words.{Opening};
ghost use Rattle.machine_state.specs.Views.{Plain, View};
ghost use Rattle.machine_state.specs.Steps.{StepKind, IsResting, view_behind};
ghost use Rattle.machine_laws.specs.SharedOrders.{HasNumber, IsSpare};
ghost use Rattle.machine_laws.specs.ClosedLogs.{HasAllNumbers};
ghost use Rattle.wal_rule.specs.Closing.{KeepsNumbers};
ghost use Rattle.machine_state.specs.Opened.{first_view};
ghost use Rattle.machine_state.specs.Moves.{after_join, after_split, split_off};

/// A table's first seat is about nothing and has all numbers. No step takes one away; behind a
/// split one of both seats has each; and a seat that takes another one in has the numbers of both,
/// where not both have some to give away.
pub fn seats_keep_numbers()
    ensures first { (opening : Opening) → IsResting (first_view opening)
        × HasAllNumbers (opening.setup).passes (first_view opening).reserving }
    ensures steps { (v : View) (e : StepKind) (met : ℕ) (home : Option Plain)
        → KeepsNumbers v (view_behind v e met home) }
    ensures split { (n : ℕ) (v : View) → HasNumber n v.reserving
        → HasNumber n (after_split v).reserving ⊎ HasNumber n (split_off v).reserving }
    ensures join { (n : ℕ) (v w : View)
        → ((i j : ℕ) → IsSpare i v.reserving → IsSpare j w.reserving → ⊥)
        → HasNumber n v.reserving ⊎ HasNumber n w.reserving
        → HasNumber n (after_join v w).reserving }
{}
