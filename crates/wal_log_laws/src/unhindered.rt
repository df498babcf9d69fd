//! What a pass may count on that has all numbers of its log, as the first one has until it splits
//! another one off, and again once all are taken in: the calls that do not wait find nobody in
//! their way. Proved by functions that do nothing.

ghost use Rattle.std.specs.Prelude.{◌≡◌, ℕ, Result};
ghost use Rattle.wal_spelling.specs.Spelling.{Assembled};
ghost use Rattle.wal_page.specs.Placed.{PlacedState};
ghost use Rattle.wal_types.specs.declared.answers.Hard.{Hard};
ghost use Rattle.machine_state.specs.declared.setup.Setup.{Setup};
ghost use Rattle.machine_state.specs.Opened.{first_view};
ghost use Rattle.machine_state.specs.Steps.{IsResting};
ghost use Rattle.machine_state.specs.Views.{Away, View};
ghost use Rattle.machine_state.specs.Words.{Opening};
ghost use Rattle.wal_rule.specs.declared.pass.Pass.{Pass};
ghost use Rattle.wal_log.specs.Copying.{CopiesFront};
ghost use Rattle.wal_log.specs.Flights.{AnswersTryBegin};
ghost use Rattle.wal_log.specs.Flushing.{AnswersFlushTry};
ghost use Rattle.wal_log.specs.Standing.{KeepsPass};
ghost use Rattle.wal_log.specs.declared.beginning.TryErr.{TryErr};
ghost use Rattle.wal_log.specs.declared.copying.Copied.{Copied};
ghost use Rattle.wal_log.specs.declared.flushing.TryFlushErr.{TryFlushErr};
ghost use Rattle.wal_log.specs.declared.in_flight.Inflight.{Inflight};
ghost use Rattle.wal_log.specs.declared.wal.Wal.{Wal};
ghost use Rattle.wal_log_laws.specs.Unhindered.{BeginsUnhindered, FlushesUnhindered, IsLonePass, StopsUnhindered};

use segment_disk::Disk;
use wal_log::numbers::calls_keep_numbers;

/// The first pass is alone until it splits another one off, since no call takes a number from it.
pub fn first_passes_are_alone()
    ensures first { (opening : Opening) → IsLonePass (first_view opening) }
    ensures calls { (old new : View) → KeepsPass old new → IsLonePass old → IsLonePass new }
{
    calls_keep_numbers();
}

/// Such a pass is not told Busy or AllHeld by `try_begin`, Behind or Turn by `try_flush`, nor a
/// turn that is taken by `copy`: neither before a failed disk, nor behind one that it was not told
/// of yet.
pub fn lone_passes_are_not_held_up<D: Disk>()
    ensures begins { (wal : Wal D) (body : Assembled) (old : View)
        (answer : Result Inflight (TryErr × Pass)) → IsLonePass old
        → AnswersTryBegin wal body old answer → BeginsUnhindered answer }
    ensures flushes { (asked : ℕ) (old new : View) (answer : Result Hard TryFlushErr)
        → IsLonePass old → KeepsPass old new → IsResting new
        → AnswersFlushTry asked old answer new → FlushesUnhindered answer }
    ensures copies { (setup : Setup) (most : ℕ) (placed next : PlacedState) (old new : View)
        (copied : Copied) → IsLonePass old → KeepsPass old new → (new.mapping).stage ≡ Away
        → CopiesFront setup most placed next old new copied → StopsUnhindered copied.stop }
{
    calls_keep_numbers();
}
