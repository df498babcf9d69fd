//! How what lines are told follows what was told before; proved by functions that do nothing.

ghost use Rattle.std.specs.Prelude.{ℕ, List};
ghost use Rattle.run_script.specs.Asked.{AskedLine};
ghost use Rattle.run_laws.specs.declared.told.Told.{Told};
ghost use Rattle.run_laws.specs.CatchingUp.{EachCatchesUp};
ghost use Rattle.run_laws.specs.Moments.{EachRises};
ghost use Rattle.machine_state.specs.Words.{Opening};
ghost use Rattle.machine_state.specs.Views.{View};
ghost use Rattle.machine_laws.specs.RisingMoments.{LogsRise, promised_of};
ghost use Rattle.run_laws.specs.Ended.{HasTakenIn};
ghost use Rattle.run_laws.specs.Latest.{NoneIsLater};

/// The moments that a backend is told never fall from the opening's on, and none is later than the
/// disk's last. A commit's is later than each that the backend was told before it, and so is a
/// flush's where the backend wrote a record since, but for a flush behind.
pub fn told_moments_rise()
    ensures rise { (opening : Opening) (v : View) (script : List (List AskedLine))
        (lists : List (List Told)) → HasTakenIn opening v script lists
        → LogsRise opening (promised_of v) → (last : ℕ) → NoneIsLater opening last v
        → EachRises opening.moment script lists last }
{}

/// A flush behind tells no less than each address that a receipt or a flush told its backend to be
/// durable before; if it found nothing to do, no less than the end of each commit of the backend
/// that was answered ahead.
pub fn flushes_behind_catch_up()
    ensures catch_up { (opening : Opening) (v : View) (script : List (List AskedLine))
        (lists : List (List Told)) → HasTakenIn opening v script lists
        → EachCatchesUp script lists }
{}
