ghost use Rattle.std.specs.Prelude.{ℕ, List};
ghost use Rattle.wal_page.specs.Order.{Entry};
ghost use Rattle.backend_cli.specs.Setups.{system_id};
ghost use Rattle.standby_laws.specs.History.{Closed, Lived};
ghost use Rattle.log_lives_laws.specs.Receives.{HistoryGoesOn, IsReceiveCall, ReceiveCall, ThreeGoOn, ThreeReceives};

use segment_disk::{Disk, Sink};

/// A law: each call of `receive` is a part of a standby's history, by what `pgwal` promises of it
/// alone: behind any history of the disk it goes on with what was found and told.
pub fn receives_are_lived<D: Disk, O: Sink>()
    ensures { (size since : ℕ) (es : List Entry) (told : List (ℕ × ℕ)) (disk disk_now : D)
        (call : ReceiveCall O)
        → IsReceiveCall D.tape D.moment D.faults O.taken O.faults size es disk disk_now call
        → Lived D.tape D.moment D.faults size system_id es since told (Closed disk)
        → HistoryGoesOn D.tape D.moment D.faults O.taken O.faults size es since told disk_now call }
{}

/// A caller of the law with three calls, a kill behind the first one and a crash behind the second.
pub fn three_receives_keep_all<D: Disk, O: Sink>()
    ensures { (size : ℕ) (es : List Entry) (begun first killed second left third : D)
        (one two three : ReceiveCall O) (killed_at crashed_at : ℕ)
        → ThreeReceives D.tape D.moment D.faults O.taken O.faults size es begun first killed second
        left third one two three killed_at crashed_at
        → ThreeGoOn D.tape D.moment D.faults O.taken O.faults size es begun first killed second
        left third one two three killed_at crashed_at }
{}
