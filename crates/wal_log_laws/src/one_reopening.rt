//! One record that was committed is found where its log is reopened: a caller that meets the
//! theorem's premises.

ghost use Rattle.std.specs.Prelude.{◌≡◌, false, IfSome, IsSome};
ghost use Rattle.wal_spelling.specs.Spelling.{is_assembled_switch};
ghost use Rattle.flush_core.specs.Pages.{HoldsNothing};
ghost use Rattle.wal_log_laws.specs.Reopened.{FindsCommit};

use crate::laws::logs_are_never_lost;
use machine_state::Setup;
use segment_disk::Disk;
use std::alloc::Global;
use std::sync::Wait;
use wal_log::numbers::calls_keep_numbers;
use wal_log::{Found, Wal};
use wal_rule::Pass;
use wal_rule::numbers::seats_keep_numbers;
use wal_spelling::Body;
use wal_types::Sealed;

/// Opens a log, commits a record, closes the log, and reopens it.
pub fn commit_and_reopen<D: Disk + Drop, R: Wait>(
    rt: &R,
    alloc: Global,
    disk: D,
    setup: Setup,
    body: &Body,
) -> Option<(Sealed, Wal<D>, Pass, Found)>
    requires nothing { HoldsNothing (D.tape disk) }
    requires tells { IsSome (D.tape disk) }
    requires inserted { is_assembled_switch body.now ≡ false }
    ensures { IfSome result
        (λ r. FindsCommit D.tape D.moment D.faults setup body.now r.1 r.2 r.3 r.0) }
{
    seats_keep_numbers();
    calls_keep_numbers();
    logs_are_never_lost();
    match Wal::open(alloc, disk, setup) {
        Err(_) => None,
        Ok((log, mut pass)) => match log.commit(rt, &mut pass, body) {
            Err(_) => None,
            Ok(sealed) => {
                let closed = log.close(pass);
                match Wal::reopen(alloc, closed.disk, setup) {
                    Err(_) => None,
                    Ok((again, first, found)) => Some((sealed, again, first, found)),
                }
            }
        },
    }
}
