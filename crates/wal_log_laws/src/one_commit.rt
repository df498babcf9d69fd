//! One record committed on an empty disk survives: a caller that meets the laws' premises.

ghost use Rattle.std.specs.Prelude.{◌≡◌, false, IfSome, Some, List};
ghost use Rattle.wal_spelling.specs.Spelling.{is_assembled_switch};
ghost use Rattle.segment_disk.specs.Tape.{Tape};
ghost use Rattle.flush_core.specs.Pages.{HoldsNothing};
ghost use Rattle.wal_page.specs.Order.{Entry, start_of, finish_of};
ghost use Rattle.wal_log_laws.specs.Surviving.{Survives};

use crate::laws::{
    closed_logs_are_closed_on_their_disk, logs_are_never_lost, logs_only_grow,
    sealed_records_survive,
};
use machine_state::Setup;
use segment_disk::Disk;
use std::alloc::Global;
use std::sync::Wait;
use wal_log::numbers::calls_keep_numbers;
use wal_log::{Closed, Wal};
use wal_rule::numbers::seats_keep_numbers;
use wal_spelling::Body;
use wal_types::Sealed;

/// Opens a log, commits a record, and closes it.
pub fn commit_one<D: Disk + Drop, R: Wait>(
    rt: &R,
    alloc: Global,
    disk: D,
    setup: Setup,
    body: &Body,
) -> Option<(Sealed, Closed<D>)>
    requires nothing { HoldsNothing (D.tape disk) }
    requires inserted { is_assembled_switch body.now ≡ false }
    ensures { IfSome result (λ r. (t : Tape) → D.tape r.1.disk ≡ Some t
        → (order : List Entry) × (e : Entry)
        × Survives setup.seg_size order t r.0.moment e
        × (r.0.start.0 ≡ start_of setup.seg_size e)
        × (r.0.end.0 ≡ finish_of setup.seg_size e)) }
{
    seats_keep_numbers();
    calls_keep_numbers();
    logs_are_never_lost();
    logs_only_grow::<D>();
    closed_logs_are_closed_on_their_disk::<D>();
    sealed_records_survive::<D>();
    match Wal::open(alloc, disk, setup) {
        Err(_) => None,
        Ok((log, mut pass)) => match log.commit(rt, &mut pass, body) {
            Err(_) => None,
            Ok(sealed) => {
                let closed = log.close(pass);
                Some((sealed, closed))
            }
        },
    }
}
