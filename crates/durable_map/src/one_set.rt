//! What was set in one life of a map is in it in the next one: a caller that meets the premises of
//! the law over all lives.

ghost use Rattle.std.specs.Prelude.{IfSome, IsSome};
ghost use Rattle.flush_core.specs.Pages.{HoldsNothing};
ghost use Rattle.durable_map.specs.OneSet.{FindsSet};

use crate::laws::answered_changes_stay;
use crate::store::DurableMap;
use segment_disk::Disk;
use std::alloc::Global;
use std::sync::Wait;
use wal_log::Setup;
use wal_log_laws::promised_records_stay;

/// Opens a map on a disk that holds nothing, sets a key, closes the map, and opens it again.
pub fn set_and_reopen<D: Disk + Drop, R: Wait>(
    rt: &R,
    alloc: Global,
    disk: D,
    setup: Setup,
    key: &[u8],
    value: Vec<u8>,
) -> Option<DurableMap<D>>
    requires nothing { HoldsNothing (D.tape disk) }
    requires tells { IsSome (D.tape disk) }
    ensures { IfSome result
        (FindsSet D.tape D.moment D.faults setup key.now value.items) }
{
    answered_changes_stay::<D>();
    promised_records_stay::<D>();
    match DurableMap::open(alloc, disk, setup) {
        Err(_) => None,
        Ok(mut map) => match map.set(rt, key, value) {
            Err(_) => None,
            Ok(sealed) => {
                let _sealed = sealed;
                let closed = map.close();
                match DurableMap::open(alloc, closed.disk, setup) {
                    Err(_) => None,
                    Ok(again) => Some(again),
                }
            }
        },
    }
}
