//! What two lanes of a map changed in one life of it is in it in the next one: a caller that meets
//! the premises of the law over all lives, for lanes.

ghost use Rattle.std.specs.Prelude.{◌≡◌, All, IfSome, IsSome, IsSomeAnd, IsTrue};
ghost use Rattle.flush_core.specs.Pages.{HoldsNothing};
ghost use Rattle.durable_map.specs.Asked.{IsAnsweredOk};
ghost use Rattle.durable_map.specs.Sharing.{IsUnasked, IsSharedMap, lanes_of};
ghost use Rattle.durable_map.specs.TwoLanes.{FindsBoth, MadeByTwo};

use crate::asked::{MapCall, MapTold};
use crate::laws::{answered_changes_stay, logs_weave_lanes};
use crate::sharing::SharedMap;
use crate::store::DurableMap;
use segment_disk::Disk;
use std::alloc::Global;
use std::sync::Wait;
use std::thread::Threads;
use wal_log::Setup;
use wal_log_laws::promised_records_stay;

/// Opens a map on a disk that holds nothing, has two lanes of it make a change each, closes the
/// map, and opens it again. None if the calls are the same lane's, or one is not answered Ok.
pub fn share_and_reopen<D: Disk + Drop + Send, R: Threads + Wait + Sync>(
    rt: &R,
    alloc: Global,
    disk: D,
    setup: Setup,
    one: MapCall,
    other: MapCall,
) -> Option<DurableMap<D>>
    requires nothing { HoldsNothing (D.tape disk) }
    requires tells { IsSome (D.tape disk) }
    ensures { IfSome result (FindsBoth D.tape D.moment D.faults setup one other) }
{
    answered_changes_stay::<D>();
    promised_records_stay::<D>();
    logs_weave_lanes::<D>();
    match DurableMap::open(alloc, disk, setup) {
        Err(_) => None,
        Ok(map) => match map.share(2) {
            Err(_) => None,
            Ok(mut shared) => {
                if !make_both(rt, &mut shared, one, other) {
                    return None;
                }
                let closed = shared.close();
                match DurableMap::open(alloc, closed.disk, setup) {
                    Err(_) => None,
                    Ok(again) => Some(again),
                }
            }
        },
    }
}

// Has two lanes make a call each. Whether both are changes that are answered Ok.
fn make_both<D: Disk + Send, R: Threads + Wait + Sync>(
    rt: &R,
    shared: &mut SharedMap<D>,
    one: MapCall,
    other: MapCall,
) -> bool
    requires kept { IsSharedMap shared.old }
    requires idle { All IsUnasked (lanes_of shared.old) }
    ensures kept { IsSharedMap shared.new }
    ensures log { shared.new.log ≡ shared.old.log }
    ensures made { IsTrue result → MadeByTwo shared.old.log one other (lanes_of shared.old)
        (lanes_of shared.new) }
{
    let Ok(first) = shared.ask(one) else {
        return false;
    };
    let Ok(second) = shared.ask(other) else {
        return false;
    };
    if first == second {
        return false;
    }
    shared.work(rt);
    let told = shared.told(first);
    let told_other = shared.told(second);
    is_answered_ok(&told) && is_answered_ok(&told_other)
}

fn is_answered_ok(told: &Option<MapTold>) -> bool
    ensures { IsTrue result → IsSomeAnd told.now IsAnsweredOk }
{
    match told {
        Some(MapTold::Changed(Ok(_))) => true,
        _ => false,
    }
}
