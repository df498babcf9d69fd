// What is read may come from the system's memory, and not be on the disk yet; what is sent has to
// be there. PostgreSQL's XLogSendPhysical sends up to GetFlushRecPtr, what its own process flushed;
// here no process that writes is known, so each segment is synced.
ghost use Rattle.std.specs.Prelude.{OnErr, OnOk};
ghost use Rattle.segment_disk.specs.Cause.{HasCause};
ghost use Rattle.wal_stream.specs.Synced.{HasNotSynced, HasSynced};

use byte_position::{Geometry, Page};
use flush_core::{count_segments, sync_first};
use segment_disk::{Disk, Failed};

/// Syncs each segment that is there, from 1 up to the first that is not. `page` is room for a page.
pub(crate) fn sync_log<D: Disk>(
    disk: &mut D,
    geometry: Geometry,
    page: &mut Page,
) -> Result<(), Failed>
    ensures synced { OnOk result (HasSynced geometry (D.tape disk.old) (D.tape disk.new)
        (D.moment disk.old) (D.moment disk.new)) }
    ensures failed { OnErr result (HasNotSynced geometry (D.tape disk.old) (D.tape disk.new)
        (D.moment disk.old) (D.moment disk.new)) }
    ensures cause { HasCause (D.faults disk.old) (D.faults disk.new) result }
{
    let count = count_segments(disk, geometry, page)?;
    sync_first(disk, geometry, count)
}
