//! A log is sent as it is found on a disk that nobody writes (PostgreSQL's walsender.c,
//! XLogSendPhysical, which follows a log that goes on).

ghost use Rattle.wal_stream.specs.Sending.{HasSendCause, IsSending};

use crate::fault::SendErr;
use crate::frames::put_frames;
use crate::reading::read_list;
use crate::syncing::sync_log;
use byte_position::Geometry;
use segment_disk::{Disk, Sink};
use std::alloc::Global;
use wal_reader::ReadErr;
use wal_types::Lsn;

/// Sends the disk's log: a frame for each page from the one that holds `from` up to the end of the
/// last record, and answers how many. A `from` below the log's start counts as the start; from the
/// log's end on there is none.
///
/// The whole list is read first, whatever `from` is, and nothing is put unless it comes to a clean
/// end. Then each segment that is there is synced, so that no crash takes back what was sent.
///
/// PostgreSQL's XLogSendPhysical sends what its server has flushed, in messages of at most
/// MAX_SEND_SIZE bytes that end with a page, or where the flushed log ends; it reads the log's
/// bytes without decoding them, and waits for more. Here each frame is one page, pages behind a
/// segment switch are sent too (as they are read: zeros, or nothing there), and the sending ends.
///
/// The memory is the reader's; a page and a frame lie on the stack.
pub fn send<D: Disk, O: Sink>(
    alloc: Global,
    disk: &mut D,
    geometry: Geometry,
    from: Lsn,
    out: &mut O,
) -> Result<u64, SendErr>
    ensures sends { IsSending geometry from.0 (D.tape disk.old) (D.tape disk.new)
        (D.moment disk.old) (D.moment disk.new) (O.taken out.old) (O.taken out.new) result }
    ensures cause { HasSendCause (D.faults disk.old) (D.faults disk.new)
        (O.faults out.old) (O.faults out.new) result }
{
    let mut page = [0; 8192];
    let end = read_list(alloc, disk, geometry)?;
    let Ok(()) = sync_log(disk, geometry, &mut page) else {
        return Err(SendErr::Read(ReadErr::Disk {
            faults: disk.faults(),
        }));
    };
    let start = from.0.max(geometry.segment_size());
    put_frames(disk, geometry, Lsn(start), end, &mut page, out)
}
