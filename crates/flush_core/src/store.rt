// One page is stored, with the calls of its segment round it (PostgreSQL's xlog.c, XLogFileInit,
// XLogWrite, issue_xlog_fsync): its segment is made before where it is new, and synced behind where
// it is full. The first call that fails ends it: those before it were made, and none behind it
// (`BreaksOff`). The caller stops then, since what the disk holds is no longer known.
ghost use Rattle.std.specs.Prelude.{◌≡◌, ◌/◌, ◌%◌, ◌^◌, ◌<◌, OnErr, OnOk};
ghost use Rattle.byte_position.specs.Geometry.{pages_of};
ghost use Rattle.flush_core.specs.Calls.{AreMade, BreaksOff, store_calls};
ghost use Rattle.segment_disk.specs.Cause.{HasCause};

use byte_position::{Geometry, Page};
use segment_disk::{Disk, Failed};

/// A page's segment, and its number in it.
#[derive(Clone, Copy)]
pub(crate) struct PagePlace {
    pub segment: u64,
    pub page: u32,
}

/// The place of a page, by its number from the log's address 0.
pub(crate) fn place_of(geometry: Geometry, page: u64) -> PagePlace
    ensures segment { result.segment ≡ page / pages_of geometry }
    ensures page { result.page ≡ page % pages_of geometry }
    ensures within { result.page < pages_of geometry }
{
    let pages = u64::from(geometry.pages());
    PagePlace {
        segment: page / pages,
        page: (page % pages) as u32,
    }
}

/// Writes a page in place; makes its segment before where that is new, and syncs it behind where
/// that is full. At Ok just these calls were made; at Err a front of them, and the next one failed.
pub(crate) fn store_page<D: Disk>(
    disk: &mut D,
    geometry: Geometry,
    place: PagePlace,
    is_new: bool,
    is_full: bool,
    bytes: &Page,
) -> Result<(), Failed>
    requires segment { place.segment < 2 ^ 64 / geometry }
    requires page { place.page < pages_of geometry }
    ensures ok { OnOk result (AreMade (D.tape disk.old) (D.tape disk.new)
        (D.moment disk.old) (D.moment disk.new)
        (store_calls geometry place.segment place.page is_new is_full bytes.now)) }
    ensures err { OnErr result (BreaksOff (D.tape disk.old) (D.tape disk.new)
        (D.moment disk.old) (D.moment disk.new)
        (store_calls geometry place.segment place.page is_new is_full bytes.now)) }
    ensures cause { HasCause (D.faults disk.old) (D.faults disk.new) result }
{
    if is_new {
        disk.create(geometry, place.segment)?;
    }
    disk.write_page(geometry, place.segment, place.page, bytes)?;
    if is_full {
        disk.sync(geometry, place.segment)?;
    }
    Ok(())
}
