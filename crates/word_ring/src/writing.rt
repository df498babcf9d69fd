// What is known to be copied is written out a page at a time (PostgreSQL's xlog.c, XLogWrite), with
// a writer in hand that has not failed. Pages are written in rising order, from the one that holds
// the next byte to be written on, the last one as it stands; so one address tells all that is
// written. For each page in this order: writes to another segment are synced, its own segment is
// made unless it is there, its words are loaded, it is written, and behind a segment's last page
// that segment is synced (`next_call` of flush_core). So at most one segment waits for a sync. A
// call that fails is the last.
ghost use Rattle.std.specs.Prelude.{◌≡◌, ◌+◌, ◌*◌, ◌/◌, ◌<◌, ◌≤◌, nat_lt};
ghost use mathlib.Core.Option.{some};
ghost use Rattle.byte_position.specs.Geometry.{pages_of};
ghost use Rattle.flush_core.specs.Calls.{make_calls, calls_before, calls_behind, waiting_calls};
ghost use Rattle.word_ring.specs.InHand.{CallsEnd, IsReady, known_copied, writer_in};
ghost use Rattle.word_ring.specs.MadeCalls.{calls_to_put_page};
ghost use Rattle.word_ring.specs.Written.{WaitsForNoOther, IsPageWritten, IsSegmentThere, IsSettledBehind, LeavesAlone, IsSegmentSynced};
ghost use Rattle.wal_rule.specs.SeatedPasses.{setup_of, view_of};

use crate::calling::{create_segment, put_page, sync_segment};
use crate::loading::load_page;
use crate::reading::writer_now;
use byte_position::{PAGE_SIZE, Page};
use flush_core::{DiskFault, next_behind, next_call};
use segment_disk::Disk;
use wal_rule::SeatedPass;

/// Writes the page under way by way of `bytes`, up to its end or to what is known to be copied. It
/// holds the next byte to be written, which is known to be copied. Its segment is made before the
/// first page there, and synced behind the last. At a fault the writer keeps its count, and no
/// further call is made.
pub fn write_next<'p, D: Disk>(
    seated: &mut SeatedPass<'p, D>,
    known: u64,
    page: u64,
    bytes: &mut Page,
) -> Result<(), DiskFault>
    requires ready { IsReady D.tape D.moment D.faults seated.old }
    requires known { known ≡ known_copied (view_of seated.old) }
    requires page { page ≡ (writer_in (view_of seated.old)).written / 8192 }
    requires left { (writer_in (view_of seated.old)).written < known }
    // The device is called just as `calls_to_put_page` lists it, up to a call that fails. However
    // that ends the writer stays in hand, and nothing else of the view has changed but what is
    // loaded.
    ensures ends { CallsEnd D.tape D.moment D.faults
        (IsPageWritten (setup_of seated.old).seg_size known)
        (calls_to_put_page (setup_of seated.old).seg_size known page bytes.new
        (writer_in (view_of seated.old))) result seated.old seated.new }
{
    let shape = seated.shape();
    let pages = u64::from(shape.geometry().pages());
    let segment = page / pages;
    settle_before(seated, segment)?;
    make_segment(seated, segment)?;
    load_page(seated, page, bytes);
    let upto = known.min((page + 1) * PAGE_SIZE);
    put_page(seated, segment, (page % pages) as u32, upto, bytes)?;
    settle_behind(seated, page, upto)
}

// Syncs what waits, unless it is this segment, which is there. Behind it no write to another one
// waits.
fn settle_before<'p, D: Disk>(seated: &mut SeatedPass<'p, D>, segment: u64) -> Result<(), DiskFault>
    requires ready { IsReady D.tape D.moment D.faults seated.old }
    ensures ends { CallsEnd D.tape D.moment D.faults (LeavesAlone segment)
        (calls_before (setup_of seated.old).seg_size (writer_in (view_of seated.old)).made
        (writer_in (view_of seated.old)).waiting segment) result seated.old seated.new }
{
    let now = writer_now(seated);
    match next_call(now.made, now.waiting, segment).to_sync() {
        Some(other) => sync_segment(seated, other),
        None => Ok(()),
    }
}

// Syncs the segment of a page that was written up to an address, where it ends there.
fn settle_behind<'p, D: Disk>(
    seated: &mut SeatedPass<'p, D>,
    page: u64,
    upto: u64,
) -> Result<(), DiskFault>
    requires ready { IsReady D.tape D.moment D.faults seated.old }
    requires waits { (writer_in (view_of seated.old)).waiting
        ≡ some (page / pages_of (setup_of seated.old).seg_size) }
    requires begun { page * 8192 < upto }
    requires within { upto ≤ (page + 1) * 8192 }
    ensures ends { CallsEnd D.tape D.moment D.faults
        (IsSettledBehind (setup_of seated.old).seg_size upto)
        (calls_behind (setup_of seated.old).seg_size page upto) result seated.old seated.new }
{
    let geometry = seated.shape().geometry();
    match next_behind(geometry, page, upto).to_sync() {
        Some(segment) => sync_segment(seated, segment),
        None => Ok(()),
    }
}

// Makes the segment where the next byte is to be written, unless it is there. It is at most the one
// behind the last that was made, and no write to another one waits for a sync.
fn make_segment<'p, D: Disk>(seated: &mut SeatedPass<'p, D>, segment: u64) -> Result<(), DiskFault>
    requires ready { IsReady D.tape D.moment D.faults seated.old }
    requires here { segment * (setup_of seated.old).seg_size
        ≤ (writer_in (view_of seated.old)).written }
    requires next { segment ≤ (writer_in (view_of seated.old)).made + 1 }
    requires left { (writer_in (view_of seated.old)).written < known_copied (view_of seated.old) }
    requires alone { WaitsForNoOther segment (writer_in (view_of seated.old)) }
    ensures ends { CallsEnd D.tape D.moment D.faults (IsSegmentThere segment)
        (make_calls (setup_of seated.old).seg_size segment
        (nat_lt (writer_in (view_of seated.old)).made segment)) result seated.old seated.new }
{
    let now = writer_now(seated);
    if !next_call(now.made, now.waiting, segment).creates() {
        return Ok(());
    }
    create_segment(seated, segment)
}

/// Makes the writes that wait for it durable, by one call or none: they are all of one segment.
pub fn sync_written<'p, D: Disk>(seated: &mut SeatedPass<'p, D>) -> Result<(), DiskFault>
    requires ready { IsReady D.tape D.moment D.faults seated.old }
    ensures ends { CallsEnd D.tape D.moment D.faults IsSegmentSynced
        (waiting_calls (setup_of seated.old).seg_size (writer_in (view_of seated.old)).waiting)
        result seated.old seated.new }
{
    match writer_now(seated).waiting {
        Some(segment) => sync_segment(seated, segment),
        None => Ok(()),
    }
}
