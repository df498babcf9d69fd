//! Where reading begins (PostgreSQL's XLogFindNextRecord of xlogreader.c). A record that continues
//! into the page is passed over, by as many bytes as the page says are still to come; each page on
//! the way has passed its own checks. The first record behind it is read without knowing the start
//! of the one before.

ghost use Rattle.std.specs.Prelude.{◌≡◌, ℕ, ◌+◌, ◌-◌, ◌*◌, ◌/◌, ◌%◌, ◌<◌, ◌≤◌, ◌^◌, ◌==◌, if◌then◌else◌, Some, IfOk, IfSome, OnOk, Result};
ghost use Rattle.byte_position.specs.Position.{position_of};
ghost use Rattle.wal_reader.specs.declared.record_place.RecordPlace.{RecordPlace};
ghost use Rattle.wal_reader.specs.PageCursor.{Sees};
ghost use Rattle.wal_reader.specs.Decodes.{begin_in, beginning, ended};
ghost use Rattle.wal_reader.specs.declared.found.Answer.{Answer};
ghost use Rattle.wal_reader.specs.Beginning.{IsBegun, IsReachableFront, goes_on};
ghost use Rattle.wal_reader.specs.Pages.{Pages};
ghost use Rattle.wal_reader.specs.ReadFailures.{HasFailureCause};
ghost use Rattle.wal_reader.specs.ReadsOn.{ReadsOn};
ghost use Rattle.wal_reader.specs.RecordPlace.{IsReachable};

use crate::found::Answer;
use crate::page_cache::PageCache;
use crate::page_checks::{check_held, header_len};
use crate::read_failure::ReadFailure;
use crate::record_place::RecordPlace;
use crate::record_start::is_zero_word;
use byte_position::{Geometry, PAGE_SIZE};
use segment_disk::Disk;
use wal_page::PageInfo;
use wal_types::Lsn;

/// Where reading begins on a page.
#[derive(Clone, Copy, Debug)]
pub(crate) enum Front {
    /// The first record may start here.
    Here(RecordPlace),
    /// The record that continues into the page fills it, so that the next one is to be looked at.
    Filled { timeline: u32 },
}

/// Where reading begins that looks for a start address: on the page that holds it, behind the
/// record that continues there.
#[inline(never)]
pub(crate) fn find_beginning<D: Disk>(
    cache: &mut PageCache,
    disk: &mut D,
    start: Lsn,
) -> Result<RecordPlace, ReadFailure>
    // At Ok a record may start at the place, which is the one that these pages give for this start.
    ensures reachable { IfOk result IsReachable }
    ensures unread { 2 ^ 60 ≤ start.0 → (disk.new ≡ disk.old) × OnOk result ⊥ }
    ensures begins { (pages : Pages) → Sees (D.tape disk.old) cache.old pages
        → IsBegun (beginning cache.old.geometry pages start.0) result }

    ensures reads_on { ReadsOn D.tape D.moment disk.old disk.new cache.old cache.new }
    ensures cause { HasFailureCause (D.faults disk.old) (D.faults disk.new) result }
{
    let mut page = start.0 / PAGE_SIZE;
    let mut timeline = 0;
    'pages: while cache.load(disk, page)? {
        match front_of(cache, page, timeline) {
            Ok(Front::Here(place)) => return Ok(place),
            Ok(Front::Filled { timeline: told }) => timeline = told,
            Err(answer) => return Err(ReadFailure::Told(answer)),
        }
        page += 1;
    }
    Err(ReadFailure::Told(page_end(cache, page)))
}

// The log ends where a page would start.
fn page_end(cache: &PageCache, page: u64) -> Answer
    requires { page * 8192 < 2 ^ 64 }
    ensures { result ≡ ended cache.now.geometry (position_of cache.now.geometry (page * 8192)) }
{
    Answer::End {
        at: Lsn(page * PAGE_SIZE),
    }
}

// Where reading begins on the page that is held; `timeline` is that of the page before.
fn front_of(cache: &PageCache, page: u64, timeline: u32) -> Result<Front, Answer>
    requires { page < 2 ^ 47 }
    ensures begins { (next : ℕ → ℕ → Result RecordPlace Answer)
        → begin_in next cache.now.geometry page timeline (Some cache.now.bytes.value)
        ≡ goes_on next page result }
    ensures reachable { IfOk result IsReachableFront }
{
    if is_zero_word(cache, 0) {
        return Err(page_end(cache, page));
    }
    let info = check_held(cache, page, timeline)?;
    let skipped = skipped_bytes(&info);
    if skipped >= PAGE_SIZE - u64::from(header_len(cache, page)) {
        return Ok(Front::Filled {
            timeline: info.timeline,
        });
    }
    Ok(Front::Here(RecordPlace {
        position: first_position(cache.geometry, page) + skipped,
        prev: None,
        timeline: info.timeline,
    }))
}

// What a record that continues into a page takes up there, if it ends on that page.
fn skipped_bytes(info: &PageInfo) -> u64
    ensures { result ≡ (if info.now.info % 2 == 1 then (info.now.rem_len + 7) / 8 * 8 else 0) }
{
    if info.is_continued() {
        (u64::from(info.rem_len) + 7) / 8 * 8
    } else {
        0
    }
}

// The byte position of a page's first byte behind its header.
fn first_position(geometry: Geometry, page: u64) -> u64
    requires { page < 2 ^ 47 }
    ensures { result ≡ position_of geometry (page * 8192) }
{
    // A page's start stands for its first byte behind the header.
    match geometry.of_lsn(Lsn(page * PAGE_SIZE)) {
        Some(position) => position,
        None => unreachable!(),
    }
}
