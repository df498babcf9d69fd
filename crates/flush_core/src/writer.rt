// The writer of a log's pages on any disk (PostgreSQL's xlog.c, XLogWrite). Who calls it has the
// writer, and so the disk, for itself: nothing is shared here. It puts the page under way, the same
// one again as it fills, then the next one; a page that was hardened it puts again only with the
// same words below that position. Each call makes the calls of the disk that its clauses list, and
// no others. Behind a fault none is made: what the disk holds is no longer known, and nothing is
// left to the caller but to take the disk back.
ghost use Rattle.std.specs.Prelude.{◌≡◌, ℕ, ◌+◌, ◌*◌, ◌/◌, ◌%◌, ◌<◌, ◌≤◌, false, max, not, ◌==◌, OnOk, IfOk, IfErr, MatchResult};
ghost use Rattle.flush_core.specs.Left.{first_puts, no_puts};
ghost use Rattle.flush_core.specs.Pages.{HoldsNothing, PutPages, no_pages};
ghost use Rattle.flush_core.specs.Puts.{HasHardened, HasNotPut, HasPutPage, IsAsWritten, IsUnderWay, Keeps, KeepsBehindPut};
ghost use Rattle.flush_core.specs.Writer.{HoldsLogPages, HoldsOnly, IsKept, IsMadeAsWritten, IsWriter, TellsFault, calls_to_harden, disk_of, last_made, writer_fault, is_unsynced, writer_segment_size, written_of};

use crate::protocol::{next_behind, next_call};
use crate::store::{place_of, store_page};
use byte_position::{Geometry, Page};
use segment_disk::Disk;
use wal_types::Lsn;

/// The disk failed: its count of faults then.
#[derive(Clone, Copy, Debug, PartialEq, Eq)]
pub struct DiskFault {
    pub faults: u64,
}

/// A log's pages on a disk (PostgreSQL's `XLogWrite` of xlog.c), in the protocol of `Disk`: a
/// segment is made before its first page is written, its pages are written in place and in order,
/// the last one again as it fills, and it is synced as soon as all of it is written, or on demand
/// (`harden`). As long as its caller puts a page that was hardened only with the same words below
/// the hardened position, a crash after any call leaves these, and of all else only words that were
/// put, or zeros.
///
/// Once the disk has failed no further device call is made, and the same fault is told again: a
/// sync behind one that failed would say nothing of the writes before it.
#[derive(Drop)]
pub struct Writer<D> {
    disk: D,
    geometry: Geometry,
    /// Up to where the log is written.
    written: Lsn,
    /// The last segment that is made, 0 where none is.
    made: u64,
    /// Whether a write waits for a sync: only in the segment of the written position, since full
    /// ones are synced.
    unsynced: bool,
    /// The disk's count of faults when it failed.
    fault: Option<u64>,
}

impl<D: Disk> Writer<D> {
    /// A writer of a new log, which begins with segment 1. It makes no device call.
    pub fn new(disk: D, geometry: Geometry) -> Writer<D>
        // Nothing is written, made or waits for a sync.
        ensures disk { disk_of result ≡ disk }
        ensures size { writer_segment_size result ≡ geometry }
        ensures written { written_of result ≡ geometry }
        ensures made { last_made result ≡ 0 }
        ensures synced { is_unsynced result ≡ false }
        ensures up { writer_fault result ≡ None }
        ensures as_written { IsMadeAsWritten result }
        // On a disk that holds nothing no page has been put, and no word of one is there.
        ensures holds { HoldsNothing (D.tape disk) → IsWriter D.tape result no_pages }
        ensures only { HoldsNothing (D.tape disk)
            → HoldsOnly D.tape result (D.moment disk) no_puts }
    {
        Writer {
            disk,
            geometry,
            written: Lsn(geometry.segment_size()),
            made: 0,
            unsynced: false,
            fault: None,
        }
    }

    /// A writer of a log that is there already: all below `written` is written and durable, in the
    /// segments from 1 to `made`. It makes no device call.
    pub fn resume(disk: D, geometry: Geometry, written: Lsn, made: u64) -> Writer<D>
        // All that is there is written, and nothing waits for a sync.
        ensures disk { disk_of result ≡ disk }
        ensures size { writer_segment_size result ≡ geometry }
        ensures written { written_of result ≡ written.0 }
        ensures made { last_made result ≡ made }
        ensures synced { is_unsynced result ≡ false }
        ensures up { writer_fault result ≡ None }
        // On a disk that holds just these pages of the log, all of them durable, they count as put,
        // and as hardened from the disk's moment on.
        ensures holds { (pages : PutPages)
            → HoldsLogPages geometry written.0 made (D.tape disk) pages
            → IsWriter D.tape result pages }
        ensures kept { (pages : PutPages)
            → HoldsLogPages geometry written.0 made (D.tape disk) pages
            → IsKept D.tape result (D.moment disk) written.0 pages }
        ensures only { (pages : PutPages)
            → HoldsLogPages geometry written.0 made (D.tape disk) pages
            → HoldsOnly D.tape result (D.moment disk) (first_puts pages) }
    {
        Writer {
            disk,
            geometry,
            written,
            made,
            unsynced: false,
            fault: None,
        }
    }

    pub fn into_disk(self) -> D
        ensures { result ≡ disk_of self }
    {
        self.disk
    }

    pub fn disk(&self) -> &D
        ensures { result.now ≡ disk_of self.now }
    {
        &self.disk
    }

    /// Up to where the log is written.
    pub fn written(&self) -> Lsn
        ensures { result.0 ≡ written_of self.now }
    {
        self.written
    }

    /// The disk's moment.
    pub fn moment(&self) -> u64
        ensures { result ≡ D.moment (disk_of self.now) }
    {
        self.disk.moment()
    }

    /// The disk's count of faults when it failed.
    pub fn fault(&self) -> Option<u64>
        ensures { result ≡ writer_fault self.now }
    {
        self.fault
    }

    /// Writes a page, which is whole up to a position, in place: the page of the written position,
    /// by its number from the log's address 0. It is durable only after `harden`, or where its
    /// segment ends with it.
    pub fn put_page(&mut self, page: u64, upto: Lsn, bytes: &Page) -> Result<(), DiskFault>
        requires { IsUnderWay (written_of self.old) page upto.0 }
        ensures done { OnOk result (HasPutPage D.tape D.moment D.faults self.old self.new
            page upto.0 bytes.now) }
        ensures failed { IfErr result (λ e. HasNotPut D.tape D.moment D.faults self.old self.new
            e.faults page upto.0 bytes.now) }
        // However it ends.
        ensures keeps { KeepsBehindPut D.tape self.old self.new page bytes.now }
        ensures size { writer_segment_size self.new ≡ writer_segment_size self.old }
        ensures moment_never_falls { D.moment (disk_of self.old) ≤ D.moment (disk_of self.new) }
    {
        self.check()?;
        let geometry = self.geometry;
        let place = place_of(geometry, page);
        // What waits is of the page's own segment, so no sync comes before.
        let is_new = next_call(self.made, None, place.segment).creates();
        let made = self.made.max(place.segment);
        let is_full = next_behind(geometry, page, upto.0).to_sync().is_some();
        match store_page(&mut self.disk, geometry, place, is_new, is_full, bytes) {
            Ok(()) => {
                self.written = upto;
                self.made = made;
                self.unsynced = !is_full;
                Ok(())
            }
            Err(_) => Err(self.fail()),
        }
    }

    /// Makes durable what is written, and answers the disk's moment, from which on it is. It asks
    /// for a position that is written.
    pub fn harden(&mut self, upto: Lsn) -> Result<u64, DiskFault>
        requires { upto.0 ≤ written_of self.old }
        ensures done { IfOk result (λ moment. HasHardened D.tape D.moment D.faults
            self.old self.new moment upto.0) }
        // At Err the sync failed, or the disk had failed before.
        ensures failed { IfErr result (λ e. TellsFault D.tape D.moment D.faults self.old self.new
            e.faults (calls_to_harden self.old)) }
        // Where nothing waits for a sync nothing is touched.
        ensures same { is_unsynced self.old ≡ false → self.new ≡ self.old }
        // However it ends.
        ensures keeps { Keeps D.tape self.old self.new }
        ensures as_written { IsAsWritten self.old self.new }
        ensures moment_never_falls { D.moment (disk_of self.old) ≤ D.moment (disk_of self.new) }
    {
        prove!(upto.0 <= self.written.0);
        self.check()?;
        if self.unsynced {
            let segment = self.written.0 / self.geometry.segment_size();
            match self.disk.sync(self.geometry, segment) {
                Ok(()) => self.unsynced = false,
                Err(_) => return Err(self.fail()),
            }
        }
        Ok(self.disk.moment())
    }

    // The fault again, where the disk has failed.
    fn check(&self) -> Result<(), DiskFault>
        ensures { MatchResult result (λ _. self.now.fault ≡ None)
            (λ e. self.now.fault ≡ Some e.faults) }
    {
        match self.fault {
            None => Ok(()),
            Some(faults) => Err(DiskFault { faults }),
        }
    }

    // Keeps the disk's count of faults, which is told from now on.
    fn fail(&mut self) -> DiskFault
        ensures told { result.faults ≡ D.faults self.old.disk }
        ensures kept { self.new ≡ record self.old { fault = Some result.faults } }
    {
        let faults = self.disk.faults();
        self.fault = Some(faults);
        DiskFault { faults }
    }
}
