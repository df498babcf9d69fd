// A standby of a log: it takes the log's frames, whatever their link did to them, and writes their
// pages in the protocol of `Disk` (PostgreSQL's walreceiver.c, XLogWalRcvWrite and
// XLogWalRcvFlush, which trust the connection). A frame changes it only where it goes on at the
// standby's end, and then by just the calls of `Writer`; so the standby's log is at every moment a
// front of the one that was sent.
ghost use Rattle.std.specs.Prelude.{◌≡◌, ◌≢◌, ◌+◌, ◌*◌, ◌/◌, ◌%◌, ◌^◌, ◌<◌, ◌≤◌, IfErr, IfNone, IfOk, IfSome, IsTrue, ◌↔◌, None, false};
ghost use Rattle.byte_position.specs.Geometry.{pages_of};
ghost use Rattle.segment_disk.specs.DiskImage.{word_of};
ghost use Rattle.flush_core.specs.Settled.{IsAmong};
ghost use Rattle.flush_core.specs.Pages.{PutPages};
ghost use Rattle.flush_core.specs.Writer.{HoldsLogPages, is_unsynced, last_made};
ghost use Rattle.wal_reader.specs.Pages.{IsPage};
ghost use Rattle.wal_stream.specs.Frame.{SentPage};
ghost use Rattle.wal_stream.specs.Standby.{AgreeUpto, AnswersFrame, Brings, DifferFirstAt, HardensNot, HasHardenedLog, HasResumed, own_page, standby_disk, standby_end, standby_fault};

use super::Standby;
use crate::answers::{Accepted, StandbyErr};
use crate::framing::FramedPage;
use byte_position::{Geometry, PAGE_SIZE, Page, WORD};
use flush_core::Writer;
use segment_disk::Disk;
use wal_types::Lsn;

impl<D: Disk> Standby<D> {
    // A standby that has the log up to `end`, all of it durable, in the segments from 1 to `made`.
    // `page` is the one in which it ends.
    pub(super) fn resume(
        disk: D,
        geometry: Geometry,
        cap: u32,
        end: Lsn,
        made: u64,
        page: Box<Page>,
    ) -> Standby<D>
        ensures disk { standby_disk result ≡ disk }
        ensures end { standby_end result ≡ end.0 }
        ensures made { last_made result.writer ≡ made }
        ensures page { own_page result ≡ page.value }
        ensures whole { IsPage (own_page result) }
        ensures synced { is_unsynced result.writer ≡ false }
        ensures up { standby_fault result ≡ None }
        ensures size { result.geometry ≡ geometry }
        ensures cap { result.cap ≡ cap }
        // On a disk that holds just these pages of the log, all of them durable.
        ensures holds { (pages : PutPages)
            → HoldsLogPages geometry end.0 made (D.tape disk) pages
            → HasResumed D.tape D.moment disk end.0 pages result }
    {
        look_at(&page);
        Standby {
            writer: Writer::resume(disk, geometry, end, made),
            geometry,
            cap,
            page,
        }
    }

    /// Up to where it has the log, durable or not.
    pub fn upto(&self) -> Lsn
        ensures { result.0 ≡ standby_end self.now }
    {
        self.writer.written()
    }

    /// Gives the disk back, without a device call: what was taken since the last `harden` may still
    /// wait for a sync.
    pub fn close(self) -> D
        ensures { result ≡ standby_disk self }
    {
        self.writer.into_disk()
    }

    /// Takes a frame if it goes on at the standby's end. Whatever a link did to the frames of a
    /// log, a frame that is answered otherwise changes nothing.
    pub fn accept(&mut self, bytes: &[u8]) -> Result<Accepted, StandbyErr>
        ensures { AnswersFrame D.tape D.moment D.faults self.old self.new bytes.now result }
    {
        if let Some(faults) = self.writer.fault() {
            return Err(StandbyErr::Disk { faults });
        }
        let Some(sent) = self.brought(bytes) else {
            return Err(StandbyErr::Bad);
        };
        let end = self.upto();
        let upto = sent.upto();
        if upto.0 <= end.0 {
            return Ok(Accepted::Old { upto });
        }
        if sent.page() != end.0 / PAGE_SIZE {
            return Err(StandbyErr::Gap { at: end });
        }
        if let Some(at) = first_difference(end, sent.page(), sent.bytes(), &self.page) {
            return Err(StandbyErr::Diverged { at });
        }
        match self.writer.put_page(sent.page(), upto, sent.bytes()) {
            Ok(()) => {
                *self.page = *sent.bytes();
                Ok(Accepted::Taken { upto })
            }
            Err(fault) => Err(StandbyErr::Disk {
                faults: fault.faults,
            }),
        }
    }

    /// Makes durable what was taken, and answers up to where. Only then may the primary be told.
    pub fn harden(&mut self) -> Result<Lsn, StandbyErr>
        ensures done { IfOk result (λ upto.
            HasHardenedLog D.tape D.moment D.faults self.old self.new upto.0) }
        ensures failed { IfErr result (λ e.
            HardensNot D.tape D.moment D.faults self.old self.new e) }
    {
        let end = self.upto();
        match self.writer.harden(end) {
            Ok(_) => Ok(end),
            Err(fault) => Err(StandbyErr::Disk {
                faults: fault.faults,
            }),
        }
    }

    // The page that a frame brings, if it is one of this standby's segments.
    fn brought<'a>(&self, bytes: &'a [u8]) -> Option<FramedPage<'a>>
        ensures brings { IfSome result (λ sent. Brings self.now bytes.now sent) }
        ensures none { IfNone result ((sent : SentPage) → Brings self.now bytes.now sent → ⊥) }
    {
        let sent = FramedPage::read(self.geometry, bytes)?;
        if !is_among(self.cap, sent.page() / u64::from(self.geometry.pages())) {
            return None;
        }
        Some(sent)
    }
}

// Looks at a page, which has 8,192 bytes by its type: whoever hands it on knows that then.
fn look_at(page: &Page)
    ensures { IsPage page.now }
{
    let _first = page[..8].first();
}

// Whether a segment is one of those from 1 to the last.
fn is_among(last: u32, segment: u64) -> bool
    ensures { IsTrue result ↔ IsAmong last segment }
{
    1 <= segment && segment <= u64::from(last)
}

// Where the first word stands, below an address, in which two pages of a number differ.
fn first_difference(end: Lsn, page: u64, one: &Page, other: &Page) -> Option<Lsn>
    requires { page ≡ end.0 / 8192 }
    ensures differs { IfSome result (λ at. DifferFirstAt end.0 page one.now other.now at.0) }
    ensures agree { IfNone result (AgreeUpto end.0 page one.now other.now) }
{
    let start = page * PAGE_SIZE;
    let below = (end.0 - start + (WORD - 1)) / WORD;
    for word in 0..below {
        if word_at(one, word as usize) != word_at(other, word as usize) {
            return Some(Lsn(start + WORD * word));
        }
    }
    None
}

fn word_at(page: &Page, word: usize) -> &[u8; 8]
    requires { word < 1024 }
    ensures { result.now ≡ word_of page.now word }
{
    match page[8 * word..].first_chunk::<8>() {
        Some(bytes) => bytes,
        None => unreachable!(),
    }
}
