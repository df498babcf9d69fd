// The disk that a log calls. A call that changes it is queued, and answered Ok at once: so its tape
// has the calls queued, of which the host has made a front. What the log is told to be durable from
// a moment on is so on the host's disk once the host has made that many calls (progress.rt). Where
// there is no room, or a call of the host's has failed, nothing is queued, and the call fails
// without being counted. It is read from pages that the host handed in, as long as the calls that
// are queued leave them as they were.
ghost use Rattle.std.specs.Prelude.{◌≡◌, ℕ, Some, [], IfOk, IfSome, MatchResult, length, true};
ghost use Rattle.hosted_disk.specs.Untouched.{are_within};
ghost use Rattle.rtrb.specs.Ring.{sent};
ghost use Rattle.segment_disk.specs.Cause.{HasCause};
ghost use Rattle.segment_disk.specs.Tape.{Answers, IsPageRead, IsUncalled, create_call, page_of_segment, state_now, sync_call, write_call};

use crate::first_pages::FirstPages;
use crate::host_disk::HostDisk;
use crate::touched::Touched;
use crate::words::QueueWords;
use byte_position::{Geometry, Page};
use handed_pages::{HandedPage, PageNumber};
use rtrb::Producer;
use segment_disk::{Call, CallKind, Disk, Failed, PageBytes, count_fault};
use std::alloc::Global;
use std::sync::Arc;
use std::sync::atomic::Ordering;

/// A disk whose calls a host makes. A page is read as it was handed in, or as absent of a disk that
/// held nothing at first; where a call that is queued may have changed it, the read fails. One that
/// was not handed in is noted as wanted, and the read fails.
#[derive(Drop)]
pub struct HostedDisk {
    pub(crate) queue: Producer<Call>,
    pub(crate) words: Arc<QueueWords, Global>,
    pub(crate) first: FirstPages,
    pub(crate) wanted: Option<PageNumber>,
    pub(crate) touched: Touched,
    pub(crate) moment: u64,
    pub(crate) faults: u64,
    ghost counts: { moment ≡ length (sent queue) },
    ghost within: { are_within touched (sent queue) ≡ true },
}

impl HostedDisk {
    ghost use Rattle.handed_pages.specs.Handed.{has_pages, read_tape};
    ghost use Rattle.hosted_disk.specs.HostSegments.{host_state};
    ghost use Rattle.hosted_disk.specs.Hosted.{HasNoCalls, hosted_faults, hosted_moment, hosted_tape};

    /// The disk that the host has in its files, of which it hands in these pages: those that are to
    /// be read, and of others that they are not there. It was not called yet.
    pub fn over_pages<L: HostDisk>(self, pages: Vec<HandedPage>) -> HostedDisk
        requires { HasNoCalls self }
        // If the host's disk has these pages as they were handed in, its tape is told from then on.
        ensures tells { has_pages (host_state L.segments) pages.items ≡ true
            → hosted_tape result ≡ Some (read_tape (host_state L.segments)) }
        ensures uncalled { HasNoCalls result }
        ensures queue { result.queue ≡ self.queue }
    {
        let HostedDisk {
            queue,
            words,
            first: _,
            wanted: _,
            touched,
            moment,
            faults,
        } = self;
        HostedDisk {
            queue,
            words,
            first: FirstPages::by_pages::<L>(pages),
            wanted: None,
            touched,
            moment,
            faults,
        }
    }

    /// The page whose read failed last, since it was not handed in.
    pub fn wanted(&self) -> Option<PageNumber> {
        self.wanted
    }

    /// The pages that were handed in come back.
    pub fn into_pages(self) -> Vec<HandedPage> {
        let HostedDisk {
            queue: _,
            words: _,
            first,
            wanted: _,
            touched: _,
            moment: _,
            faults: _,
        } = self;
        first.into_pages()
    }

    // Lets the pages go that were handed in, once the host takes calls: the log is open then, and
    // reads nothing more.
    fn let_go(&mut self)
        ensures tape { hosted_tape self.new ≡ hosted_tape self.old }
        ensures queue { self.new.queue ≡ self.old.queue }
        ensures moment { self.new.moment ≡ self.old.moment }
        ensures faults { self.new.faults ≡ self.old.faults }
    {
        if self.words.taken.load(Ordering::SeqCst) == 0 {
            return;
        }
        self.first.let_go();
    }

    // Queues a call that is to be made as it says.
    fn queue_call(&mut self, call: Call) -> Result<(), Failed>
        requires { call.done ≡ true }
        ensures answers { Answers hosted_tape hosted_moment self.old self.new call result }
        ensures cause { HasCause (hosted_faults self.old) (hosted_faults self.new) result }
    {
        self.let_go();
        if self.moment == u64::MAX || self.words.failed.load(Ordering::SeqCst) != 0 {
            return Err(count_fault(&mut self.faults));
        }
        let touched = self.touched.with(&call);
        match self.queue.push(call) {
            Ok(()) => {
                self.touched = touched;
                self.moment += 1;
                self.words.queued.store(self.moment, Ordering::SeqCst);
                Ok(())
            }
            Err(_) => Err(count_fault(&mut self.faults)),
        }
    }
}

impl Disk for HostedDisk {
    ghost use Rattle.hosted_disk.specs.Hosted.{calls_queued, counts_calls, hosted_faults, hosted_moment, hosted_tape};

    ghost tape = { hosted_tape };

    ghost moment = { hosted_moment };

    ghost faults = { hosted_faults };

    ghost counts = { λ d. counts_calls ((d.first).held).segments (calls_queued d) };

    fn create(&mut self, geometry: Geometry, segment: u64) -> Result<(), Failed> {
        self.queue_call(Call {
            geometry,
            segment,
            kind: CallKind::Create { made: true },
            done: true,
        })
    }

    fn write_page(
        &mut self,
        geometry: Geometry,
        segment: u64,
        page: u32,
        bytes: &Page,
    ) -> Result<(), Failed> {
        let bytes = PageBytes { bytes: *bytes };
        self.queue_call(Call {
            geometry,
            segment,
            kind: CallKind::Write { page, bytes },
            done: true,
        })
    }

    fn sync(&mut self, geometry: Geometry, segment: u64) -> Result<(), Failed> {
        self.queue_call(Call {
            geometry,
            segment,
            kind: CallKind::Sync,
            done: true,
        })
    }

    fn read_page(
        &mut self,
        _geometry: Geometry,
        segment: u64,
        page: u32,
        bytes: &mut Page,
    ) -> Result<bool, Failed> {
        let number = PageNumber { segment, page };
        if !self.touched.leaves(number) {
            return Err(count_fault(&mut self.faults));
        }
        match self.first.read(number, bytes) {
            Some(there) => Ok(there),
            None => {
                self.wanted = Some(number);
                Err(count_fault(&mut self.faults))
            }
        }
    }

    fn moment(&self) -> u64 {
        self.moment
    }

    fn faults(&self) -> u64 {
        self.faults
    }
}
