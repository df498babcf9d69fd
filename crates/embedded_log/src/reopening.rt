// A log is gone on with that the host has in its files, or begun where there is none. What is read
// of it the host hands in before; the calls that settle it are queued, as those of a flush.
ghost use Rattle.std.specs.Prelude.{◌≡◌, ◌<◌, [], false, IfErr, IfOk};
ghost use Rattle.hosted_disk.specs.Hosted.{calls_taken, has_failed};
ghost use Rattle.embedded_log.specs.Reopened.{ReopensWithHost, SaysReopenStop, IsStopOf};

use crate::opening::{calls_of_flush, first_session};
use crate::session::LogSession;
use handed_pages::{HandedPage, PageNumber};
use hosted_disk::{HostCalls, HostDisk, HostProgress, HostedDisk, hosted_disk};
use std::alloc::Global;
use std::sync::atomic::Rule;
use wal_log::{Found, OpenFault, OpenFaultKind, Setup, Wal};

/// Why a log was not gone on with.
#[derive(Clone, Copy, Debug, PartialEq, Eq)]
pub enum ReopenStop {
    /// A setup of fewer than two passes: a session has two.
    Passes,
    Memory,
    /// This page has to be handed in, or that the disk has none such.
    Wants(PageNumber),
    /// The queue has too little room for the calls that settle the log.
    Room,
    /// As `Wal::reopen` tells it.
    Refused(OpenFaultKind),
}

/// .. and the pages that were handed in. Behind `Memory` they may be gone.
#[derive(Drop)]
pub struct ReopenRefusal {
    pub why: ReopenStop,
    pub pages: Vec<HandedPage>,
}

/// Opens the log that the host has in its files, as `Wal::reopen` does, with its first session, and
/// what the host has of its disk: a queue with room for so many calls, or as many as one flush may
/// add.
///
/// `pages` are those that the host has read of its files, best in order: all of the log, page 0 of
/// the first segment that is not there, and of the one behind the last that the log may have. A
/// page that is wanted and was not handed in is told by its number: then nothing is queued, and the
/// call may be made again with it. The room that is needed for what settles the log, each segment's
/// syncs and each page that a crash left behind its end, only the log knows: at `Room` it may be
/// made again with more.
pub fn reopen<H: Rule, L: HostDisk>(
    alloc: Global,
    setup: Setup,
    calls: usize,
    pages: Vec<HandedPage>,
) -> Result<(LogSession<H>, HostCalls<H>, Found), ReopenRefusal>
    requires { H.invariant 0 }
    ensures reopened { IfOk result (λ r.
        ReopensWithHost setup L.segments pages.items r.0 r.1 r.2) }
    ensures host { IfOk result (λ r. (calls_taken r.1 ≡ []) × (r.1.acknowledged ≡ 0)
        × (has_failed r.1 ≡ false)) }
    ensures refused { IfErr result (λ e. SaysReopenStop setup L.segments pages.items e.why) }
{
    if setup.passes < 2 {
        return Err(refusal(ReopenStop::Passes, pages));
    }
    let of_flush = calls_of_flush(setup);
    let Ok((disk, calls, host)) = hosted_disk(alloc, calls.max(of_flush as usize)) else {
        return Err(refusal(ReopenStop::Memory, pages));
    };
    match Wal::reopen(alloc, disk.over_pages::<L>(pages), setup) {
        Ok((wal, pass, found)) => {
            match first_session(alloc, wal, pass, host, u64::from(of_flush)) {
                Ok(session) => Ok((session, calls, found)),
                Err(_) => Err(refusal(ReopenStop::Memory, Vec::new(alloc))),
            }
        }
        Err(fault) => Err(refusal_of(fault, &host)),
    }
}

fn refusal(why: ReopenStop, pages: Vec<HandedPage>) -> ReopenRefusal
    ensures { result.why ≡ why }
{
    ReopenRefusal { why, pages }
}

// What a fault of the log comes to. The host has taken no call yet.
fn refusal_of<H: Rule>(fault: OpenFault<HostedDisk>, host: &HostProgress<H>) -> ReopenRefusal
    ensures { IsStopOf fault.kind result.why }
{
    let OpenFault { disk, kind } = fault;
    let why = stop_of(kind, disk.wanted(), host.has_room(1));
    refusal(why, disk.into_pages())
}

// A disk that failed wanted a page, or had no room for a call more.
fn stop_of(kind: OpenFaultKind, wanted: Option<PageNumber>, has_room: bool) -> ReopenStop
    ensures { IsStopOf kind result }
{
    match kind {
        OpenFaultKind::Memory => ReopenStop::Memory,
        OpenFaultKind::Disk { .. } => match wanted {
            Some(number) => ReopenStop::Wants(number),
            None if has_room => ReopenStop::Refused(kind),
            None => ReopenStop::Room,
        },
        OpenFaultKind::BadSetup
        | OpenFaultKind::NotEmpty
        | OpenFaultKind::Beyond { .. }
        | OpenFaultKind::Foreign(_) => ReopenStop::Refused(kind),
    }
}
