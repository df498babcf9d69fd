// A log is opened anew: on a disk of the host's that holds no segment. Its queue has room for what
// one flush may add at least.
ghost use Rattle.std.specs.Prelude.{◌≡◌, ◌<◌, [], false, IfErr, IfOk};
ghost use Rattle.hosted_disk.specs.Hosted.{calls_taken, has_failed};
ghost use Rattle.machine_state.specs.Moves.{after_split, split_off};
ghost use Rattle.wal_rule.specs.Passes.{view_of_pass};
ghost use Rattle.wal_log.specs.Logs.{IsPassOfLog};
ghost use Rattle.embedded_log.specs.Opened.{OpensWithHost, SaysOpenRefusal, IsFirstOn};

use crate::session::LogSession;
use crate::shared::SharedLog;
use hosted_disk::{HostCalls, HostProgress, HostedDisk, hosted_disk};
use segment_disk::Memory;
use std::alloc::Global;
use std::sync::Arc;
use std::sync::atomic::{AtomicBool, Rule};
use wal_log::{OpenFaultKind, Pass, Setup, Wal};

// Beside the pages of the ring: the page at which a flush begins, the sync of a segment that ends
// in it, the next one's making, and the sync at last.
const CALLS_BESIDE_RING: u32 = 4;

/// Why a log was not opened.
#[derive(Clone, Copy, Debug, PartialEq, Eq)]
pub enum OpenRefusal {
    /// A setup of fewer than two passes: a session has two.
    Passes,
    Memory,
    /// As `Wal::open` tells it.
    Refused(OpenFaultKind),
}

/// Opens a log anew, with its first session, which may give all other passes away, and what the
/// host has of its disk: a queue with room for so many calls, or as many as one flush may add.
pub fn open<H: Rule>(
    alloc: Global,
    setup: Setup,
    calls: usize,
) -> Result<(LogSession<H>, HostCalls<H>), OpenRefusal>
    requires { H.invariant 0 }
    ensures opened { IfOk result (λ r. OpensWithHost setup r.0 r.1) }
    ensures host { IfOk result (λ r. (calls_taken r.1 ≡ []) × (r.1.acknowledged ≡ 0)
        × (has_failed r.1 ≡ false)) }
    ensures refused { IfErr result (λ e. SaysOpenRefusal setup e) }
{
    if setup.passes < 2 {
        return Err(OpenRefusal::Passes);
    }
    let of_flush = calls_of_flush(setup);
    let Ok((disk, calls, host)) = hosted_disk(alloc, calls.max(of_flush as usize)) else {
        return Err(OpenRefusal::Memory);
    };
    match Wal::open(alloc, disk, setup) {
        Ok((wal, pass)) => {
            match first_session(alloc, wal, pass, host, u64::from(of_flush)) {
                Ok(session) => Ok((session, calls)),
                Err(_) => Err(OpenRefusal::Memory),
            }
        }
        Err(fault) => Err(OpenRefusal::Refused(fault.kind)),
    }
}

// How many calls one flush adds at most.
pub(crate) fn calls_of_flush(setup: Setup) -> u32 {
    setup.ring_pages.saturating_add(CALLS_BESIDE_RING)
}

// The first session, of the log's first pass and one that is split off it.
pub(crate) fn first_session<H: Rule>(
    alloc: Global,
    wal: Wal<HostedDisk>,
    mut pass: Pass,
    host: HostProgress<H>,
    calls_of_flush: u64,
) -> Result<LogSession<H>, Memory>
    requires pass { IsPassOfLog wal pass }
    requires spare { pass.spare < pass.spare_end }
    ensures { IfOk result (λ session. IsFirstOn wal pass session) }
{
    let helper = wal.split(&mut pass);
    let shared = SharedLog {
        wal,
        host,
        flushing: AtomicBool::new(false),
        calls_of_flush,
    };
    Ok(LogSession {
        log: Arc::new(alloc, shared)?,
        pass,
        helper,
        pending: None,
        appended: None,
    })
}
