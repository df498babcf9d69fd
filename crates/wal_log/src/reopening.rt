// A log that was left on a disk is gone on with (PostgreSQL's xlog.c, StartupXLOG). It is found,
// and what settles it is planned, by reads alone; all memory is taken before the first counted
// call. The plan tells at which moment the disk stands once it is settled, so the words and the
// table are made for that moment, and the table settles the disk when it has all its memory. No
// counted call is made from then on.
ghost use Rattle.std.specs.Prelude.{◌≡◌, ℕ, ◌<◌, IfErr, IfOk, OnOk, slice_index};
ghost use Rattle.wal_spelling.specs.Spelling.{word_at};
ghost use Rattle.segment_disk.specs.Tape.{IsUncalled};
ghost use Rattle.flush_core.specs.Planned.{IsPlanOf};
ghost use Rattle.found_log.specs.Found.{FindsLog, place_of_log};
ghost use Rattle.machine_state.specs.Opened.{AreFirstWords};
ghost use Rattle.machine_state.specs.Sound.{IsSetup};
ghost use Rattle.machine_state.specs.Words.{Opening};
ghost use Rattle.machine_state.specs.declared.setup.Setup.{Setup};
ghost use Rattle.found_log.specs.declared.finding.FoundLog.{FoundLog};
ghost use Rattle.wal_rule.specs.Opening.{TellsResumeErr};
ghost use Rattle.wal_log.specs.Reopening.{GoesOn, IsFoundWithin, IsOpenedBehind, IsReopened, LeavesUnopened, RefusesReopening, TellsReopenFault, unfound_kind};

use crate::opening::{OpenFault, OpenFaultKind};
use crate::wal::Wal;
use byte_position::Geometry;
use flush_core::{SettleFault, SettlePlan};
use found_log::{FindFault, FoundLog, find};
use machine_state::{LogEnd, LogShape, MachineWords, Setup, Word};
use segment_disk::Disk;
use std::alloc::{AllocError, Global};
use std::marker::Brand;
use wal_rule::{Founding, LogTable, LogWriter, OrderPlace, Pass, PicksPlace, ResumeErr};
use wal_types::Lsn;

/// What a reopening found.
#[derive(Clone, Copy, Debug, PartialEq, Eq)]
pub struct Found {
    /// How many records the log has.
    pub count: u64,
    /// Where the last of them ends, or where the log starts.
    pub end: Lsn,
}

impl<D: Disk> Wal<D> {
    /// Opens the log that is on a disk, whatever a crash left of it and whoever wrote it, and its
    /// first pass, which may give all other numbers away. Once it has found the log, it makes
    /// durable what it read and clears what a crash left behind the end; records go on there. What
    /// lies below the end stays as it was read. On a disk without segment 1 it begins a log that
    /// holds nothing.
    ///
    /// All memory, and each reason to refuse the log, comes before the first counted call of the
    /// disk. After a refusal the log may be reopened again, as often as it takes.
    pub fn reopen(
        alloc: Global,
        disk: D,
        setup: Setup,
    ) -> Result<(Wal<D>, Pass, Found), OpenFault<D>>
        ensures reopened { IfOk result
            (λ r. IsReopened D.tape D.moment D.faults setup disk r.0 r.1 r.2) }
        ensures refused { IfErr result
            (λ e. RefusesReopening D.tape D.moment D.faults setup disk e) }
    {
        let Some(shape) = LogShape::new(setup) else {
            return Err(OpenFault {
                disk,
                kind: OpenFaultKind::BadSetup,
            });
        };
        let mut disk = disk;
        match find_planned(alloc, &mut disk, setup, shape.geometry()) {
            Ok((log, words, plan)) => Wal::go_on(alloc, disk, setup, shape, &log, words, &plan),
            Err(kind) => Err(OpenFault { disk, kind }),
        }
    }

    // Opens a log that was found on this disk, with these words, and settles it by the plan.
    fn go_on(
        alloc: Global,
        disk: D,
        setup: Setup,
        shape: LogShape,
        log: &FoundLog,
        mut words: MachineWords,
        plan: &SettlePlan,
    ) -> Result<(Wal<D>, Pass, Found), OpenFault<D>>
        requires setup { IsSetup setup }
        requires shape { shape ≡ setup }
        requires log { IsFoundWithin setup log.now }
        requires words { (opening : Opening) → IsOpenedBehind setup log.now 0 opening
            → AreFirstWords opening words.words }
        requires plan { IsPlanOf setup.seg_size log.now.end.0 log.now.made
            (D.tape disk) plan.now }
        ensures goes_on { IfOk result
            (λ r. GoesOn D.tape D.moment D.faults setup log.now disk r.0 r.1 r.2) }
        ensures refused { IfErr result
            (λ e. LeavesUnopened D.tape D.moment D.faults setup log.now disk e.disk e.kind) }
    {
        let founding = Founding::of_found(setup, &disk, place_of(log), log.made, plan);
        words.set(Word::Moment, founding.moment);
        let end = log.end;
        let count = log.count;
        let writer = LogWriter::resume(disk, shape.geometry(), end.0, log.made);
        match LogTable::resume(alloc, words.as_slice(), writer, shape, &founding, plan) {
            Ok((table, seat)) => {
                let pass = Pass::of_seat(seat, 0, 1, setup.passes);
                Ok((Wal { table }, pass, Found { count, end }))
            }
            Err(error) => Err(resume_fault(error)),
        }
    }
}

// Why a log was not opened that was found.
fn resume_fault<D: Disk>(error: ResumeErr<D>) -> OpenFault<D>
    ensures { (setup : Setup) (log : FoundLog) (old : D)
        → TellsResumeErr D.tape D.moment D.faults setup.seg_size log.end.0 old error
        → LeavesUnopened D.tape D.moment D.faults setup log old result.disk result.kind }
{
    match error {
        ResumeErr::Memory(disk) => OpenFault {
            disk,
            kind: OpenFaultKind::Memory,
        },
        ResumeErr::Disk { disk, faults } => OpenFault {
            disk,
            kind: OpenFaultKind::Disk { faults },
        },
    }
}

// Finds the log on a disk, and plans what settles it. Memory for the words with which it goes on is
// taken too; their moment is stored later.
fn find_planned<D: Disk>(
    alloc: Global,
    disk: &mut D,
    setup: Setup,
    geometry: Geometry,
) -> Result<(FoundLog, MachineWords, SettlePlan), OpenFaultKind>
    requires setup { IsSetup setup }
    requires size { setup.seg_size ≡ geometry }
    ensures found { IfOk result (λ r. FindsLog setup.seg_size setup.cap_segments
        (D.tape disk.old) r.0) }
    ensures words { IfOk result (λ r. (opening : Opening) → IsOpenedBehind setup r.0 0 opening
        → AreFirstWords opening r.1.words) }
    ensures planned { IfOk result (λ r. IsPlanOf setup.seg_size r.0.end.0 r.0.made
        (D.tape disk.old) r.2) }
    ensures uncalled { IsUncalled D.tape D.moment disk.old disk.new }
    ensures no_fault { OnOk result (D.faults disk.new ≡ D.faults disk.old) }
    ensures refused { IfErr result
        (TellsReopenFault D.tape D.moment D.faults setup disk.old disk.new) }
{
    let log = match find(alloc, disk, geometry, setup.cap_segments) {
        Ok(log) => log,
        Err(fault) => return Err(unfound_kind(fault)),
    };
    let Ok(words) = words_behind(alloc, setup, &log) else {
        return Err(OpenFaultKind::Memory);
    };
    match log.plan(alloc, disk, geometry) {
        Ok(plan) => Ok((log, words, plan)),
        Err(SettleFault::Memory) => Err(OpenFaultKind::Memory),
        Err(SettleFault::Disk { faults }) => Err(OpenFaultKind::Disk { faults }),
    }
}

// Why a log was not reopened that was not found.
fn unfound_kind(fault: FindFault) -> OpenFaultKind
    ensures { result ≡ unfound_kind fault }
{
    match fault {
        FindFault::Memory => OpenFaultKind::Memory,
        FindFault::Disk { faults } => OpenFaultKind::Disk { faults },
        FindFault::Beyond { segment } => OpenFaultKind::Beyond { segment },
        FindFault::Foreign(stopped) => OpenFaultKind::Foreign(stopped),
    }
}

// The words of a log that goes on behind the one that was found, at moment 0.
fn words_behind(alloc: Global, setup: Setup, log: &FoundLog) -> Result<MachineWords, AllocError>
    requires setup { IsSetup setup }
    requires log { IsFoundWithin setup log.now }
    ensures pages { IfOk result (λ words. words.pages ≡ setup.ring_pages) }
    ensures words { (opening : Opening) → IsOpenedBehind setup log.now 0 opening
        → IfOk result (λ words. AreFirstWords opening words.words) }
{
    let end = LogEnd {
        position: log.position,
        address: log.end.0,
        last_start: log.last_start.0,
    };
    MachineWords::resume(alloc, setup, 0, end, &log.page)
}

// The place at which a log goes on that was found.
fn place_of(log: &FoundLog) -> OrderPlace
    ensures { result.place ≡ place_of_log log.now }
{
    picked_place::<Brand>(log)
}

fn picked_place<B: PicksPlace>(_log: &FoundLog) -> OrderPlace
    ensures { result.place ≡ B.place }
{
    OrderPlace::of::<B>()
}
