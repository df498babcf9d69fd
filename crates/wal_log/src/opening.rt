// A log is opened on a disk without segment 1 (PostgreSQL's xlog.c, BootStrapXLOG, StartupXLOG).
// Memory comes first, so that want of it is told with the very disk that was handed in. Then page 0
// of segment 1 is read, while nobody has a pass. If it is not there the writer goes into its slot
// and the first pass is handed out: from then on the words are shared, and change by the table's
// steps alone. No counted call is made, so the log begins at the disk's own moment.
ghost use Rattle.std.specs.Prelude.{◌≡◌, IfErr, IfOk};
ghost use Rattle.machine_state.specs.Opened.{AreFirstWords};
ghost use Rattle.machine_state.specs.Sound.{IsSetup};
ghost use Rattle.machine_state.specs.declared.setup.Setup.{Setup};
ghost use Rattle.wal_rule.specs.Founded.{empty_log_opening};
ghost use Rattle.wal_rule.specs.Opening.{TellsOpenErr};
ghost use Rattle.wal_log.specs.Opening.{IsOpened, RefusesOpening};

use crate::wal::Wal;
use machine_state::{LogShape, MachineWords, Setup};
use segment_disk::Disk;
use std::alloc::Global;
use wal_reader::Stopped;
use wal_rule::{Founding, LogTable, LogWriter, OpenErr, Pass};

/// Why a log was not opened. The disk comes back.
#[derive(Drop)]
pub struct OpenFault<D> {
    pub disk: D,
    pub kind: OpenFaultKind,
}

/// In the order in which they are told.
#[derive(Clone, Copy, Debug, PartialEq, Eq)]
pub enum OpenFaultKind {
    /// No log can have this setup: segments of a power of two bytes from 1 MiB to 1 GiB, a ring of
    /// 4 to 64 pages, 1 to 4,096 segments, a system id that is not 0, and 1 to 65,536 passes.
    BadSetup,
    /// There is no memory. At an opening the disk was not read.
    Memory,
    /// The disk failed, at an opening the read of the first page: the disk's count of faults then.
    Disk { faults: u64 },
    /// Page 0 of segment 1 is there. A reopening never tells it.
    NotEmpty,
    /// A segment is there behind the last one that the log may have. A reopening alone tells it,
    /// as the next.
    Beyond { segment: u64 },
    /// What is there is no log that this program left, whatever a crash did to it.
    Foreign(Stopped),
}

impl<D: Disk> Wal<D> {
    /// Opens a log on a disk, with its first pass, which may give all other numbers away. Once it
    /// has all memory that the log ever needs, it reads page 0 of segment 1, which must not be
    /// there: its only device call.
    pub fn open(alloc: Global, disk: D, setup: Setup) -> Result<(Wal<D>, Pass), OpenFault<D>>
        ensures opened { IfOk result (λ r. IsOpened D.tape D.moment D.faults setup disk r.0 r.1) }
        ensures refused { IfErr result
            (λ e. RefusesOpening D.tape D.moment D.faults setup disk e) }
    {
        let Some(shape) = LogShape::new(setup) else {
            return Err(OpenFault {
                disk,
                kind: OpenFaultKind::BadSetup,
            });
        };
        let Ok(words) = MachineWords::first(alloc, setup, disk.moment()) else {
            return Err(OpenFault {
                disk,
                kind: OpenFaultKind::Memory,
            });
        };
        Wal::open_with(alloc, disk, setup, shape, words)
    }

    // Opens it with its first words, those of a log that holds nothing, where the disk has no
    // segment 1. The first pass has number 0 and may give all others away.
    fn open_with(
        alloc: Global,
        disk: D,
        setup: Setup,
        shape: LogShape,
        words: MachineWords,
    ) -> Result<(Wal<D>, Pass), OpenFault<D>>
        requires setup { IsSetup setup }
        requires shape { shape ≡ setup }
        requires words { AreFirstWords (empty_log_opening setup (D.moment disk) (D.faults disk))
            words.words }
        ensures opened { IfOk result (λ r. IsOpened D.tape D.moment D.faults setup disk r.0 r.1) }
        ensures refused { IfErr result
            (λ e. RefusesOpening D.tape D.moment D.faults setup disk e) }
    {
        let founding = Founding::of(setup, &disk);
        let writer = LogWriter::new(disk, shape.geometry());
        match LogTable::open(alloc, words.as_slice(), writer, shape, &founding) {
            Ok((table, seat)) => {
                let pass = Pass::of_seat(seat, 0, 1, setup.passes);
                Ok((Wal { table }, pass))
            }
            Err(error) => Err(open_fault(error)),
        }
    }
}

// Why a log was not opened whose table was not.
fn open_fault<D: Disk>(error: OpenErr<D>) -> OpenFault<D>
    ensures { (setup : Setup) (disk : D) → IsSetup setup
        → TellsOpenErr D.tape D.moment D.faults disk error
        → RefusesOpening D.tape D.moment D.faults setup disk result }
{
    match error {
        OpenErr::Memory(disk) => OpenFault {
            disk,
            kind: OpenFaultKind::Memory,
        },
        OpenErr::Disk(disk) => {
            let faults = disk.faults();
            OpenFault {
                disk,
                kind: OpenFaultKind::Disk { faults },
            }
        }
        OpenErr::NotEmpty(disk) => OpenFault {
            disk,
            kind: OpenFaultKind::NotEmpty,
        },
    }
}
