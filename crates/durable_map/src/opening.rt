//! A map is opened on a disk: the log there is read from its start, and each record's change is
//! taken in, in the log's order. Then the log is gone on with behind them. What stands behind the
//! log's end, where a crash stopped it, is judged by the log's reopening.

ghost use Rattle.std.specs.Prelude.{◌≡◌, IfErr, IfOk, OnOk, None};
ghost use Rattle.segment_disk.specs.Tape.{IsUncalled};
ghost use Rattle.durable_map.specs.Opening.{AreRead, OpensMap, TellsMapFault, TellsReadFault, next_of};
ghost use Rattle.durable_map.specs.Stores.{IsOpenMap};

use crate::entries::{Entries, take_in};
use crate::fault::{MapFault, MapFaultKind};
use crate::part::MapPart;
use crate::store::DurableMap;
use byte_position::Geometry;
use segment_disk::Disk;
use std::alloc::Global;
use std::collections::BTreeMap;
use wal_log::shared_numbers::passes_share_numbers;
use wal_log::{OpenFault, OpenFaultKind, Setup, Wal};
use wal_reader::{FoundRecord, ReadErr, Reader, RecordHead, Step, decoding_is_settled};
use wal_rule::numbers::seats_keep_numbers;
use wal_types::Lsn;

impl<D: Disk> DurableMap<D> {
    /// Opens the map that is on a disk, and an empty one on a disk without segment 1. A log with a
    /// record that says no change is refused, and its disk only read; so is one that stops as no
    /// crash lets a log stop. What a crash leaves of a map's own log gives a map, as far as
    /// `answered_changes_stay` says.
    pub fn open(alloc: Global, disk: D, setup: Setup) -> Result<DurableMap<D>, MapFault<D>>
        ensures opened { IfOk result (OpensMap D.tape D.moment D.faults setup disk) }
        ensures kept { IfOk result IsOpenMap }
        ensures refused { IfErr result
            (λ fault. TellsMapFault D.tape D.moment D.faults setup disk fault.disk fault.kind) }
    {
        decoding_is_settled();
        seats_keep_numbers();
        passes_share_numbers();
        let mut disk = disk;
        let Some(geometry) = Geometry::new(setup.seg_size) else {
            return Err(MapFault {
                disk,
                kind: MapFaultKind::Log(OpenFaultKind::BadSetup),
            });
        };
        let entries = match read_entries(alloc, &mut disk, geometry) {
            Ok(entries) => entries,
            Err(kind) => return Err(MapFault { disk, kind }),
        };
        match Wal::reopen(alloc, disk, setup) {
            Ok((log, pass, _)) => Ok(DurableMap {
                log,
                part: MapPart {
                    entries,
                    pass,
                    alloc,
                },
            }),
            Err(OpenFault { disk, kind }) => Err(MapFault {
                disk,
                kind: MapFaultKind::Log(kind),
            }),
        }
    }
}

// What a step of reading says: the next record, none where the log ends or stops, or why it was
// not read.
fn next_of(step: Result<Step, ReadErr>) -> Result<Option<FoundRecord>, MapFaultKind>
    ensures { result ≡ next_of step }
{
    match step {
        Ok(
            Step::Record {
                start,
                end,
                prev,
                total,
                value,
            },
        ) => Ok(Some(FoundRecord {
            head: RecordHead {
                start,
                end,
                prev,
                total,
            },
            value,
        })),
        Ok(Step::End { .. }) => Ok(None),
        Err(ReadErr::Memory) => Err(MapFaultKind::Memory),
        Err(ReadErr::Disk { faults }) => Err(MapFaultKind::Disk { faults }),
        Err(ReadErr::Stopped(_)) => Ok(None),
    }
}

// Reads a disk's log from its start to its end, and takes each change in.
fn read_entries<D: Disk>(
    alloc: Global,
    disk: &mut D,
    geometry: Geometry,
) -> Result<Entries, MapFaultKind>
    ensures read { IfOk result (AreRead geometry (D.tape disk.old)) }
    ensures uncalled { IsUncalled D.tape D.moment disk.old disk.new }
    ensures no_fault { OnOk result (D.faults disk.new ≡ D.faults disk.old) }
    ensures refused { IfErr result (TellsReadFault geometry (D.tape disk.old)
        (D.faults disk.old) (D.faults disk.new)) }
{
    let mut reader = Reader::new(geometry, Lsn(geometry.segment_size()), None);
    let mut entries = BTreeMap::new(alloc);
    'records: loop {
        match next_of(reader.next(alloc, disk))? {
            Some(found) => take_in(alloc, &mut entries, &found)?,
            None => return Ok(entries),
        }
    }
}
