//! Reading all records of a log, each of which is let go.

ghost use Rattle.std.specs.Prelude.{◌≡◌, ◌+◌, ◌*◌, ◌<◌, ◌≤◌, ◌^◌, ◌↔◌, ◌⊎◌, IfErr, IfOk, IfSome, IsTrue, OnOk};
ghost use Rattle.segment_disk.specs.Tape.{IsUncalled};
ghost use Rattle.wal_reader.specs.declared.found.Stopped.TheVariants.{Damaged};
ghost use Rattle.wal_reader.specs.declared.found.DamageKind.TheVariants.{Missing};
ghost use Rattle.found_log.specs.Found.{HasFindCause, judged};
ghost use Rattle.found_log.specs.Reading.{IsReadLog, IsUnread};
ghost use Rattle.found_log.specs.declared.fault.FindFault.TheVariants.{Foreign};

use crate::fault::FindFault;
use crate::foreign::is_foreign;
use byte_position::Geometry;
use segment_disk::Disk;
use std::alloc::Global;
use wal_reader::{DamageKind, FoundRecord, ReadErr, Reader, RecordHead, Step, Stopped};
use wal_types::Lsn;

/// Where records end that were read one behind another from a log's start on.
#[derive(Clone, Copy, Debug)]
pub(crate) struct RecordsEnd {
    /// How many they are.
    pub(crate) count: u64,
    /// The address behind the last one, or where the log starts.
    pub(crate) end: Lsn,
    /// Where the last one starts; 0 where there is none.
    pub(crate) last_start: Lsn,
}

impl RecordsEnd {
    // With one record more, if it ends in the segments from 1 up to `made`, which are there.
    fn follow(
        self,
        geometry: Geometry,
        made: u64,
        found: &FoundRecord,
    ) -> Result<RecordsEnd, FindFault>
        requires few { made ≤ 4096 }
        requires counted { self.count < 2 ^ 60 }
        ensures follows { IfOk result (λ end. (end.count ≡ self.count + 1)
            × (end.end ≡ found.now.head.end) × (end.last_start ≡ found.now.head.start)
            × (geometry ≤ end.end.0) × (end.end.0 ≤ made * geometry + geometry)) }
        ensures refused { IfErr result (λ fault.
            (fault ≡ Foreign (Damaged found.now.head.start Missing))
            × ((found.now.head.end.0 < geometry)
            ⊎ (made * geometry + geometry < found.now.head.end.0))) }
    {
        let size = geometry.segment_size();
        let end = found.head.end;
        if end.0 < size || end.0 > (made + 1) * size {
            return Err(FindFault::Foreign(Stopped::Damaged {
                at: found.head.start,
                kind: DamageKind::Missing,
            }));
        }
        Ok(RecordsEnd {
            count: self.count + 1,
            end,
            last_start: found.head.start,
        })
    }
}

// What a step of reading says: the next record, and none where the log ends.
fn judge(step: Result<Step, ReadErr>) -> Result<Option<FoundRecord>, FindFault>
    ensures { result ≡ judged step }
{
    match step {
        Ok(
            Step::Record {
                start,
                end,
                prev,
                total,
                value,
            },
        ) => Ok(Some(FoundRecord {
            head: RecordHead {
                start,
                end,
                prev,
                total,
            },
            value,
        })),
        Ok(Step::End { .. }) => Ok(None),
        Err(ReadErr::Memory) => Err(FindFault::Memory),
        Err(ReadErr::Disk { faults }) => Err(FindFault::Disk { faults }),
        Err(ReadErr::Stopped(stopped)) if is_foreign(stopped) => Err(FindFault::Foreign(stopped)),
        Err(ReadErr::Stopped(_)) => Ok(None),
    }
}

/// Reads a log from its start to its end, of which the segments up to `made` are there.
pub(crate) fn read_records<D: Disk>(
    alloc: Global,
    disk: &mut D,
    geometry: Geometry,
    made: u64,
) -> Result<RecordsEnd, FindFault>
    requires few { made ≤ 4096 }
    ensures read { IfOk result (IsReadLog geometry made (D.tape disk.old)) }
    ensures refused { IfErr result
        (λ fault. IfSome (D.tape disk.old) (IsUnread geometry made fault)) }
    ensures uncalled { IsUncalled D.tape D.moment disk.old disk.new }
    ensures cause { HasFindCause (D.faults disk.old) (D.faults disk.new) result }
{
    let start = Lsn(geometry.segment_size());
    let mut reader = Reader::new(geometry, start, None);
    let mut end = RecordsEnd {
        count: 0,
        end: start,
        last_start: Lsn(0),
    };
    'records: loop {
        match judge(reader.next(alloc, disk))? {
            Some(record) => end = end.follow(geometry, made, &record)?,
            None => return Ok(end),
        }
    }
}
