// The list of a log is read before anything is sent, since only a log that comes to a clean end is
// sent, and only up to there.
ghost use Rattle.std.specs.Prelude.{◌≡◌, Err, IfErr, IfOk, IfSome, OnOk};
ghost use Rattle.segment_disk.specs.Tape.{IsUncalled};
ghost use Rattle.wal_reader.specs.Standings.{HasReadCause};
ghost use Rattle.wal_stream.specs.Sending.{IsListRead, IsWordEnd};

use byte_position::Geometry;
use segment_disk::Disk;
use std::alloc::Global;
use wal_reader::{ReadErr, Reader, Step};
use wal_types::Lsn;

/// Reads a log from its start to its clean end, and answers where its last record ends: behind a
/// segment switch the next segment's start, and without a record the log's start.
pub(crate) fn read_list<D: Disk>(
    alloc: Global,
    disk: &mut D,
    geometry: Geometry,
) -> Result<Lsn, ReadErr>
    ensures read { IfSome (D.tape disk.old) (IsListRead geometry result) }
    ensures whole { IfOk result (λ end. IsWordEnd end.0) }
    ensures uncalled { IsUncalled D.tape D.moment disk.old disk.new }
    ensures no_fault { OnOk result (D.faults disk.new ≡ D.faults disk.old) }
    ensures cause { IfErr result (λ error.
        HasReadCause (D.faults disk.old) (D.faults disk.new) (Err error)) }
{
    let mut end = Lsn(geometry.segment_size());
    let mut reader = Reader::new(geometry, end, None);
    'records: loop {
        match reader.next(alloc, disk)? {
            Step::Record {
                start: _,
                end: behind,
                prev: _,
                total: _,
                value: _,
            } => end = behind,
            Step::End { .. } => return Ok(end),
        }
    }
}
