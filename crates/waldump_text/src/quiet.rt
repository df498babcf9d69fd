//! A listing of which nothing is printed, by a filter without rules: its records are read, checked
//! and counted, and not kept.

ghost use Rattle.std.specs.Prelude.{◌≡◌, ℕ, List, Option, IfSome, IsFalse, IsTrue, if◌then◌else◌, nat_le, ◌≤◌};
ghost use Rattle.segment_disk.specs.Tape.{IsUncalled};
ghost use Rattle.waldump_filter.specs.declared.listed.Listed.{Listed};
ghost use Rattle.waldump_filter.specs.Keeping.{keeps};
ghost use Rattle.waldump_text.specs.Dump.{HasDumpCause, IsDump};

use crate::dumping::DumpErr;
use byte_position::Geometry;
use segment_disk::Disk;
use std::alloc::Global;
use wal_reader::{Comes, Reader, RecordHead};
use wal_record::Unkept;
use waldump_filter::Filter;

/// Counts the records that a filter lists which prints nothing and keeps all from its start on.
pub(crate) fn count_records<D: Disk>(
    alloc: Global,
    disk: &mut D,
    geometry: Geometry,
    filter: &Filter,
) -> Result<u64, DumpErr>
    requires plain { IsFalse filter.now.stats }
    requires quiet { IsTrue filter.now.quiet }
    requires keeps { (r : Listed) → keeps filter.now r ≡ nat_le filter.now.start.0 r.start.0 }
    // A listing that puts nothing, whatever the sink had taken.
    ensures listed { (taken : Option (List ℕ)) → IfSome (D.tape disk.old)
        (IsDump geometry filter.now taken taken result) }
    ensures uncalled { IsUncalled D.tape D.moment disk.old disk.new }
    ensures cause { (sink : ℕ) → HasDumpCause (D.faults disk.old) (D.faults disk.new) sink sink
        result }
{
    let mut reader = Reader::new(geometry, filter.start, filter.end);
    let mut unkept = Unkept::new();
    let mut count = 0;
    'records: while !filter.is_full(count) {
        let step = reader.next_into(alloc, disk, &mut unkept)?;
        let Comes::Record(head) = step else {
            return Ok(count);
        };
        count += counted(filter, head);
    }
    Ok(count)
}

// What a record that stands here adds to the count of those that are listed.
#[inline(always)]
fn counted(filter: &Filter, head: RecordHead) -> u64
    ensures counts { result ≡ (if nat_le filter.now.start.0 head.start.0 then 1 else 0) }
    ensures one { result ≤ 1 }
{
    u64::from(filter.start.0 <= head.start.0)
}
