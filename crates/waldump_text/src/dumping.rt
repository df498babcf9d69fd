ghost use Rattle.std.specs.Prelude.{◌≡◌, [], IfSome, IsFalse, IsTrue, OnOk, if◌then◌else◌};
ghost use Rattle.segment_disk.specs.Tape.{IsUncalled};
ghost use Rattle.waldump_text.specs.Dump.{HasDumpCause, IsDump};
ghost use Rattle.waldump_text.specs.Listing.{IsListable, line_text};
ghost use Rattle.waldump_text.specs.Put.{Puts};
ghost use Rattle.waldump_text.specs.Tally.{TallyFits, tally_text};

use crate::counting::tally_log;
use crate::line_buffer::LineBuffer;
use crate::lines::put_line;
use crate::putting::SinkFault;
use crate::quiet::count_records;
use crate::sifting::{ByFilter, Sifted};
use crate::statistics::put_tally;
use crate::sums::Tally;
use byte_position::Geometry;
use segment_disk::{Disk, Sink};
use std::alloc::Global;
use std::marker::Brand;
use thiserror::Error;
use wal_reader::{Comes, ReadErr, Reader};
use waldump_filter::{Filter, Listed};

/// Why a log was not listed to a clean end.
#[derive(Clone, Copy, Debug, PartialEq, Eq, Error)]
pub enum DumpErr {
    /// The log was not read on. Where it stops, the lines of all records before are put, and no
    /// statistics.
    #[error("{0}")]
    Read(ReadErr),
    #[error("the listing cannot be written")]
    Sink(SinkFault),
}

impl From<ReadErr> for DumpErr {
    ghost use Rattle.std.specs.Prelude.{◌≡◌};
    ghost use Rattle.waldump_text.specs.declared.dumping.DumpErr.TheVariants as errors;

    ghost from_gives = { λ error e. e ≡ errors.Read error };

    fn from(error: ReadErr) -> DumpErr {
        DumpErr::Read(error)
    }
}

impl From<SinkFault> for DumpErr {
    ghost use Rattle.std.specs.Prelude.{◌≡◌};
    ghost use Rattle.waldump_text.specs.declared.dumping.DumpErr.TheVariants as errors;

    ghost from_gives = { λ fault e. e ≡ errors.Sink fault };

    fn from(fault: SinkFault) -> DumpErr {
        DumpErr::Sink(fault)
    }
}

/// Lists what the disk's log decodes to, by a filter, a line for each record as it comes, and
/// answers how many records are listed. Reading begins on the page that holds the filter's start;
/// once the limit is listed, nothing is read any more. Statistics are put in place of the lines
/// once all is read. A record that the rules refuse is not kept, and none is for statistics, or
/// where nothing is printed and no rule is given.
pub fn dump<D: Disk, O: Sink>(
    alloc: Global,
    disk: &mut D,
    geometry: Geometry,
    filter: &Filter,
    out: &mut O,
) -> Result<u64, DumpErr>
    ensures listed { IfSome (D.tape disk.old)
        (IsDump geometry filter.now (O.taken out.old) (O.taken out.new) result) }
    ensures uncalled { IsUncalled D.tape D.moment disk.old disk.new }
    ensures cause { HasDumpCause (D.faults disk.old) (D.faults disk.new) (O.faults out.old)
        (O.faults out.new) result }
{
    if filter.stats {
        dump_statistics(alloc, disk, geometry, filter, out)
    } else if filter.only_counts() {
        count_records(alloc, disk, geometry, filter)
    } else {
        dump_lines::<D, O, Brand>(alloc, disk, geometry, filter, out)
    }
}

// Lists records by a line for each, as it comes.
fn dump_lines<D: Disk, O: Sink, B: ByFilter>(
    alloc: Global,
    disk: &mut D,
    geometry: Geometry,
    filter: &Filter,
    out: &mut O,
) -> Result<u64, DumpErr>
    requires by { filter.now ≡ B.filter }
    requires plain { IsFalse filter.now.stats }
    ensures listed { IfSome (D.tape disk.old)
        (IsDump geometry filter.now (O.taken out.old) (O.taken out.new) result) }
    ensures uncalled { IsUncalled D.tape D.moment disk.old disk.new }
    ensures cause { HasDumpCause (D.faults disk.old) (D.faults disk.new) (O.faults out.old)
        (O.faults out.new) result }
{
    let mut reader = Reader::new(geometry, filter.start, filter.end);
    let mut buffer = LineBuffer::new();
    let mut sifted = Sifted::<B>::new(alloc, filter);
    let mut count = 0;
    'records: while !filter.is_full(count) {
        let step = reader.next_into(alloc, disk, &mut sifted)?;
        let Comes::Record(head) = step else {
            return Ok(count);
        };
        if sifted.keeps(head) {
            print(&mut buffer, filter, &sifted.listed, out)?;
            count += 1;
        }
    }
    Ok(count)
}

// Lists records by their statistics, once all of the log is read.
fn dump_statistics<D: Disk, O: Sink>(
    alloc: Global,
    disk: &mut D,
    geometry: Geometry,
    filter: &Filter,
    out: &mut O,
) -> Result<u64, DumpErr>
    requires { IsTrue filter.now.stats }
    ensures listed { IfSome (D.tape disk.old)
        (IsDump geometry filter.now (O.taken out.old) (O.taken out.new) result) }
    ensures uncalled { IsUncalled D.tape D.moment disk.old disk.new }
    ensures cause { HasDumpCause (D.faults disk.old) (D.faults disk.new) (O.faults out.old)
        (O.faults out.new) result }
{
    let tally = tally_log::<D, Brand>(alloc, disk, geometry, filter)?;
    put_statistics(filter.quiet, &tally, out)?;
    Ok(tally.all.records)
}

// Puts a tally's lines, unless nothing is to be printed.
fn put_statistics<O: Sink>(quiet: bool, tally: &Tally, out: &mut O) -> Result<(), SinkFault>
    requires { TallyFits tally.now }
    ensures { Puts (O.taken out.old) (O.taken out.new) (O.faults out.old) (O.faults out.new)
        (if quiet then [] else tally_text tally.now) result }
{
    if quiet {
        return Ok(());
    }
    put_tally(tally, out)
}

// Puts a record's line, unless nothing is to be printed.
#[inline(always)]
fn print<O: Sink>(
    buffer: &mut LineBuffer,
    filter: &Filter,
    r: &Listed,
    out: &mut O,
) -> Result<(), SinkFault>
    requires listable { IsListable r.now }
    requires empty { buffer.old ≡ [] }
    ensures put { Puts (O.taken out.old) (O.taken out.new) (O.faults out.old) (O.faults out.new)
        (if filter.now.quiet then [] else line_text filter.now.times r.now) result }
    ensures empty { OnOk result (buffer.new ≡ []) }
{
    if filter.quiet {
        return Ok(());
    }
    put_line(buffer, filter.times, r, out)
}
