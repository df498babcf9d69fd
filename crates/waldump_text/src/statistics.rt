//! The statistics of a listing, in a layout of this project's own.

ghost use Rattle.std.specs.Prelude.{◌≡◌, ◌+◌, ◌<◌, ◌≤◌, ◌++◌, IsTrue, not, length, All};
ghost use Rattle.wal_spelling.specs.Record.{is_free_manager};
ghost use Rattle.waldump_text.specs.Listing.{IsListable};
ghost use Rattle.waldump_text.specs.Put.{Puts, joined};
ghost use Rattle.waldump_text.specs.Statistics.{manager_line, stats_text, sums_pieces, total_line};
ghost use Rattle.waldump_text.specs.Tally.{TallyFits, tally_text};
ghost use Rattle.waldump_text.specs.declared.line_buffer.TheConstants.{ROOM};

use crate::line_buffer::LineBuffer;
use crate::names::manager_name;
use crate::putting::SinkFault;
use crate::sums::{Sums, Tally, weight_of};
use segment_disk::Sink;
use waldump_filter::Listed;

/// Puts the statistics of records into a sink: a line for each manager that wrote one, by rising
/// number, and a line for all. It takes no memory.
pub fn stats<O: Sink>(records: &[Listed], out: &mut O) -> Result<(), SinkFault>
    requires { All IsListable records.now }
    ensures { Puts (O.taken out.old) (O.taken out.new) (O.faults out.old) (O.faults out.new)
        (stats_text records.now) result }
{
    let mut tally = Tally::new();
    for r in records {
        tally.add(weight_of(r));
    }
    put_tally(&tally, out)
}

pub(crate) fn put_tally<O: Sink>(tally: &Tally, out: &mut O) -> Result<(), SinkFault>
    requires { TallyFits tally.now }
    ensures { Puts (O.taken out.old) (O.taken out.new) (O.faults out.old) (O.faults out.new)
        (tally_text tally.now) result }
{
    for rmid in 0..256 {
        put_manager(rmid as u8, tally.own[rmid], out)?;
    }
    put_total(tally.all, out)
}

// Puts the line of a manager, if it wrote a record.
fn put_manager<O: Sink>(rmid: u8, sums: Sums, out: &mut O) -> Result<(), SinkFault>
    requires named { 0 < sums.records → IsTrue (not (is_free_manager rmid)) }
    requires images { sums.images ≤ sums.total }
    ensures { Puts (O.taken out.old) (O.taken out.new) (O.faults out.old) (O.faults out.new)
        (manager_line rmid sums) result }
{
    if sums.records == 0 {
        return Ok(());
    }
    let mut buffer = LineBuffer::new();
    buffer.push(b"stats: rmgr ");
    buffer.push_left_aligned(manager_name(rmid).as_bytes(), 11);
    push_sums(&mut buffer, sums);
    buffer.flush(out)
}

// Puts the line of all records.
fn put_total<O: Sink>(sums: Sums, out: &mut O) -> Result<(), SinkFault>
    requires { sums.images ≤ sums.total }
    ensures { Puts (O.taken out.old) (O.taken out.new) (O.faults out.old) (O.faults out.new)
        (total_line sums) result }
{
    let mut buffer = LineBuffer::new();
    buffer.push(b"stats: total");
    push_sums(&mut buffer, sums);
    buffer.flush(out)
}

fn push_sums(buffer: &mut LineBuffer, sums: Sums)
    requires images { sums.images ≤ sums.total }
    requires room { length buffer.old + 256 ≤ ROOM }
    ensures { buffer.new ≡ buffer.old ++ joined (sums_pieces sums) }
{
    buffer.push(b" records ");
    buffer.push_sum(u128::from(sums.records));
    buffer.push(b" rec ");
    buffer.push_sum(sums.total - sums.images);
    buffer.push(b" fpi ");
    buffer.push_sum(sums.images);
    buffer.push(b" total ");
    buffer.push_sum(sums.total);
    buffer.push(b"\n");
}
