ghost use Rattle.std.specs.Prelude.{◌≡◌, ◌*◌, ◌≤◌, true, false, [], ◌++◌, length, FitsSigned, IfSome, OnOk};
ghost use Rattle.std.specs.Int.{w64};
ghost use Rattle.waldump_text.specs.Put.{Puts, PutsBut, joined};
ghost use Rattle.waldump_text.specs.Names.{hexadecimal};
ghost use Rattle.waldump_text.specs.Listing.{IsListable, commit_time_of, commit_time_text, data_text, head_pieces, line_text, main_text};

use crate::block_refs::{images_len, put_blocks};
use crate::digits::push_digits;
use crate::line_buffer::LineBuffer;
use crate::names::{manager_name, record_word};
use crate::putting::SinkFault;
use crate::times::time_text;
use segment_disk::Sink;
use wal_types::Record;
use waldump_filter::Listed;

/// Puts a record's line into a sink (PostgreSQL's pg_waldump.c, XLogDumpDisplayRecord): in one call
/// where the sink takes it and it has at most 4096 bytes. It takes no memory.
pub fn line<O: Sink>(r: &Listed, out: &mut O) -> Result<(), SinkFault>
    requires { IsListable r.now }
    ensures { Puts (O.taken out.old) (O.taken out.new) (O.faults out.old) (O.faults out.new)
        (line_text false r.now) result }
{
    put_line(&mut LineBuffer::new(), false, r, out)
}

/// Puts a record's line into a sink by way of a buffer, which is left empty, with the time of a
/// commit where times are asked for. A call of its own, so that a quiet listing pays nothing for
/// it.
#[inline(never)]
pub(crate) fn put_line<O: Sink>(
    buffer: &mut LineBuffer,
    times: bool,
    r: &Listed,
    out: &mut O,
) -> Result<(), SinkFault>
    requires listable { IsListable r.now }
    requires empty { buffer.old ≡ [] }
    ensures put { Puts (O.taken out.old) (O.taken out.new) (O.faults out.old) (O.faults out.new)
        (line_text times r.now) result }
    ensures empty { OnOk result (buffer.new ≡ []) }
{
    push_head(buffer, r);
    put_data(buffer, times, &r.value, out)?;
    put_blocks(buffer, r.value.blocks.as_slice(), out)?;
    buffer.append(b"\n", out)?;
    buffer.flush(out)
}

// A line before the record's data.
fn push_head(buffer: &mut LineBuffer, r: &Listed)
    requires listable { IsListable r.now }
    requires empty { buffer.old ≡ [] }
    ensures { buffer.new ≡ joined (head_pieces r.now) }
{
    buffer.push_piece(*b"rmgr: ");
    buffer.push_left_aligned(manager_name(r.value.rmid).as_bytes(), 11);
    buffer.push_piece(*b" len (rec/tot): ");
    buffer.push_right_aligned(r.total - images_len(r.value.blocks.as_slice()), 6);
    buffer.push_piece(*b"/");
    buffer.push_right_aligned(r.total, 6);
    buffer.push_piece(*b", tx: ");
    buffer.push_right_aligned(r.value.xid.0, 10);
    buffer.push_piece(*b", lsn: ");
    buffer.push_position(r.start);
    buffer.push_piece(*b", prev ");
    buffer.push_position(r.prev);
    buffer.push_piece(*b", desc: ");
    buffer.push(record_word(r.value.rmid, r.value.info).as_bytes());
    buffer.push_piece(*b" data ");
}

// Puts a record's data, and behind it the time of a commit where times are asked for.
fn put_data<O: Sink>(
    buffer: &mut LineBuffer,
    times: bool,
    value: &Record,
    out: &mut O,
) -> Result<(), SinkFault>
    ensures { PutsBut (O.taken out.old) (O.taken out.new) (O.faults out.old) (O.faults out.new)
        (buffer.old ++ data_text times value.now) buffer.new result }
{
    put_main(buffer, value.main.as_slice(), out)?;
    if times {
        put_commit_time(buffer, value, out)?;
    }
    Ok(())
}

// Puts the time of a commit (PostgreSQL's xactdesc.c, xact_desc_commit), or nothing for another
// record. A call of its own, so that a listing without times pays nothing for it.
#[inline(never)]
fn put_commit_time<O: Sink>(
    buffer: &mut LineBuffer,
    value: &Record,
    out: &mut O,
) -> Result<(), SinkFault>
    ensures { PutsBut (O.taken out.old) (O.taken out.new) (O.faults out.old) (O.faults out.new)
        (buffer.old ++ commit_time_text true value.now) buffer.new result }
{
    match commit_time(value) {
        Some(time) => buffer.append(time_text(time).as_bytes(), out),
        None => Ok(()),
    }
}

// When a transaction committed, by a record that tells it.
fn commit_time(value: &Record) -> Option<i64>
    ensures time { result ≡ commit_time_of value.now }
    ensures fits { IfSome result (λ time. FitsSigned w64 time) }
{
    if value.rmid != 1 || value.info / 16 % 8 != 0 {
        return None;
    }
    match value.main.as_slice().first_chunk::<8>() {
        Some(bytes) => Some(i64::from_le_bytes(*bytes)),
        None => None,
    }
}

// Puts main data in hexadecimal, or `-` for none.
#[inline(always)]
fn put_main<O: Sink>(buffer: &mut LineBuffer, main: &[u8], out: &mut O) -> Result<(), SinkFault>
    ensures { PutsBut (O.taken out.old) (O.taken out.new) (O.faults out.old) (O.faults out.new)
        (buffer.old ++ main_text main.now) buffer.new result }
{
    if main.is_empty() {
        buffer.append(b"-", out)
    } else {
        put_hexadecimal(buffer, main, out)
    }
}

// Puts bytes in hexadecimal, a part at a time: main data may have a megabyte.
fn put_hexadecimal<O: Sink>(
    buffer: &mut LineBuffer,
    bytes: &[u8],
    out: &mut O,
) -> Result<(), SinkFault>
    ensures { PutsBut (O.taken out.old) (O.taken out.new) (O.faults out.old) (O.faults out.new)
        (buffer.old ++ hexadecimal bytes.now) buffer.new result }
{
    for part in bytes.chunks(256) {
        put_digits(buffer, part, out)?;
    }
    Ok(())
}

// Puts up to 256 bytes in hexadecimal.
fn put_digits<O: Sink>(buffer: &mut LineBuffer, bytes: &[u8], out: &mut O) -> Result<(), SinkFault>
    requires { length bytes.now ≤ 256 }
    ensures { PutsBut (O.taken out.old) (O.taken out.new) (O.faults out.old) (O.faults out.new)
        (buffer.old ++ hexadecimal bytes.now) buffer.new result }
{
    buffer.make_room(2 * bytes.len(), out)?;
    push_digits(buffer, bytes);
    Ok(())
}
