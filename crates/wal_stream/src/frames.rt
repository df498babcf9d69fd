// The pages of a log as frames, each read again and put at once.
ghost use Rattle.std.specs.Prelude.{◌≡◌, ◌+◌, ◌*◌, ◌^◌, ◌<◌, IfSome, OnOk, min};
ghost use Rattle.segment_disk.specs.Cause.{HasCause};
ghost use Rattle.segment_disk.specs.Tape.{IsUncalled, state_now};
ghost use Rattle.wal_stream.specs.Frame.{EndsInPage};
ghost use Rattle.wal_stream.specs.Putting.{PutsFrame, PutsFrames};
ghost use Rattle.wal_stream.specs.Sending.{HasSendCause, IsWordEnd};
ghost use Rattle.wal_stream.specs.SentFrames.{frame_count, page_read};

use crate::fault::SendErr;
use crate::framing::{FRAME_SIZE, frame};
use byte_position::{Geometry, PAGE_SIZE, Page};
use segment_disk::{Disk, Failed, Sink};
use wal_reader::ReadErr;
use wal_types::Lsn;
use waldump_text::put;

// How many frames there are from an address on, up to a log's end.
fn frame_count(from: Lsn, end: Lsn) -> u64
    requires { end.0 < 2 ^ 63 }
    ensures { result ≡ frame_count from.0 end.0 }
{
    if from.0 < end.0 {
        end.0.div_ceil(PAGE_SIZE) - from.0 / PAGE_SIZE
    } else {
        0
    }
}

// Reads a page, by its number from the log's address 0; one that is not there counts as zeros.
fn read_page<D: Disk>(
    disk: &mut D,
    geometry: Geometry,
    number: u64,
    page: &mut Page,
) -> Result<(), Failed>
    requires { number * 8192 < 2 ^ 63 }
    ensures reads { OnOk result (IfSome (D.tape disk.old)
        (λ t. page.new ≡ page_read geometry (state_now t) number)) }
    ensures uncalled { IsUncalled D.tape D.moment disk.old disk.new }
    ensures cause { HasCause (D.faults disk.old) (D.faults disk.new) result }
{
    let pages = u64::from(geometry.pages());
    if !disk.read_page(geometry, number / pages, (number % pages) as u32, page)? {
        *page = [0; 8192];
    }
    Ok(())
}

// Up to where a page is sent of a log that ends at an address: its own end, or the log's.
fn sent_end(number: u64, end: Lsn) -> Lsn
    requires end { IsWordEnd end.0 }
    requires page { number * 8192 < end.0 }
    ensures is { result.0 ≡ min (number * 8192 + 8192) end.0 }
    ensures within { EndsInPage number result.0 }
{
    Lsn((number * PAGE_SIZE + PAGE_SIZE).min(end.0))
}

// Puts the frame of a page. `page` and `bytes` are room for a page and for a frame.
fn put_frame<D: Disk, O: Sink>(
    disk: &mut D,
    geometry: Geometry,
    number: u64,
    end: Lsn,
    page: &mut Page,
    bytes: &mut [u8; FRAME_SIZE],
    out: &mut O,
) -> Result<(), SendErr>
    requires end { IsWordEnd end.0 }
    requires page { number * 8192 < end.0 }
    ensures puts { PutsFrame geometry number end.0 (D.tape disk.old)
        (O.taken out.old) (O.taken out.new) (O.faults out.old) (O.faults out.new) result }
    ensures uncalled { IsUncalled D.tape D.moment disk.old disk.new }
    ensures cause { HasSendCause (D.faults disk.old) (D.faults disk.new)
        (O.faults out.old) (O.faults out.new) result }
{
    let Ok(()) = read_page(disk, geometry, number, page) else {
        return Err(SendErr::Read(ReadErr::Disk {
            faults: disk.faults(),
        }));
    };
    frame(geometry, number, sent_end(number, end), page, bytes);
    put(out, bytes)?;
    Ok(())
}

/// Puts the frames of a log's pages from an address on, up to its end, each as one whole piece, and
/// answers how many. A page is read again for it, since no log need fit the memory.
pub(crate) fn put_frames<D: Disk, O: Sink>(
    disk: &mut D,
    geometry: Geometry,
    from: Lsn,
    end: Lsn,
    page: &mut Page,
    out: &mut O,
) -> Result<u64, SendErr>
    requires { IsWordEnd end.0 }
    ensures puts { PutsFrames geometry from.0 end.0 (D.tape disk.old)
        (O.taken out.old) (O.taken out.new) result }
    ensures uncalled { IsUncalled D.tape D.moment disk.old disk.new }
    ensures cause { HasSendCause (D.faults disk.old) (D.faults disk.new)
        (O.faults out.old) (O.faults out.new) result }
{
    let mut bytes = [0; FRAME_SIZE];
    let first = from.0 / PAGE_SIZE;
    let count = frame_count(from, end);
    for sent in 0..count {
        put_frame(disk, geometry, first + sent, end, page, &mut bytes, out)?;
    }
    Ok(count)
}
