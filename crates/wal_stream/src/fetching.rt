// A frame is read off a source. A source may give fewer bytes than it is asked for, so it is asked
// again for what is missing (PostgreSQL's libpq hands over a whole `CopyData` message, and there is
// nothing to put together: libpqrcv_receive of libpqwalreceiver.c).
ghost use Rattle.std.specs.Prelude.{◌≡◌, length};
ghost use Rattle.wal_stream.specs.Fetched.{source_state};
ghost use Rattle.wal_stream.specs.Steps.{Fetches};

use segment_disk::Source;

/// What came of a frame that was asked for.
#[derive(Clone, Copy, Debug, PartialEq, Eq)]
pub enum Fetched {
    /// All its bytes.
    Whole,
    /// The source's end came first.
    End,
    /// The source failed first.
    Fault,
}

/// Reads a frame's bytes, with as few reads as the source lets.
pub fn fetch<S: Source>(frame: &mut [u8], source: &mut S) -> Fetched
    requires { length frame.old ≡ 8224 }
    ensures { Fetches
        (source_state S.left S.handed S.ends_told S.faults source.old)
        (source_state S.left S.handed S.ends_told S.faults source.new) frame.new result }
{
    let mut have = 0;
    while have < frame.len() {
        match source.read(&mut frame[have..]) {
            Ok(0) => return Fetched::End,
            Ok(count) => have += count,
            Err(_) => return Fetched::Fault,
        }
    }
    Fetched::Whole
}
