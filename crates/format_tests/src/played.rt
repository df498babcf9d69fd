//! Calls of a disk as rows, made through the bound alone, and what they answer.
ghost use Rattle.std.specs.Prelude.{◌<◌};

use crate::calls::smallest;
use segment_disk::{Disk, Failed};
use std::process::Abort;

/// A call of a disk: its segment, which of its pages below 128, the byte that fills the page.
#[derive(Clone, Copy)]
pub(crate) enum Call {
    Create(u8),
    Write(u8, u8, u8),
    Sync(u8),
    Read(u8, u8),
}

/// What a call answers: where it read a page that is there, the first bytes of its words 0, 1, 2
/// and 1023.
pub(crate) type Answer = Result<Option<[u8; 4]>, Failed>;

pub(crate) const DONE: Answer = Ok(None);

pub(crate) const FAILED: Answer = Err(Failed);

pub(crate) fn answer_of(disk: &mut impl Disk, call: Call) -> Answer {
    match call {
        Call::Create(segment) => disk.create(smallest(), u64::from(segment))?,
        Call::Write(segment, page, byte) => {
            let page = u32::from(page) % 128;
            disk.write_page(smallest(), u64::from(segment), page, &[byte; 8192])?;
        }
        Call::Sync(segment) => disk.sync(smallest(), u64::from(segment))?,
        Call::Read(segment, page) => return words_of(disk, segment, u32::from(page) % 128),
    }
    Ok(None)
}

fn words_of(disk: &mut impl Disk, segment: u8, page: u32) -> Answer
    requires { page < 128 }
{
    let mut bytes = [0xff; 8192];
    if disk.read_page(smallest(), u64::from(segment), page, &mut bytes)? {
        Ok(Some([bytes[0], bytes[8], bytes[16], bytes[8184]]))
    } else {
        Ok(None)
    }
}

/// Makes the calls one behind another, and compares their answers.
pub(crate) fn play(rt: &impl Abort, disk: &mut impl Disk, calls: &[(Call, Answer)]) {
    for (row, (call, answer)) in calls.iter().enumerate() {
        assert_eq!(rt; answer_of(disk, *call), *answer, "row {row}");
    }
}

/// That a thread may be given the value.
pub(crate) fn crosses_threads<T: Send>(_value: &T) {}
