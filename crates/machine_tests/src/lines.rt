//! Lines that backends are to do, and the records that a crash leaves of them. No line's record
//! ends its segment, which a core asks of its lines.

ghost use Rattle.std.specs.Prelude.{◌≡◌, false, All, IfOk};
ghost use Rattle.wal_spelling.specs.Spelling.{is_assembled_switch};
ghost use Rattle.wal_core.specs.Lines.{InsertsNoSwitch};

use crate::played::Played;
use byte_position::Geometry;
use segment_disk::Pick;
use std::alloc::{AllocError, Global};
use std::test::Fail;
use wal_core::{Line, Script};
use wal_reader::{ReadErr, Reader, Step};
use wal_spelling::Body;
use wal_types::{BlockList, Bytes, Lsn, Record, Xid};

#[derive(Clone, Copy)]
pub enum Ask {
    Insert,
    Commit,
    Flush,
}

/// What a line asks for, and the manager, the transaction and how many bytes of main data its
/// record has, if it has one.
#[derive(Clone, Copy)]
pub struct Planned {
    pub ask: Ask,
    pub rmid: u8,
    pub xid: u32,
    pub len: usize,
}

impl Planned {
    pub fn body(self, alloc: Global) -> Result<Body<'static>, Fail>
        ensures { IfOk result (λ body. is_assembled_switch body ≡ false) }
    {
        let record = Record {
            xid: Xid(self.xid),
            rmid: self.rmid,
            info: 0,
            origin: None,
            top_xid: None,
            blocks: BlockList::of(Vec::new(alloc)),
            main: Bytes::of(data(alloc, self.xid, self.len)?),
        };
        Ok(Body::assemble(alloc, &record)?)
    }

    /// Whether it asks that the backend's records be durable.
    pub fn flushes(self) -> bool {
        matches!(self.ask, Ask::Commit | Ask::Flush)
    }

    fn line(self, alloc: Global) -> Result<Line, Fail>
        ensures { IfOk result InsertsNoSwitch }
    {
        match self.ask {
            Ask::Insert => Ok(Line::Insert(self.body(alloc)?)),
            Ask::Commit => Ok(Line::Commit(self.body(alloc)?)),
            Ask::Flush => Ok(Line::Flush),
        }
    }
}

// So many bytes that are others in each word, and for each transaction.
fn data(alloc: Global, xid: u32, len: usize) -> Result<Vec<u8>, AllocError> {
    let mut bytes = Vec::with_capacity(alloc, len)?;
    let mut state = xid;
    for _ in 0..len {
        state = state.wrapping_mul(1_664_525).wrapping_add(1_013_904_223);
        let [_, _, _, byte] = state.to_le_bytes();
        bytes.push(byte)?;
    }
    Ok(bytes)
}

/// The scripts of backends, each of which has one of these plans.
pub fn scripts_of(alloc: Global, plans: &[&[Planned]]) -> Result<Vec<Script>, Fail>
    ensures { IfOk result (λ scripts. All (All InsertsNoSwitch) scripts.items) }
{
    let mut scripts = Vec::new(alloc);
    for plan in plans {
        scripts.push(script_of(alloc, plan)?)?;
    }
    Ok(scripts)
}

fn script_of(alloc: Global, plan: &[Planned]) -> Result<Script, Fail>
    ensures { IfOk result (λ script. All InsertsNoSwitch script) }
{
    let mut lines = Vec::new(alloc);
    for planned in plan {
        lines.push(planned.line(alloc)?)?;
    }
    Ok(Script::of(lines))
}

/// A record that was read: its transaction, where it starts, and how many bytes of main data it
/// has.
pub type Found = (u32, u64, usize);

/// The records, at most a thousand, that are read from the disk that a crash leaves now.
pub fn records_left(alloc: Global, core: &Played, pick: Pick) -> Result<Vec<Found>, Fail> {
    let geometry = Geometry::new(1 << 20).ok_or("1 MiB is a segment's size")?;
    let mut disk = core.crash(alloc, pick)?;
    let mut reader = Reader::new(geometry, Lsn(1 << 20), None);
    let mut found = Vec::new(alloc);
    for _ in 0..1000 {
        match reader.next(alloc, &mut disk) {
            Ok(Step::Record { start, value, .. }) => {
                found.push((value.xid.0, start.0, value.main.as_slice().len()))?;
            }
            Ok(Step::End { .. }) | Err(ReadErr::Stopped(_)) => return Ok(found),
            Err(_) => return Err(Fail::from("a disk that reads")),
        }
    }
    Err(Fail::from("at most a thousand records"))
}
