//! What the backends are to do. No record ends its segment, which a core asks of its lines.

ghost use Rattle.std.specs.Prelude.{◌≡◌, false, All, IfOk};
ghost use Rattle.wal_spelling.specs.Spelling.{is_assembled_switch};
ghost use Rattle.wal_core.specs.Lines.{InsertsNoSwitch};

use std::alloc::Global;
use wal_core::{Line, Script};
use wal_spelling::{Body, BodyErr};
use wal_types::{BlockList, Bytes, Record, Xid};

pub const BACKENDS: u32 = 8;

const LINES: u32 = 400;

/// For each backend inserts of records of 40 bytes, each fiftieth a commit's.
pub fn scripts(alloc: Global) -> Result<Vec<Script>, BodyErr>
    ensures { IfOk result (λ scripts. All (All InsertsNoSwitch) scripts.items) }
{
    let mut scripts = Vec::new(alloc);
    for _ in 0..BACKENDS {
        scripts.push(script(alloc)?)?;
    }
    Ok(scripts)
}

fn script(alloc: Global) -> Result<Script, BodyErr>
    ensures { IfOk result (λ script. All InsertsNoSwitch script) }
{
    let mut lines = Vec::new(alloc);
    for number in 0..LINES {
        lines.push(line(alloc, number)?)?;
    }
    Ok(Script::of(lines))
}

fn line(alloc: Global, number: u32) -> Result<Line, BodyErr>
    ensures { IfOk result InsertsNoSwitch }
{
    if number % 50 == 49 {
        Ok(Line::Commit(body(alloc, 1, 8)?))
    } else {
        Ok(Line::Insert(body(alloc, 10, 14)?))
    }
}

fn body(alloc: Global, rmid: u8, len: usize) -> Result<Body<'static>, BodyErr>
    ensures { IfOk result (λ body. is_assembled_switch body ≡ false) }
{
    let record = Record {
        xid: Xid(1),
        rmid,
        info: 0,
        origin: None,
        top_xid: None,
        blocks: BlockList::of(Vec::new(alloc)),
        main: Bytes::of(vec![in alloc; 0x5a; len]?),
    };
    Body::assemble(alloc, &record)
}
