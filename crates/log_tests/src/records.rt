//! Records that tests insert.

ghost use Rattle.std.specs.Prelude.{◌≡◌, false, IfOk};
ghost use Rattle.wal_spelling.specs.Spelling.{is_assembled_switch};

use std::alloc::Global;
use std::test::Fail;
use wal_spelling::Body;
use wal_types::{BlockList, Bytes, Record, Xid};

/// A heap's record of a transaction with so many bytes of main data: up to 255 of them stand behind
/// a header of 24 bytes and one of 2, more behind one of 5.
pub fn record(alloc: Global, xid: u32, len: usize) -> Result<Body<'static>, Fail>
    ensures inserted { IfOk result (λ body. is_assembled_switch body ≡ false) }
{
    let record = Record {
        xid: Xid(xid),
        rmid: 10,
        info: 0,
        origin: None,
        top_xid: None,
        blocks: BlockList::of(Vec::new(alloc)),
        main: Bytes::of(vec![in alloc; 0x5a; len]?),
    };
    Ok(Body::assemble(alloc, &record)?)
}
