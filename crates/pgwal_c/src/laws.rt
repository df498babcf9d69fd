// What a program in C may count on, proved by a function that does nothing.
ghost use denote.Param.Send.{IsSend};
ghost use Rattle.pgwal_c.specs.contracts.session_handle.SessionHandle as session_handle;
ghost use Rattle.pgwal_c.specs.contracts.disk_handle.DiskHandle as disk_handle;
ghost use Rattle.pgwal_c.specs.contracts.reader_handle.ReaderHandle as reader_handle;

use crate::reader_handle::ReaderHandle;

fn may_cross<T: Send>()
    ensures { IsSend T.row }
{}

/// Each handle may be handed to another thread.
pub fn handles_may_cross()
    ensures session { IsSend session_handle.the_row }
    ensures disk { IsSend disk_handle.the_row }
    ensures reader { IsSend reader_handle.the_row }
{
    may_cross::<ReaderHandle>();
}
