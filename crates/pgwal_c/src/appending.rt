// An append that goes on until its record is whole: a copy stops where another session is in the
// midst of one, or where the page to be replaced is not written, which the session then writes.
ghost use Rattle.std.specs.Prelude.{◌≡◌, false};
ghost use Rattle.wal_spelling.specs.Spelling.{is_assembled_switch};
ghost use Rattle.embedded_log.specs.Appended.{AnswersAppend};
ghost use Rattle.embedded_log.specs.Sessions.{IsOpenSession};

use crate::said::ProgramSaid;
use embedded_log::{Append, LogSession};
use wal_spelling::Body;

// As `LogSession::append` tells it. So many tries as leave a record on its way never come.
pub(crate) fn append_whole<'a>(
    session: LogSession<ProgramSaid>,
    body: &'a Body<'a>,
) -> Append<'a, ProgramSaid>
    requires kept { IsOpenSession session }
    requires inserted { is_assembled_switch body.now ≡ false }
    ensures { AnswersAppend body.now session result }
{
    let mut answer = session.append(body);
    for _ in 0..u64::MAX {
        match answer {
            Append::Going(going) => answer = going.go_on(),
            told => return told,
        }
    }
    answer
}
