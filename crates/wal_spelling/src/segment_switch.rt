//! The record of a segment switch (PostgreSQL's XLOG_SWITCH).

ghost use Rattle.std.specs.Prelude.{◌≡◌};
ghost use Rattle.wal_types.specs.declared.record.Record.{Record};
ghost use Rattle.wal_spelling.specs.Record.{ends_segment, is_switch};

use crate::layout::{SWITCH_INFO, XLOG_RMID};
use wal_types::Record;

/// Whether the record ends its segment. None that does is assembled: a switch is asked for as such.
pub fn is_switch(r: &Record) -> bool
    ensures { result ≡ is_switch r.now }
{
    ends_segment(r.rmid, r.info)
}

/// Whether a record of this manager and info ends its segment. The info's low half says nothing of
/// what it is.
pub fn ends_segment(rmid: u8, info: u8) -> bool
    ensures { result ≡ ends_segment rmid info }
{
    rmid == XLOG_RMID && info >> 4 == SWITCH_INFO >> 4
}
