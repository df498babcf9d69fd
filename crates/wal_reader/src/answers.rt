//! What is told where no record stands: the log's end, or the first check that fails, with the
//! address at which it was met.

ghost use Rattle.std.specs.Prelude.{◌≡◌, ◌↔◌, ◌^◌, ◌<◌, IsTrue, option_map};
ghost use Rattle.byte_position.specs.Position.{address_of};
ghost use Rattle.wal_reader.specs.Decodes.{damaged, ended, is_at_end};
ghost use Rattle.wal_reader.specs.RecordPlace.{IsOutOfReach};

use crate::found::{Answer, DamageKind, Stopped};
use byte_position::Geometry;
use wal_types::Lsn;

// Nothing that stands from address 2^60 on is read.
const ADDRESSES_READ: u64 = 1 << 60;

/// The log ends at a byte position.
pub(crate) fn end_of_log(geometry: Geometry, position: u64) -> Answer
    requires { position < 2 ^ 60 }
    ensures { result ≡ ended geometry position }
{
    Answer::End {
        at: geometry.to_end_lsn(position),
    }
}

/// Whether an end was given and a byte position's address is not below it.
pub(crate) fn reaches_end(geometry: Geometry, position: u64, end: Option<Lsn>) -> bool
    requires { position < 2 ^ 61 }
    ensures { result ≡ is_at_end (option_map (λ end. end.0) end) (address_of geometry position) }
{
    match end {
        None => false,
        Some(end) => end.0 <= geometry.to_lsn(position).0,
    }
}

/// Whether nothing is read at a byte position: a given end is reached, or the last address that is
/// read.
#[inline(never)]
pub(crate) fn is_out_of_reach(geometry: Geometry, position: u64, end: Option<Lsn>) -> bool
    requires { position < 2 ^ 60 }
    ensures { IsTrue result ↔ IsOutOfReach geometry (option_map (λ end. end.0) end) position }
{
    reaches_end(geometry, position, end) || geometry.to_lsn(position).0 >= ADDRESSES_READ
}

/// A check failed of the page or the record at an address.
pub(crate) fn damaged(at: Lsn, kind: DamageKind) -> Answer
    ensures { result ≡ damaged at.0 kind }
{
    Answer::Stopped(Stopped::Damaged { at, kind })
}
