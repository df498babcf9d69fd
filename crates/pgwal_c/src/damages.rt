//! The kinds of damage by number. The header of the bindings has the same table.
ghost use Rattle.std.specs.Prelude.{◌≡◌};
ghost use Rattle.pgwal_c.specs.ReaderTold.{stop_address};

use wal_page::PageErr;
use wal_reader::{DamageKind, Stopped};
use wal_types::Lsn;

fn page_number(fault: PageErr) -> u32 {
    match fault {
        PageErr::Magic { .. } => 1,
        PageErr::Flags { .. } => 2,
        PageErr::NoLong => 3,
        PageErr::LongInside => 4,
        PageErr::SegSize { .. } => 5,
        PageErr::PageSize { .. } => 6,
        PageErr::SysId => 7,
        PageErr::Address { .. } => 8,
        PageErr::Timeline { .. } => 9,
    }
}

fn kind_number(kind: DamageKind) -> u32 {
    match kind {
        DamageKind::Page(fault) => page_number(fault),
        DamageKind::Claims => 10,
        DamageKind::Length => 11,
        DamageKind::Rmgr => 12,
        DamageKind::Prev { .. } => 13,
        DamageKind::Missing => 14,
        DamageKind::NoContinuation => 15,
        DamageKind::RemLen { .. } => 16,
        DamageKind::Crc => 17,
        DamageKind::Malformed => 18,
    }
}

/// Where a log stopped, and by which damage.
pub fn damage_number(stopped: Stopped) -> (Lsn, u32)
    ensures { (result.0).0 ≡ stop_address stopped }
{
    match stopped {
        Stopped::Damaged { at, kind } => (at, kind_number(kind)),
        Stopped::Compressed { at } => (at, 19),
        Stopped::Overwritten { at } => (at, 20),
    }
}
