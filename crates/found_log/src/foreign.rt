//! Where a log stops as no crash of this program lets one stop. A crash leaves of each word what
//! was written or zeros, so zeros and a wrong CRC are no such sign.

ghost use Rattle.std.specs.Prelude.{◌≡◌};
ghost use Rattle.found_log.specs.Foreign.{is_foreign_kind, is_foreign_page, is_foreign_stop};

use wal_page::PageErr;
use wal_reader::{DamageKind, Stopped};

/// Whether no crash can have left this of a log that this program wrote.
pub(crate) fn is_foreign(stopped: Stopped) -> bool
    ensures { result ≡ is_foreign_stop stopped }
{
    match stopped {
        Stopped::Damaged { at: _, kind } => is_foreign_kind(kind),
        Stopped::Compressed { .. } | Stopped::Overwritten { .. } => true,
    }
}

fn is_foreign_kind(kind: DamageKind) -> bool
    ensures { result ≡ is_foreign_kind kind }
{
    match kind {
        DamageKind::Page(fault) => is_foreign_page(fault),
        DamageKind::Prev { found } => found.0 != 0,
        DamageKind::RemLen { found } => found != 0,
        DamageKind::Missing => false,
        DamageKind::Crc => false,
        DamageKind::Claims => true,
        DamageKind::Length => true,
        DamageKind::Rmgr => true,
        DamageKind::NoContinuation => true,
        DamageKind::Malformed => true,
    }
}

fn is_foreign_page(fault: PageErr) -> bool
    ensures { result ≡ is_foreign_page fault }
{
    match fault {
        PageErr::Magic { found } => found != 0,
        PageErr::SegSize { found } => found != 0,
        PageErr::Address { found } => found.0 != 0,
        PageErr::SysId => false,
        PageErr::Flags { .. } => true,
        PageErr::NoLong => true,
        PageErr::LongInside => true,
        PageErr::PageSize { .. } => true,
        PageErr::Timeline { .. } => true,
    }
}
