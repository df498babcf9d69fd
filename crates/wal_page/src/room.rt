//! What a record takes up in the log (PostgreSQL's ReserveXLogSwitch of xlog.c). A segment switch
//! takes the rest of its segment, whatever stands there.

ghost use Rattle.std.specs.Prelude.{◌≡◌, ◌%◌, ◌^◌, ◌<◌};
ghost use Rattle.wal_page.specs.Order.{assembled_room_at, next_segment};

use byte_position::Geometry;
use wal_spelling::Body;
use wal_types::Lsn;

/// The first byte position of the segment behind the one in which a byte position's byte stands.
pub fn next_segment(geometry: Geometry, position: u64) -> u64
    requires { position < 2 ^ 61 }
    ensures { result ≡ next_segment geometry position }
{
    let size = geometry.segment_size();
    let segment = geometry.to_lsn(position).0 / size;
    geometry.position_of(Lsn(size * (segment + 1)))
}

/// How many bytes of the log a record takes up that starts at a byte position: its own, and behind
/// a switch all that are left of its segment. Only a switch asks where its segment ends.
#[inline(always)]
pub fn room_at(geometry: Geometry, start: u64, body: &Body) -> u64
    requires whole { start % 8 ≡ 0 }
    requires bound { start < 2 ^ 60 }
    ensures { result ≡ assembled_room_at geometry start body.now }
{
    if body.is_switch() {
        next_segment(geometry, start + u64::from(body.len()) - 1) - start
    } else {
        u64::from(body.room())
    }
}
