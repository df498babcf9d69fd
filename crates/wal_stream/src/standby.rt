//! A standby of a log, on any disk.

ghost use Rattle.std.specs.Prelude.{◌≡◌};
ghost use Rattle.flush_core.specs.Writer.{writer_segment_size};

mod accepting;
mod opening;

use byte_position::{Geometry, Page};
use flush_core::Writer;
pub use opening::StandbyFault;

/// A log that is kept as a copy of one elsewhere. It stands at the end of what it has, and goes on
/// page by page.
///
/// Once the disk has failed no further device call is made, and the same fault is told again.
#[derive(Drop)]
pub struct Standby<D> {
    writer: Writer<D>,
    geometry: Geometry,
    /// The last segment that it may have.
    cap: u32,
    /// The page in which its log ends: the words below the end are the log's.
    page: Box<Page>,
    ghost sized: { writer_segment_size writer ≡ geometry },
}
