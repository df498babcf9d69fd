//! What a log of many backends is made with, and which setups a log can have.

ghost use Rattle.std.specs.Prelude.{◌≡◌, true, false};
ghost use Rattle.machine_state.specs.Sound.{IsSetup};

use byte_position::Geometry;

/// The sizes of a log, fixed when it is opened: the size of a segment in bytes, how many pages its
/// ring has, how many segments the log may fill, the system id that its pages name, and how many
/// passes may ever step with it.
#[derive(Clone, Copy)]
pub struct Setup {
    pub seg_size: u64,
    pub ring_pages: u32,
    pub cap_segments: u32,
    pub sysid: u64,
    pub passes: u32,
}

/// Whether a log can have this setup: segments of a power of two bytes from 1 MiB to 1 GiB, a ring
/// of 4 to 64 pages, 1 to 4,096 segments, a system id that is not 0, and 1 to 65,536 passes.
pub fn is_setup(setup: Setup) -> bool
    ensures allowed { result ≡ true → IsSetup setup }
    ensures others { IsSetup setup → result ≡ true }
{
    Geometry::new(setup.seg_size).is_some()
        && matches!(setup.ring_pages, 4..=64)
        && matches!(setup.cap_segments, 1..=4096)
        && setup.sysid != 0
        && matches!(setup.passes, 1..=65536)
}
