ghost use Rattle.std.specs.Prelude.{◌≡◌, ◌*◌, ◌+◌, ◌≤◌, ◌<◌, ◌^◌, SomeIff};
ghost use Rattle.byte_position.specs.Geometry.{IsSegmentSize};
ghost use Rattle.byte_position.specs.Position.{first_position, usable_bytes_in_segment};
ghost use Rattle.machine_state.specs.Sound.{IsSetup};
ghost use Rattle.machine_state.specs.Words.{log_limit, log_start};

use crate::setup::{Setup, is_setup};
use byte_position::{Geometry, LONG_HEADER_LEN, PAGE_SIZE, SHORT_HEADER_LEN};
use std::marker::Model;

/// A log's setup, with what each turn needs of it; contracts see the setup.
#[derive(Drop)]
pub struct LogShape {
    setup: Setup,
    geometry: Geometry,
    // The byte position at which the log is full.
    limit: u64,
}

impl Model for LogShape {
    ghost use Rattle.std.specs.Prelude.{◌≡◌};
    ghost use Rattle.machine_state.specs.Sound.{IsSetup};
    ghost use Rattle.machine_state.specs.Words.{log_limit};
    ghost use Rattle.machine_state.specs.declared.setup.Setup.{Setup};

    ghost Value = { Setup };

    ghost view = { λ s. s.setup };

    ghost invariant = { λ s. IsSetup s.setup × (s.geometry ≡ (s.setup).seg_size)
        × (s.limit ≡ log_limit s.setup) };
}

impl LogShape {
    /// None where a log cannot have this setup.
    pub fn new(setup: Setup) -> Option<LogShape>
        ensures { SomeIff result (IsSetup setup) setup }
    {
        if !is_setup(setup) {
            return None;
        }
        let geometry = Geometry::new(setup.seg_size)?;
        let usable = usable_bytes(setup.seg_size);
        Some(LogShape {
            setup,
            geometry,
            limit: usable + u64::from(setup.cap_segments) * usable,
        })
    }

    pub fn geometry(&self) -> Geometry
        ensures { result ≡ self.now.seg_size }
    {
        self.geometry
    }

    /// The byte position at which the log begins.
    pub fn start(&self) -> u64
        ensures start { result ≡ log_start self.now }
        ensures low { result ≤ log_limit self.now }
    {
        usable_bytes(self.geometry.segment_size())
    }

    /// The byte position at which the log is full.
    pub fn limit(&self) -> u64
        ensures limit { result ≡ log_limit self.now }
        ensures low { result < 2 ^ 43 }
        ensures setup { IsSetup self.now }
    {
        self.limit
    }

    /// How many pages the ring has.
    pub fn ring_pages(&self) -> u32
        ensures pages { result ≡ self.now.ring_pages }
        ensures bounds { (4 ≤ result) × (result ≤ 64) }
    {
        self.setup.ring_pages
    }

    pub fn sysid(&self) -> u64
        ensures { result ≡ self.now.sysid }
    {
        self.setup.sysid
    }

    /// How many passes may ever step with the log.
    pub fn passes(&self) -> u32
        ensures passes { result ≡ self.now.passes }
        ensures bounds { result ≤ 65536 }
    {
        self.setup.passes
    }
}

// How many bytes of a segment are in no header: the byte position at which segment 1 begins.
fn usable_bytes(segment_size: u64) -> u64
    requires { IsSegmentSize segment_size }
    ensures value { result ≡ first_position segment_size }
    ensures usable { result ≡ usable_bytes_in_segment segment_size }
    ensures low { result < 2 ^ 30 }
{
    let pages = segment_size / PAGE_SIZE;
    pages * (PAGE_SIZE - SHORT_HEADER_LEN) - (LONG_HEADER_LEN - SHORT_HEADER_LEN)
}
