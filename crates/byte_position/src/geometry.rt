ghost use Rattle.std.specs.Prelude.{◌≡◌, ℕ, ◌+◌, ◌*◌, ◌/◌, ◌^◌, ◌<◌, ◌≤◌, SomeIff};
ghost use Rattle.byte_position.specs.Geometry.{IsSegmentSize, file_name, pages_of};

use crate::layout::{PAGE_SIZE, TIMELINE};
use std::marker::Model;
use wal_types::upper_hexadecimal;

const MIN_SEGMENT_SIZE: u64 = 1 << 20;

const MAX_SEGMENT_SIZE: u64 = 1 << 30;

/// The size of a log's segments, seen by contracts as that number of bytes.
#[derive(Clone, Copy, Debug, PartialEq, Eq)]
pub struct Geometry {
    segment_size: u64,
}

impl Model for Geometry {
    ghost use Rattle.std.specs.Prelude.{ℕ};
    ghost use Rattle.byte_position.specs.Geometry.{IsSegmentSize};

    ghost Value = { ℕ };

    ghost view = { λ g. g.segment_size };

    ghost invariant = { λ g. IsSegmentSize g.segment_size };

    ghost inverse = { λ size. record { segment_size = size } };
}

impl Geometry {
    /// None where the size is no power of two from 1 MiB to 1 GiB (PostgreSQL's
    /// `IsValidWalSegSize`).
    pub fn new(segment_size: u64) -> Option<Geometry>
        ensures { SomeIff result (IsSegmentSize segment_size) segment_size }
    {
        match segment_size {
            MIN_SEGMENT_SIZE..=MAX_SEGMENT_SIZE if segment_size.is_power_of_two() => {
                Some(Geometry { segment_size })
            }
            _ => None,
        }
    }

    /// A segment's size in bytes.
    pub fn segment_size(self) -> u64
        ensures value { result ≡ self }
        ensures valid { IsSegmentSize result }
    {
        self.segment_size
    }

    /// How many pages a segment has.
    pub fn pages(self) -> u32
        ensures value { result ≡ pages_of self }
        ensures whole { 8192 * result ≡ self }
        ensures bound { (128 ≤ result) × (result ≤ 131072) }
    {
        (self.segment_size / PAGE_SIZE) as u32
    }

    /// The name of a segment's file, in ASCII (PostgreSQL's `XLogFileName`).
    pub fn file_name(&self, segment: u64) -> [u8; 24]
        requires { segment < 2 ^ 64 / self.now }
        ensures { result ≡ file_name self.now segment }
    {
        let segments_in_part = (1 << 32) / self.segment_size;
        let mut name = [b'0'; 24];
        name[..8].copy_from_slice(&upper_hexadecimal(TIMELINE));
        name[8..16].copy_from_slice(&upper_hexadecimal((segment / segments_in_part) as u32));
        name[16..].copy_from_slice(&upper_hexadecimal((segment % segments_in_part) as u32));
        name
    }
}

/// A law: a segment's size is a power of two, and some whole pages.
pub fn segment_sizes_are_whole_pages()
    ensures power { (size : ℕ) → IsSegmentSize size
        → (k : ℕ) × (20 ≤ k) × (k ≤ 30) × (size ≡ 2 ^ k) }
    ensures whole { (size : ℕ) → IsSegmentSize size → size ≡ 8192 * pages_of size }
    ensures bounds { (size : ℕ) → IsSegmentSize size → (2 ^ 20 ≤ size) × (size ≤ 2 ^ 30) }
    ensures pages { (size : ℕ) → IsSegmentSize size → 128 ≤ pages_of size }
{}
