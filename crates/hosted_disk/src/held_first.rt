//! What the host's disk held at first, which clauses alone read.

ghost use Rattle.std.specs.Prelude.{◌≡◌, [], List, Option, None, Some};
ghost use Rattle.std.specs.Borrow.{ftrue};
ghost use Rattle.hosted_disk.specs.HostSegments.{HostSegment, segments_by};

use crate::host_disk::HostDisk;
use handed_pages::HandedPage;
use std::marker::{Brand, Model, PhantomData};

/// Segments, which a call picks for the proof alone.
pub trait PicksSegments {
    ghost segments: { Option (List HostSegment) };
}

impl PicksSegments for Brand {
    ghost segments = { None };
}

struct NoSegments;

impl PicksSegments for NoSegments {
    ghost segments = { Some [] };
}

/// The segments that the host's disk had at first, where it has the pages as they were handed in.
/// It takes no memory: only the proof knows them.
#[derive(Drop)]
pub struct HeldFirst {
    marker: PhantomData<u8>,
    pub ghost segments: { Option (List HostSegment) },
}

impl Model for HeldFirst {
    ghost also_owns = { λ _. ftrue };
}

// It is nothing when it runs, so any thread may have it.
unsafe impl Send for HeldFirst {}

unsafe impl Sync for HeldFirst {}

impl HeldFirst {
    /// Those of a disk that held nothing.
    pub fn nothing() -> HeldFirst
        ensures { result.segments ≡ Some [] }
    {
        HeldFirst::of::<NoSegments>()
    }

    /// Those of this disk, by these pages.
    pub fn by_pages<L: HostDisk>(pages: &[HandedPage]) -> HeldFirst
        ensures { result.segments ≡ segments_by L.segments pages.now }
    {
        HeldFirst::picked::<L, Brand>(pages)
    }

    fn picked<L: HostDisk, B: PicksSegments>(_pages: &[HandedPage]) -> HeldFirst
        ensures { result.segments ≡ B.segments }
    {
        HeldFirst::of::<B>()
    }

    fn of<B: PicksSegments>() -> HeldFirst
        ensures { result.segments ≡ B.segments }
    {
        HeldFirst {
            marker: PhantomData,
        }
    }
}
