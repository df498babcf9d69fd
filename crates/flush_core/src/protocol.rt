// What a writer of the log's pages calls next (PostgreSQL's xlog.c, XLogWrite): the one rule by
// which every writer here goes on, whether the disk is its own or shared, or only played.
ghost use Rattle.std.specs.Prelude.{◌≡◌, ◌+◌, ◌*◌, ◌<◌, ◌≤◌};
ghost use Rattle.byte_position.specs.Geometry.{IsSegmentSize};
ghost use Rattle.flush_core.specs.Calls.{is_create, maybe, next_behind, next_call, to_sync};

use byte_position::Geometry;

/// The call on a writer's way to a page of a segment.
#[derive(Clone, Copy)]
pub enum NextCall {
    /// Writes to this segment wait for a sync, which comes before any other segment is made or
    /// written. So one sync makes all durable that is written.
    Sync(u64),
    /// The page's segment is not there yet: it is made.
    Create,
    /// The page can be written.
    Write,
}

impl NextCall {
    /// Whether a segment is made.
    pub fn creates(self) -> bool
        ensures { result ≡ is_create self }
    {
        matches!(self, NextCall::Create)
    }

    /// The segment that is synced, where that is what is called.
    pub fn to_sync(self) -> Option<u64>
        ensures { result ≡ to_sync self }
    {
        match self {
            NextCall::Sync(segment) => Some(segment),
            NextCall::Create | NextCall::Write => None,
        }
    }
}

/// What comes next on the way to a page of a segment, where the segments up to `made` are there,
/// and writes to the one that is told wait for a sync.
pub fn next_call(made: u64, waiting: Option<u64>, segment: u64) -> NextCall
    ensures { result ≡ next_call made (maybe waiting) segment }
{
    match waiting {
        Some(other) if other != segment || made < segment => NextCall::Sync(other),
        _ if made < segment => NextCall::Create,
        _ => NextCall::Write,
    }
}

/// What comes next behind a page that was written up to an address: the next byte is on the way. It
/// lies in another segment where this one ends there, which is then synced.
pub fn next_behind(geometry: Geometry, page: u64, upto: u64) -> NextCall
    requires begun { page * 8192 < upto }
    requires within { upto ≤ (page + 1) * 8192 }
    ensures next { result ≡ next_behind geometry page upto }
    ensures valid { IsSegmentSize geometry }
{
    let segment = page / u64::from(geometry.pages());
    next_call(segment, Some(segment), upto / geometry.segment_size())
}
