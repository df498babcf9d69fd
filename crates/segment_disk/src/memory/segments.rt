// Which segments are there, so that a disk knows whether it has room for another one. A segment
// that is made stays: there is no call that removes one.
ghost use Rattle.std.specs.Prelude.{◌≡◌, ℕ, ◌≤◌, ◌<◌, ◌||◌, false, true, [], map, IsTrue, IfOk, IfSome, MatchOption, nat_le, nat_lt, min, is_some, unwrap_or, if◌then◌else◌, vec_capacity, length};
ghost use Rattle.segment_disk.specs.Crash.{first_behind};
ghost use Rattle.segment_disk.specs.Failing.{is_listed as listed};
ghost use Rattle.segment_disk.specs.Present.{with_number};

use crate::memory::Memory;
use crate::memory::first::FirstSegment;
use crate::memory::schedule::is_listed;
use std::alloc::Global;

/// The numbers of the segments that are there.
#[derive(Debug, Drop)]
pub struct SegmentList {
    numbers: Vec<u64>,
    limit: usize,
    ghost roomy: { limit ≤ vec_capacity numbers },
}

impl SegmentList {
    /// Takes room for as many segments as the limit says.
    pub fn new(alloc: Global, limit: usize) -> Result<SegmentList, Memory>
        ensures numbers { IfOk result (λ list. list.numbers.items ≡ []) }
        ensures limit { IfOk result (λ list. list.limit ≡ limit) }
    {
        Ok(SegmentList {
            numbers: Vec::with_capacity(alloc, limit)?,
            limit,
        })
    }

    /// A list of these segments with the same room.
    pub fn list_of(&self, alloc: Global, segments: &[FirstSegment]) -> Result<SegmentList, Memory>
        ensures numbers { IfOk result (λ list. list.numbers.items
            ≡ map (λ segment. segment.number) segments.now) }
        ensures limit { IfOk result (λ list. list.limit ≡ self.now.limit) }
    {
        let mut numbers = Vec::with_capacity(alloc, self.limit)?;
        for segment in segments {
            numbers.push(segment.number)?;
        }
        Ok(SegmentList {
            numbers,
            limit: self.limit,
        })
    }

    /// The least number behind the last one that was met.
    pub fn next_after(&self, last: Option<u64>) -> Option<u64>
        ensures listed { IfSome result
            (λ next. listed self.now.numbers.items next ≡ true) }
        ensures least { MatchOption result
            ((k : ℕ) → first_behind last ≤ k → listed self.now.numbers.items k ≡ false)
            (λ next. (first_behind last ≤ next) × ((k : ℕ) → first_behind last ≤ k → k < next
            → listed self.now.numbers.items k ≡ false)) }
    {
        let mut next = None;
        for &number in &self.numbers {
            if is_behind(number, last) {
                next = Some(least_of(next, number));
            }
        }
        next
    }

    pub fn has(&self, segment: u64) -> bool
        ensures { result ≡ listed self.now.numbers.items segment }
    {
        is_listed(&self.numbers, segment)
    }

    /// Whether a segment is there, or there is room for it.
    pub fn can_hold(&self, segment: u64) -> bool
        ensures { result ≡ (listed self.now.numbers.items segment
            || nat_lt (length self.now.numbers.items) self.now.limit) }
    {
        self.has(segment) || self.numbers.len() < self.limit
    }

    /// Adds a segment where it is not there.
    pub fn insert(&mut self, segment: u64)
        requires { IsTrue (listed self.old.numbers.items segment
            || nat_lt (length self.old.numbers.items) self.old.limit) }
        ensures numbers { self.new.numbers.items ≡ with_number self.old.numbers.items segment }
        ensures limit { self.new.limit ≡ self.old.limit }
    {
        if !self.has(segment) {
            self.numbers.push(segment).unwrap();
        }
    }
}

fn is_behind(number: u64, last: Option<u64>) -> bool
    ensures { result ≡ nat_le (first_behind last) number }
{
    match last {
        Some(last) => last < number,
        None => true,
    }
}

fn least_of(least: Option<u64>, number: u64) -> u64
    ensures { result ≡ (if is_some least then min (unwrap_or least 0) number else number) }
{
    match least {
        Some(least) => least.min(number),
        None => number,
    }
}
