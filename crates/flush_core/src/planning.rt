// What settles a log is planned by reads alone: which pages have words to be cleared, and which
// segments are synced again behind that. All memory that settling needs is taken here, and how many
// calls it makes is known before the first of them.
ghost use Rattle.std.specs.Prelude.{◌≡◌, ℕ, ◌/◌, ◌^◌, ◌<◌, ◌≤◌, ◌++◌, ◌∷◌, ◌==◌, All, [], not, drop, IfErr, IfOk, IfSome, OnErr, OnOk, if◌then◌else◌};
ghost use Rattle.std.specs.List.{filter, list_any};
ghost use Rattle.byte_position.specs.Geometry.{IsSegmentSize, pages_of};
ghost use Rattle.segment_disk.specs.Cause.{HasCause};
ghost use Rattle.segment_disk.specs.Tape.{IsUncalled, state_now};
ghost use Rattle.flush_core.specs.Settled.{AreAllThere, kept_of};
ghost use Rattle.flush_core.specs.PlannedPages.{ArePlanned, HasPlanCause, IsPageOf, is_to_clear, planned_in};
ghost use Rattle.flush_core.specs.declared.settling.SettleFault.TheVariants.{Memory};

use crate::settling::{SettleFault, settle_planned};
use byte_position::{Geometry, PAGE_SIZE, Page};
use segment_disk::{Disk, Failed};
use std::alloc::Global;
use wal_types::Lsn;

const ADDRESS_LIMIT: u64 = 1 << 60;

/// A page of a segment that is cleared from a byte on.
#[derive(Clone, Copy)]
pub(crate) struct PlannedPage {
    pub segment: u64,
    pub page: u32,
    pub from: usize,
}

/// What settles a log that a crash left, found by reads alone.
#[derive(Drop)]
pub struct SettlePlan {
    geometry: Geometry,
    /// The last segment that is there, 0 where none is.
    count: u64,
    /// The pages to clear, in order.
    pages: Vec<PlannedPage>,
    /// The segments to sync again behind that.
    segments: Vec<u64>,
    ghost counted: { count < 2 ^ 60 },
    ghost there: { count < 2 ^ 64 / geometry },
    ghost cleared: { All (IsPageOf geometry) pages.items },
    ghost synced: { All (λ segment. segment < 2 ^ 64 / geometry) segments.items },
}

impl SettlePlan {
    ghost use Rattle.std.specs.Prelude.{◌+◌, Option};
    ghost use Rattle.segment_disk.specs.Tape.{Tape};
    ghost use Rattle.flush_core.specs.Settled.{HasNotSettled, HasSettled, TellsSettleFault};
    ghost use Rattle.flush_core.specs.Planned.{IsPlanOf, call_count};

    /// Plans what settles a log that was found to end at an address, of which the segments from 1
    /// to `count` are there. It only reads the disk. `page` is room for a page.
    pub fn of<D: Disk>(
        alloc: Global,
        disk: &mut D,
        geometry: Geometry,
        end: Lsn,
        count: u64,
        page: &mut Page,
    ) -> Result<SettlePlan, SettleFault>
        requires there { IfSome (D.tape disk.old)
            (λ t. AreAllThere geometry (state_now t) count) }
        requires bound { (count < 2 ^ 64 / geometry) × (count < 2 ^ 60) }
        ensures planned { IfOk result (IsPlanOf geometry end.0 count (D.tape disk.old)) }
        ensures uncalled { IsUncalled D.tape D.moment disk.old disk.new }
        ensures fault { IfErr result (λ fault. TellsSettleFault (D.tape disk.old)
            (D.tape disk.new) (D.moment disk.old) (D.moment disk.new) (D.faults disk.old)
            (D.faults disk.new) fault) }
        ensures no_fault { OnOk result (D.faults disk.new ≡ D.faults disk.old) }
    {
        let mut pages = Vec::new(alloc);
        let mut segments = Vec::new(alloc);
        plan_segments(disk, geometry, count, end, page, &mut pages, &mut segments)?;
        Ok(SettlePlan {
            geometry,
            count,
            pages,
            segments,
        })
    }

    /// The last segment that is there, 0 where none is.
    pub fn count(&self) -> u64
        ensures { (size end count : ℕ) (tape : Option Tape) → IsPlanOf size end count tape self.now
            → result ≡ count }
    {
        self.count
    }

    /// The disk's moment behind the planned calls, where they begin at this one. Where that is no
    /// `u64` they cannot all be made, and it answers the greatest one.
    pub fn moment_behind(&self, moment: u64) -> u64
        ensures { moment + call_count self.now < 2 ^ 64 → result ≡ moment + call_count self.now }
    {
        moment
            .saturating_add(self.count)
            .saturating_add(self.pages.len() as u64)
            .saturating_add(self.segments.len() as u64)
    }

    /// Makes the planned calls. At Ok the log is settled, if the disk is as it was read; the first
    /// call that fails ends it. `page` is room for a page.
    pub fn settle<D: Disk>(&self, disk: &mut D, page: &mut Page) -> Result<(), Failed>
        ensures settled { (size end count : ℕ) → IsPlanOf size end count (D.tape disk.old) self.now
            → OnOk result (HasSettled size end count (D.tape disk.old) (D.tape disk.new)
            (D.moment disk.old) (D.moment disk.new)) }
        ensures stopped { (size end count : ℕ) → IsPlanOf size end count (D.tape disk.old) self.now
            → OnErr result (HasNotSettled size end (D.tape disk.old) (D.tape disk.new)
            (D.moment disk.old) (D.moment disk.new)) }
        ensures counted { OnOk result
            (D.moment disk.new ≡ D.moment disk.old + call_count self.now) }
        ensures cause { HasCause (D.faults disk.old) (D.faults disk.new) result }
    {
        settle_planned(
            disk,
            self.geometry,
            self.count,
            &self.pages,
            &self.segments,
            page,
        )
    }
}

/// How many segments are there, from 1 up to the first that is not. `page` is room for a page.
pub fn count_segments<D: Disk>(
    disk: &mut D,
    geometry: Geometry,
    page: &mut Page,
) -> Result<u64, Failed>
    ensures there { IfOk result (λ count. IfSome (D.tape disk.old)
        (λ t. AreAllThere geometry (state_now t) count)) }
    ensures bound { IfOk result (λ count. (count < 2 ^ 64 / geometry) × (count < 2 ^ 60)) }
    ensures valid { IsSegmentSize geometry }
    ensures uncalled { IsUncalled D.tape D.moment disk.old disk.new }
    ensures cause { HasCause (D.faults disk.old) (D.faults disk.new) result }
{
    let limit = ADDRESS_LIMIT / geometry.segment_size();
    for segment in 1..limit {
        if !disk.read_page(geometry, segment, 0, page)? {
            return Ok(segment - 1);
        }
    }
    Ok(limit - 1)
}

// Plans the segments from 1 to `count`: puts the pages to clear and the segments to sync again
// into the lists, which have none yet.
fn plan_segments<D: Disk>(
    disk: &mut D,
    geometry: Geometry,
    count: u64,
    end: Lsn,
    bytes: &mut Page,
    pages: &mut Vec<PlannedPage>,
    segments: &mut Vec<u64>,
) -> Result<(), SettleFault>
    requires there { IfSome (D.tape disk.old)
        (λ t. AreAllThere geometry (state_now t) count) }
    requires count { count < 2 ^ 64 / geometry }
    requires no_pages { pages.old.items ≡ [] }
    requires no_segments { segments.old.items ≡ [] }
    ensures planned { OnOk result (ArePlanned geometry end.0 count (D.tape disk.old)
        pages.new.items segments.new.items) }
    ensures cleared { OnOk result (All (IsPageOf geometry) pages.new.items) }
    ensures synced { OnOk result (All (λ segment. segment < 2 ^ 64 / geometry) segments.new.items) }
    ensures uncalled { IsUncalled D.tape D.moment disk.old disk.new }
    ensures cause { HasPlanCause (D.faults disk.old) (D.faults disk.new) result }
{
    for before in 0..count {
        let planned = pages.len();
        plan_segment(disk, geometry, before + 1, end, bytes, pages)?;
        put_if(segments, before + 1, planned < pages.len())?;
    }
    Ok(())
}

// How many bytes of a segment lie below an address.
fn bytes_below(geometry: Geometry, segment: u64, end: Lsn) -> u64
    requires { segment < 2 ^ 64 / geometry }
    ensures { result ≡ kept_of geometry end.0 segment }
{
    end.0.saturating_sub(segment * geometry.segment_size())
}

// Puts the pages of a segment that are to be cleared into the list.
fn plan_segment<D: Disk>(
    disk: &mut D,
    geometry: Geometry,
    segment: u64,
    end: Lsn,
    bytes: &mut Page,
    pages: &mut Vec<PlannedPage>,
) -> Result<(), SettleFault>
    requires segment { segment < 2 ^ 64 / geometry }
    requires pages { All (IsPageOf geometry) pages.old.items }
    ensures planned { OnOk result (IfSome (D.tape disk.old) (λ t.
        pages.new.items ≡ pages.old.items ++ planned_in geometry end.0 (state_now t) segment)) }
    ensures pages { OnOk result (All (IsPageOf geometry) pages.new.items) }
    ensures uncalled { IsUncalled D.tape D.moment disk.old disk.new }
    ensures cause { HasPlanCause (D.faults disk.old) (D.faults disk.new) result }
{
    let kept = bytes_below(geometry, segment, end);
    let count = u64::from(geometry.pages());
    let first = (kept / PAGE_SIZE).min(count);
    for number in first..count {
        let from = (kept.saturating_sub(number * PAGE_SIZE) as usize).next_multiple_of(8);
        let page = number as u32;
        plan_page(
            disk,
            geometry,
            PlannedPage {
                segment,
                page,
                from,
            },
            bytes,
            pages,
        )?;
    }
    Ok(())
}

// Puts a page into the list, if it is to be cleared.
fn plan_page<D: Disk>(
    disk: &mut D,
    geometry: Geometry,
    page: PlannedPage,
    bytes: &mut Page,
    pages: &mut Vec<PlannedPage>,
) -> Result<(), SettleFault>
    requires page { IsPageOf geometry page }
    requires pages { All (IsPageOf geometry) pages.old.items }
    ensures planned { OnOk result (IfSome (D.tape disk.old) (λ t.
        pages.new.items
        ≡ pages.old.items ++ filter (is_to_clear geometry (state_now t)) (page ∷ []))) }
    ensures pages { OnOk result (All (IsPageOf geometry) pages.new.items) }
    ensures uncalled { IsUncalled D.tape D.moment disk.old disk.new }
    ensures cause { HasPlanCause (D.faults disk.old) (D.faults disk.new) result }
{
    match is_to_clear(disk, geometry, page, bytes) {
        Ok(is_put) => put_if(pages, page, is_put),
        Err(_) => Err(SettleFault::Disk {
            faults: disk.faults(),
        }),
    }
}

// Whether a page has a byte that is not 0 from its place on.
fn is_to_clear<D: Disk>(
    disk: &mut D,
    geometry: Geometry,
    page: PlannedPage,
    bytes: &mut Page,
) -> Result<bool, Failed>
    requires { IsPageOf geometry page }
    ensures found { IfOk result (λ found. IfSome (D.tape disk.old) (λ t.
        found ≡ is_to_clear geometry (state_now t) page)) }
    ensures uncalled { IsUncalled D.tape D.moment disk.old disk.new }
    ensures cause { HasCause (D.faults disk.old) (D.faults disk.new) result }
{
    if !disk.read_page(geometry, page.segment, page.page, bytes)? {
        return Ok(false);
    }
    Ok(has_nonzero(&bytes[page.from..]))
}

fn has_nonzero(bytes: &[u8]) -> bool
    ensures { result ≡ list_any (λ b. not (b == 0)) bytes.now }
{
    bytes.iter().any(|&byte| byte != 0)
}

// Puts an item behind those of a list, or leaves the list as it is.
fn put_if<T: Copy>(list: &mut Vec<T>, item: T, is_put: bool) -> Result<(), SettleFault>
    ensures put { OnOk result
        (list.new.items ≡ list.old.items ++ (if is_put then item ∷ [] else [])) }
    ensures memory { IfErr result (λ fault. fault ≡ Memory) }
{
    if is_put && list.push(item).is_err() {
        return Err(SettleFault::Memory);
    }
    Ok(())
}
