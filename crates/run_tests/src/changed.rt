//! Bytes of a disk's log, changed where it lies.
ghost use Rattle.std.specs.Prelude.{◌≡◌, ◌<◌, ◌≤◌, ◌^◌, ◌/◌};

use byte_position::{Geometry, PAGE_SIZE, Page};
use segment_disk::{Disk, MemDisk};
use std::test::Fail;

const SEGMENT_SIZE: u64 = 1 << 20;

const PAGE_BYTES: usize = PAGE_SIZE as usize;

fn geometry() -> Geometry
    ensures { result ≡ 1048576 }
{
    match Geometry::new(SEGMENT_SIZE) {
        Some(geometry) => geometry,
        None => unreachable!(),
    }
}

fn segment_of(at: u64) -> u64
    ensures { result < 2 ^ 64 / 1048576 }
{
    at / SEGMENT_SIZE
}

fn page_of(at: u64) -> u32
    ensures { result < 128 }
{
    (at % SEGMENT_SIZE / PAGE_SIZE) as u32
}

fn offset_of(at: u64) -> usize
    ensures { result < 8192 }
{
    (at % PAGE_SIZE) as usize
}

/// The page that has an address, if it is there.
pub fn page_at(disk: &mut MemDisk, at: u64) -> Result<Page, Fail> {
    let mut page = [0; PAGE_BYTES];
    match disk.read_page(geometry(), segment_of(at), page_of(at), &mut page) {
        Ok(true) => Ok(page),
        _ => Err(Fail::from("a page that is there")),
    }
}

/// Puts bytes in place of those at an address, within one page. It is a counted call.
pub fn put(disk: &mut MemDisk, at: u64, bytes: &[u8]) -> Result<(), Fail> {
    let mut page = page_at(disk, at)?;
    let offset = offset_of(at);
    if bytes.len() > PAGE_BYTES - offset {
        return Err(Fail::from("bytes within one page"));
    }
    page[offset..offset + bytes.len()].copy_from_slice(bytes);
    write(disk, at, &page)
}

/// Zeroes the bytes from an address up to another, within one page. It is a counted call.
pub fn zero(disk: &mut MemDisk, from: u64, upto: u64) -> Result<(), Fail> {
    let mut page = page_at(disk, from)?;
    let offset = offset_of(from);
    let count = upto.saturating_sub(from) as usize;
    if count > PAGE_BYTES - offset {
        return Err(Fail::from("bytes within one page"));
    }
    let lost = &mut page[offset..offset + count];
    lost.fill(0);
    write(disk, from, &page)
}

fn write(disk: &mut MemDisk, at: u64, page: &Page) -> Result<(), Fail> {
    match disk.write_page(geometry(), segment_of(at), page_of(at), page) {
        Ok(()) => Ok(()),
        Err(_) => Err(Fail::from("a page is written")),
    }
}

/// Makes the segment durable that has an address. It is a counted call.
pub fn sync(disk: &mut MemDisk, at: u64) -> Result<(), Fail> {
    match disk.sync(geometry(), segment_of(at)) {
        Ok(()) => Ok(()),
        Err(_) => Err(Fail::from("a segment is synced")),
    }
}

/// Whether all bytes from an address up to another are zeros, in pages that are there.
pub fn is_zero(disk: &mut MemDisk, from: u64, upto: u64) -> Result<bool, Fail> {
    for number in from / PAGE_SIZE..upto / PAGE_SIZE {
        let start = number * PAGE_SIZE;
        let page = page_at(disk, start)?;
        let below = from.saturating_sub(start).min(PAGE_SIZE) as usize;
        if !are_zeros(&page[below..]) {
            return Ok(false);
        }
    }
    Ok(true)
}

fn are_zeros(bytes: &[u8]) -> bool {
    for byte in bytes {
        if *byte != 0 {
            return false;
        }
    }
    true
}
