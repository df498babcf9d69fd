//! Bytes of a disk with segments of 1 MiB, by their addresses in the log.
ghost use Rattle.std.specs.Prelude.{◌≡◌, ◌<◌, ◌^◌, ◌/◌};

use crate::halt::Halt;
use byte_position::{Geometry, Page};
use segment_disk::{Disk, MemDisk, Pick};
use std::alloc::Global;
use wal_crc32c::Crc;

const SEGMENT_SIZE: u64 = 1 << 20;

const PAGE_SIZE: usize = byte_position::PAGE_SIZE as usize;

// How many segments a disk has room for that is made anew, and how many calls are counted on it.
pub const SEGMENTS: u32 = 4;

pub const CALLS: u32 = 600;

fn geometry() -> Geometry
    ensures { result ≡ 1048576 }
{
    match Geometry::new(SEGMENT_SIZE) {
        Some(geometry) => geometry,
        None => unreachable!(),
    }
}

fn segment_of(at: u64) -> u64
    ensures { result < 2 ^ 64 / 1048576 }
{
    at / SEGMENT_SIZE
}

fn page_of(at: u64) -> u32
    ensures { result < 128 }
{
    (at % SEGMENT_SIZE / 8192) as u32
}

fn offset_of(at: u64) -> usize
    ensures { result < 8192 }
{
    (at % 8192) as usize
}

// The page that has an address.
fn read_page(disk: &mut MemDisk, at: u64) -> Result<Page, Halt> {
    let mut page = [0; PAGE_SIZE];
    if disk.read_page(geometry(), segment_of(at), page_of(at), &mut page)? {
        Ok(page)
    } else {
        Err(Halt::NotUnderstood)
    }
}

fn write_page(disk: &mut MemDisk, at: u64, page: &Page) -> Result<(), Halt> {
    Ok(disk.write_page(geometry(), segment_of(at), page_of(at), page)?)
}

/// So many bytes at an address, within one page.
pub fn peek(alloc: Global, disk: &mut MemDisk, at: u64, count: u32) -> Result<Vec<u8>, Halt> {
    let page = read_page(disk, at)?;
    let rest = &page[offset_of(at)..];
    let bytes = rest.get(..count as usize).ok_or(Halt::NotUnderstood)?;
    Ok(Vec::from_slice(alloc, bytes)?)
}

/// Puts bytes in place of those at an address, within one page.
pub fn poke(disk: &mut MemDisk, at: u64, bytes: &[u8]) -> Result<(), Halt> {
    let mut page = read_page(disk, at)?;
    let offset = offset_of(at);
    if bytes.len() > PAGE_SIZE - offset {
        return Err(Halt::NotUnderstood);
    }
    page[offset..offset + bytes.len()].copy_from_slice(bytes);
    write_page(disk, at, &page)
}

/// Makes the CRC right of the record that starts at an address, as far as its length says and its
/// page goes.
pub fn seal(disk: &mut MemDisk, at: u64) -> Result<(), Halt> {
    let mut page = read_page(disk, at)?;
    let record = &mut page[offset_of(at)..];
    let length = record.first_chunk::<4>().ok_or(Halt::NotUnderstood)?;
    let total = record.len().min(u32::from_le_bytes(*length) as usize);
    if total < 24 {
        return Err(Halt::NotUnderstood);
    }
    let mut crc = Crc::new();
    crc.update(&record[24..total]);
    crc.update(&record[..20]);
    record[20..24].copy_from_slice(&crc.value().to_le_bytes());
    write_page(disk, at, &page)
}

fn copy_page(from: &mut MemDisk, to: &mut MemDisk, at: u64) -> Result<(), Halt> {
    let mut page = [0; PAGE_SIZE];
    if from.read_page(geometry(), segment_of(at), page_of(at), &mut page)? {
        write_page(to, at, &page)?;
    }
    Ok(())
}

fn copy_segment(from: &mut MemDisk, to: &mut MemDisk, segment: u32) -> Result<(), Halt> {
    let start = u64::from(segment) * SEGMENT_SIZE;
    if read_page(from, start).is_err() {
        return Ok(());
    }
    to.create(geometry(), segment_of(start))?;
    for page in 0..128 {
        copy_page(from, to, start + page * 8192)?;
    }
    Ok(())
}

/// A disk with what another one has in its first segments, but for one of these.
pub fn without(alloc: Global, disk: &mut MemDisk, lost: u64) -> Result<MemDisk, Halt> {
    let mut left = MemDisk::new(alloc, SEGMENTS, CALLS, Vec::new(alloc), Vec::new(alloc))?;
    for segment in 1..=SEGMENTS {
        if u64::from(segment) != lost {
            copy_segment(disk, &mut left, segment)?;
        }
    }
    copy_of(alloc, &left)
}

/// A disk with what another one has, on which no call is counted yet and none fails.
pub fn copy_of(alloc: Global, disk: &MemDisk) -> Result<MemDisk, Halt> {
    Ok(disk.crash(alloc, disk.moment(), Pick::New)?)
}
