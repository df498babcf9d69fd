//! The records that were reserved, and their words.

ghost use Rattle.std.specs.Prelude.{◌≡◌, ◌%◌, ◌<◌, ◌^◌};

use crate::ReservedSpan;
use crate::lines::{Found, Planned};
use byte_position::Geometry;
use std::alloc::Global;
use std::test::Fail;
use wal_page::Placed;
use wal_spelling::Body;
use wal_types::Lsn;

const FIRST_ADDRESS: u64 = 1 << 20;

/// The records that were reserved, in their order.
#[derive(Drop)]
pub struct Log {
    pub order: Vec<ReservedSpan>,
    /// The records as a reader finds them.
    pub records: Vec<Found>,
    /// The log's words from segment 1 on, as far as they go.
    pub words: Vec<u64>,
}

impl Log {
    pub fn new(alloc: Global) -> Log {
        Log {
            order: Vec::new(alloc),
            records: Vec::new(alloc),
            words: Vec::new(alloc),
        }
    }

    /// The record of a line, which starts at a byte position behind one that starts at `prev`.
    pub fn add(
        &mut self,
        alloc: Global,
        planned: Planned,
        start: u64,
        prev: u64,
    ) -> Result<(), Fail> {
        if start % 8 != 0 || start > 1 << 40 {
            return Err(Fail::from("a place of whole words"));
        }
        let geometry = Geometry::new(1 << 20).ok_or("1 MiB is a segment's size")?;
        let address = geometry.to_lsn(start).0;
        let body = planned.body(alloc)?;
        self.order.push(ReservedSpan {
            start,
            end: start.wrapping_add(u64::from(body.room())),
            address,
            prev,
        })?;
        self.records.push((planned.xid, address, planned.len))?;
        self.add_words(geometry, &body, start, prev)
    }

    // The words of a record at its place.
    fn add_words(
        &mut self,
        geometry: Geometry,
        body: &Body,
        start: u64,
        prev: u64,
    ) -> Result<(), Fail>
        requires whole { start % 8 ≡ 0 }
        requires low { start < 2 ^ 50 }
    {
        let room = body.room();
        let mut placed = Placed::new(geometry, 1, body, start, Lsn(prev));
        for _ in 0..room {
            let Some((Lsn(address), word)) = placed.next_word() else {
                return Ok(());
            };
            if address != self.end() {
                return Err(Fail::from("records without a gap"));
            }
            self.words.push(word)?;
        }
        Ok(())
    }

    // The address behind the last word.
    fn end(&self) -> u64 {
        FIRST_ADDRESS.wrapping_add((self.words.len() as u64).wrapping_mul(8))
    }
}
