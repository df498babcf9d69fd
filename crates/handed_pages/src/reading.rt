// A log's records, read one behind another from an address on. A read that wants a page leaves the
// reader before its record, which is taken up anew once the page was handed in: who hands in twice
// as many pages each time spares most of it. Pages below the record being read are forgotten: what
// is held is one record's pages, and those handed in ahead.
ghost use Rattle.std.specs.Prelude.{◌≡◌, ℕ, [], List, IfOk, option_map};
ghost use Rattle.wal_reader.specs.declared.found.FoundRecord.{FoundRecord};

use crate::host_log::HostLog;
use crate::page::PageNumber;
use crate::pages::HandedPages;
use byte_position::{Geometry, Page};
use segment_disk::Memory;
use std::alloc::Global;
use wal_reader::{FoundRecord, ReadErr, Reader, RecordHead, Step, Stopped};
use wal_types::Lsn;

/// What reading on came to.
#[derive(Drop)]
pub enum NextRecord {
    /// The next record.
    Record(FoundRecord),
    /// The log ends here. Asked again, all pages are wanted anew, since it may go on by then; the
    /// clauses speak of one log, and not of one that grew on a page that was read.
    End { at: Lsn },
    /// This page has to be handed in, or that the log has none such. Asked again it goes on.
    Wants(PageNumber),
    /// The log comes to no clean end. It is told again from then on.
    Stopped(Stopped),
    /// There is no memory. Asked again it goes on.
    Memory,
}

/// Reads a log's records, from pages that are handed in.
#[derive(Drop)]
pub struct HandedReader<L> {
    pub(crate) alloc: Global,
    pub(crate) geometry: Geometry,
    pub(crate) reader: Reader,
    pub(crate) pages: HandedPages<L>,
}

impl<L: HostLog> HandedReader<L> {
    ghost use Rattle.handed_pages.specs.Handed.{page_of_log};
    ghost use Rattle.handed_pages.specs.Reading.{HasReadLog, TellsNext};

    /// Reads the records that start at an address or behind it.
    pub fn new(alloc: Global, geometry: Geometry, start: Lsn) -> HandedReader<L>
        ensures { HasReadLog L.state geometry start.0 [] result }
    {
        HandedReader {
            alloc,
            geometry,
            reader: Reader::new(geometry, start, None),
            pages: HandedPages::new(alloc),
        }
    }

    /// Holds a page from now on, or that the log has no such page.
    pub fn hand_in(&mut self, number: PageNumber, page: Option<&Page>) -> Result<(), Memory>
        // What was read stays what was read of a log that has this page.
        ensures { (size start : ℕ) (found : List FoundRecord)
            → HasReadLog L.state size start found self.old
            → page_of_log L.state number ≡ option_map (λ p. p.now) page.entry
            → HasReadLog L.state size start found self.new }
    {
        self.pages.hand_in(number, page)
    }

    /// The next record, by the pages that are held.
    pub fn next(&mut self) -> NextRecord
        // It is the next of what the log decodes to, if each page was handed in as the log has it.
        ensures { (size start : ℕ) (found : List FoundRecord)
            → HasReadLog L.state size start found self.old
            → TellsNext L.state size start found self.new result }
    {
        match self.reader.next(self.alloc, &mut self.pages) {
            Ok(
                Step::Record {
                    start,
                    end,
                    prev,
                    total,
                    value,
                },
            ) => {
                self.pages.forget_below(self.geometry, end);
                NextRecord::Record(FoundRecord {
                    head: RecordHead {
                        start,
                        end,
                        prev,
                        total,
                    },
                    value,
                })
            }
            Ok(Step::End { at }) => {
                self.pages.forget_all();
                NextRecord::End { at }
            }
            Err(ReadErr::Disk { .. }) => match self.pages.wanted() {
                Some(number) => NextRecord::Wants(number),
                None => unreachable!(),
            },
            Err(ReadErr::Memory) => NextRecord::Memory,
            Err(ReadErr::Stopped(stopped)) => NextRecord::Stopped(stopped),
        }
    }
}
