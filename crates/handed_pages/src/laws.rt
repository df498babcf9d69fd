//! What was read of a log, proved by a function that does nothing.

ghost use Rattle.std.specs.Prelude.{ℕ, List, None};
ghost use Rattle.wal_reader.specs.SoFar.{LogBegins};
ghost use Rattle.wal_reader.specs.declared.found.FoundRecord.{FoundRecord};
ghost use Rattle.handed_pages.specs.Handed.{read_tape};
ghost use Rattle.handed_pages.specs.Reading.{HasReadLog};
ghost use Rattle.handed_pages.specs.declared.reading.HandedReader.{HandedReader};

use crate::host_log::HostLog;

/// A law: records that came one behind another from an address on are those with which what the
/// log decodes to from there on begins.
pub fn records_read_come_first<L: HostLog>()
    ensures { (size start : ℕ) (found : List FoundRecord) (reader : HandedReader L)
        → HasReadLog L.state size start found reader
        → LogBegins size start None found (read_tape L.state) }
{}
