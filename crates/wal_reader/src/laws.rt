// Laws of what pages decode to, each proved by a function that does nothing: who lists or compares
// a log rests on these, and not on the reader's own steps.
ghost use Rattle.std.specs.Prelude.{◌≡◌, ◌↔◌, ℕ, ◌+◌, ◌-◌, ◌*◌, ◌/◌, ◌%◌, ◌<◌, true, Option, Result};
ghost use Rattle.byte_position.specs.Geometry.{IsSegmentSize};
ghost use Rattle.byte_position.specs.Position.{address_of, end_address_of};
ghost use Rattle.wal_types.specs.declared.record.Record.{Record};
ghost use Rattle.wal_spelling.specs.Record.{is_switch};
ghost use Rattle.wal_reader.specs.declared.found.Answer.{Answer};
ghost use Rattle.wal_reader.specs.declared.found.FoundRecord.{FoundRecord};
ghost use Rattle.wal_reader.specs.declared.record_place.RecordPlace.{RecordPlace};
ghost use Rattle.wal_reader.specs.Decodes.{ReadsAt, next_position};
ghost use Rattle.wal_reader.specs.Finds.{FindingIsDecoding};
ghost use Rattle.wal_reader.specs.Pages.{Pages};
ghost use Rattle.wal_reader.specs.ReadAt.{read_at};
ghost use Rattle.wal_reader.specs.Runs.{RunsCompose, RunsGiveFronts};
ghost use Rattle.wal_reader.specs.Settled.{DecodingIsSettled, StepsTellDecoding};
ghost use Rattle.wal_reader.specs.SoFar.{ReadingBegins, ReadingEnds, ReadingGoesOn};

use segment_disk::Disk;

/// A law: what an image's pages decode to is settled by them, and the steps of a new reader tell
/// it.
pub fn decoding_is_settled()
    ensures settled { DecodingIsSettled }
    ensures told { StepsTellDecoding }
{}

/// A law: the steps of a reader that are stopped early gave a front of what the log decodes to.
pub fn runs_give_fronts()
    ensures compose { RunsCompose }
    ensures fronts { RunsGiveFronts }
{}

/// A law: records that a reader's steps gave one by one are what a disk's log decodes to, and so it
/// ends; a front of it, where the disk failed or memory was wanting. It is an invariant of a loop
/// over the steps: it holds at first, goes on with each record, and tells this at the end. The
/// lemmas are `read_none`, `read_more` and `read_to_end` of proofs/SoFarLaws.
pub fn readings_decode<D: Disk>()
    ensures begins { ReadingBegins D.tape D.moment D.faults }
    ensures goes_on { ReadingGoesOn D.tape D.moment D.faults }
    ensures ends { ReadingEnds D.tape D.moment D.faults }
{}

/// A law: what is read at a place, as its bytes spell it or fail to, is what is computed there.
pub fn reading_is_computed()
    ensures { (size : ℕ) (pages : Pages) (end : Option ℕ) (place : RecordPlace)
        (result : Result FoundRecord Answer)
        → ReadsAt size pages end place result ↔ (read_at size pages end place ≡ result) }
{}

/// A law: behind a segment switch, whatever its size, the next record starts with the segment that
/// follows the one with the switch's last byte. Where that byte is its segment's last, that is just
/// behind it.
pub fn switches_end_their_segment()
    ensures end { (size position total : ℕ) (value : Record) → IsSegmentSize size
        → is_switch value ≡ true
        → end_address_of size (next_position size position total value)
        ≡ size * (address_of size (position + total - 1) / size + 1) }
    ensures whole { (size position total : ℕ) (value : Record) → IsSegmentSize size
        → is_switch value ≡ true → 0 < total
        → (address_of size (position + total - 1) + 1) % size ≡ 0
        → next_position size position total value ≡ position + total }
{}

/// A law: what a reader finds in an image's pages is what they decode to, whatever is told where
/// the records end.
pub fn finding_is_decoding()
    ensures { FindingIsDecoding }
{}
