//! What holds of a record that is spelled and read back. The functions do nothing: their contracts
//! are the laws.

ghost use Rattle.std.specs.Prelude.{◌≡◌, ℕ, Ok};
ghost use Rattle.wal_types.specs.declared.record.Record.{Record};
ghost use Rattle.wal_spelling.specs.Spelling.{IsLogRecord, IsReadable, assembled, spelling};
ghost use Rattle.wal_record.specs.Reading.{reading_of};
ghost use Rattle.wal_record.specs.Spells.{Spells};

/// The writer's spelling of a record is one that a reader accepts as this record. So it is of each
/// that the log may hold, and of switches with data and longer records, which it is never given.
pub fn spelling_reads()
    ensures accepted { (r : Record) (prev : ℕ) → IsReadable r → Spells (spelling r prev) r }
    ensures read { (r : Record) (prev : ℕ) → IsReadable r → reading_of (spelling r prev) ≡ Ok r }
    ensures logged { (r : Record) (prev : ℕ) → IsLogRecord r
        → reading_of (spelling r prev) ≡ Ok r }
{}

/// A body is one of a single record: records that the log may hold and that are assembled to the
/// same are the same, as reading the spelling back shows.
pub fn body_knows_its_record()
    ensures { (r other : Record) → IsLogRecord r → IsLogRecord other
        → assembled r ≡ assembled other → r ≡ other }
{}
