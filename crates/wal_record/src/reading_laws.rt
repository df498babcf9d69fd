//! What holds of each list of bytes that a reader meets. The functions do nothing: their contracts
//! are the laws.

ghost use Rattle.std.specs.Prelude.{◌≡◌, ℕ, ◌^◌, ◌<◌, ◌≤◌, ◌⊎◌, length, All, Err, List, Ok, false, ◌↔◌, slice_index, sum_by};
ghost use Rattle.wal_types.specs.declared.record.Record.{Record};
ghost use Rattle.wal_spelling.specs.Layout.{info_offset, last_fork, manager_offset};
ghost use Rattle.wal_spelling.specs.Record.{is_free_manager};
ghost use Rattle.wal_spelling.specs.Spelling.{image_bytes};
ghost use Rattle.wal_record.specs.declared.fault.RecErr.{RecErr};
ghost use Rattle.wal_record.specs.Fails.{FailsAt};
ghost use Rattle.wal_record.specs.Reading.{reading_of};
ghost use Rattle.wal_record.specs.Spells.{Spells};
ghost use Rattle.wal_record.specs.Stored.{stored_of};

/// Each list of bytes spells one record, or one check of it fails first.
pub fn spells_or_fails()
    ensures either { (bytes : List ℕ) → All (λ b. b < 256) bytes
        → ((r : Record) × Spells bytes r) ⊎ ((e : RecErr) × FailsAt bytes e) }
    ensures one_record { (bytes : List ℕ) (r other : Record)
        → Spells bytes r → Spells bytes other → r ≡ other }
    ensures one_cause { (bytes : List ℕ) (e other : RecErr) → All (λ b. b < 256) bytes
        → FailsAt bytes e → FailsAt bytes other → e ≡ other }
    ensures not_both { (bytes : List ℕ) (r : Record) (e : RecErr) → All (λ b. b < 256) bytes
        → Spells bytes r → FailsAt bytes e → ⊥ }
{}

/// The reading is the spelling: bytes are read as a record just where they spell it, and refused
/// for an error just where that is the first check that fails.
pub fn reading_is_spelling()
    ensures read { (bytes : List ℕ) (r : Record) → All (λ b. b < 256) bytes
        → (reading_of bytes ≡ Ok r) ↔ Spells bytes r }
    ensures refused { (bytes : List ℕ) (e : RecErr) → All (λ b. b < 256) bytes
        → (reading_of bytes ≡ Err e) ↔ FailsAt bytes e }
{}

/// The blocks of a record that was read: there are four forks, and images are no more than all of
/// its bytes.
pub fn spelled_blocks()
    ensures forks { (bytes : List ℕ) (r : Record) → Spells bytes r
        → All (λ b. b.fork ≤ last_fork) r.blocks }
    ensures images { (bytes : List ℕ) (r : Record) → Spells bytes r
        → sum_by (λ b. length (image_bytes b.image)) r.blocks ≤ length bytes }
{}

/// The blocks of a record that was read as it is stored, compressed images and all: the same.
pub fn stored_blocks()
    ensures manager { (bytes : List ℕ) (r : Record) → stored_of bytes ≡ Ok r
        → is_free_manager r.rmid ≡ false }
    ensures forks { (bytes : List ℕ) (r : Record) → stored_of bytes ≡ Ok r
        → All (λ b. b.fork ≤ last_fork) r.blocks }
    ensures images { (bytes : List ℕ) (r : Record) → stored_of bytes ≡ Ok r
        → sum_by (λ b. length (image_bytes b.image)) r.blocks ≤ length bytes }
{}

/// A record's manager and info are bytes of its header.
pub fn header_bytes()
    ensures manager { (bytes : List ℕ) (r : Record) → reading_of bytes ≡ Ok r
        → r.rmid ≡ slice_index bytes manager_offset }
    ensures info { (bytes : List ℕ) (r : Record) → reading_of bytes ≡ Ok r
        → r.info ≡ slice_index bytes info_offset }
{}
