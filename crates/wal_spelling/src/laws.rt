//! What holds of each record as it is spelled, whatever reads it. The functions do nothing: their
//! contracts are the laws.

ghost use Rattle.std.specs.Prelude.{◌≡◌, ℕ, ◌+◌, ◌*◌, ◌%◌, ◌^◌, ◌<◌, ◌≤◌, length, take, drop, false, true, All, IsFalse, IsTrue, List, None, Some, ◌↔◌};
ghost use Rattle.std.specs.Int.{w64, to_le_bytes};
ghost use Rattle.wal_types.specs.declared.record.Block.{Block};
ghost use Rattle.wal_types.specs.declared.record.Record.{Record};
ghost use Rattle.wal_spelling.specs.Header.{HasHeader};
ghost use Rattle.wal_spelling.specs.Record.{Fits, are_right_blocks, is_switch, switch_record};
ghost use Rattle.wal_spelling.specs.Refusal.{first_bad_block, refusal_of};
ghost use Rattle.wal_spelling.specs.Spelling.{Assembled, AssembledFits, IsLogRecord, IsReadable, IsWritable, assembled, assembled_room, assembled_size, crc_of, filled, filled_spelling, room_of, size_of, spelled, spelling, word_at};

/// A record's length, and the room that it takes up.
pub fn spelled_lengths()
    ensures spelled { (a : Assembled) (prev : ℕ) → length (spelled a prev) ≡ assembled_size a }
    ensures filled { (a : Assembled) (prev : ℕ) → length (filled a prev) ≡ assembled_room a }
    ensures room { (a : Assembled)
        → (assembled_room a % 8 ≡ 0)
        × (24 ≤ assembled_room a)
        × (assembled_size a ≤ assembled_room a)
        × (assembled_room a < assembled_size a + 8) }
{}

/// What is assembled of a record is spelled as the record is.
pub fn bodies_are_spelled_as_their_records()
    ensures size { (r : Record) → assembled_size (assembled r) ≡ size_of r }
    ensures room { (r : Record) → assembled_room (assembled r) ≡ room_of r }
    ensures spelled { (r : Record) (prev : ℕ) → spelled (assembled r) prev ≡ spelling r prev }
    ensures filled { (r : Record) (prev : ℕ)
        → filled (assembled r) prev ≡ filled_spelling r prev }
{}

/// A record's bytes and its CRC fit, and its words are its bytes.
pub fn spelled_bytes()
    ensures ready { (r : Record) → IsLogRecord r → AssembledFits (assembled r) }
    ensures crc { (a : Assembled) (prev : ℕ) → AssembledFits a → crc_of a prev < 2 ^ 32 }
    ensures bytes { (a : Assembled) (prev : ℕ) → AssembledFits a
        → All (λ b. b < 256) (filled a prev) }
    ensures words { (a : Assembled) (prev n : ℕ) → AssembledFits a → 8 * n < assembled_room a
        → to_le_bytes w64 (word_at (filled a prev) n) ≡ take 8 (drop (8 * n) (filled a prev)) }
{}

/// A reader finds each field of the header where it was put.
pub fn spelled_header()
    ensures { (a : Assembled) (prev : ℕ) → AssembledFits a → prev < 2 ^ 64
        → HasHeader (spelled a prev) a prev }
{}

/// What can be written is what fits and is not refused.
pub fn refused_or_writable()
    ensures { (r : Record) → Fits r → (refusal_of r ≡ None) ↔ IsWritable r }
{}

/// The log holds records that can be inserted, and that of a segment switch; whether it ends its
/// segment tells which. Each of them is read back from its spelling.
pub fn log_records()
    ensures inserted { (r : Record) → IsLogRecord r → (is_switch r ≡ false) ↔ IsWritable r }
    ensures switched { (r : Record) → IsLogRecord r → (is_switch r ≡ true) ↔ (r ≡ switch_record) }
    ensures switch_size { size_of switch_record ≡ 24 }
    ensures readable { (r : Record) → IsLogRecord r → IsReadable r }
{}

/// A refusal names the first block that is not right: those before it are right, and with it they
/// are not.
pub fn bad_block_is_first()
    ensures { (bs : List Block) (k : ℕ)
        → (first_bad_block 0 bs ≡ Some k)
        ↔ ((k < length bs)
        × IsTrue (are_right_blocks 0 (take k bs))
        × IsFalse (are_right_blocks 0 (take (k + 1) bs))) }
{}
