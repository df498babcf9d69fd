//! Laws of the definitions, each proved by a function that does nothing. Who reserves or copies a
//! record knows by them that its words are nobody else's, and stay what they are while the order
//! grows behind it.

ghost use Rattle.std.specs.Prelude.{◌≡◌, ℕ, ◌+◌, ◌*◌, ◌/◌, ◌%◌, ◌<◌, ◌≤◌, ◌↔◌, List, [], ◌∷◌, ◌++◌, length, take, drop, slice_index, slice_index_or, All, Some, None, IsSome};
ghost use Rattle.std.specs.Int.{w64, to_le_bytes};
ghost use Rattle.wal_types.specs.declared.record.Record.{Record};
ghost use Rattle.byte_position.specs.Geometry.{IsSegmentSize};
ghost use Rattle.byte_position.specs.Position.{address_of, end_address_of, position_of};
ghost use Rattle.wal_spelling.specs.Record.{switch_record};
ghost use Rattle.wal_spelling.specs.Spelling.{Assembled, assembled, room_of, word_at, IsLogRecord, IsWritable};
ghost use Rattle.wal_page.specs.Order.{Entry, finish_of, next_segment, FollowsFrom, end_position, IsChained, position_behind, prev_in, prev_of, rooms_of, room_at, assembled_room_at};
ghost use Rattle.wal_page.specs.EntryWords.{address_of_word, words_owned};
ghost use Rattle.wal_page.specs.Page.{header_size};
ghost use Rattle.wal_page.specs.Log.{bytes_of_entry, log_byte, log_word, owner_at, stream_of};
ghost use Rattle.wal_page.specs.LogPage.{IsLogPage};
ghost use Rattle.wal_page.specs.Placed.{Owns, entry_word, header_word};
ghost use Rattle.wal_page.specs.LogPlace.{LogPlace, end_from, new_place, word_below, word_from};

/// What an entry adds to the order that it follows: its room, its start as the next record's one
/// before, its bytes.
pub fn orders_grow_entry_by_entry()
    ensures rooms { (size : ℕ) (es : List Entry) (e : Entry)
        → rooms_of size (es ++ e ∷ []) ≡ rooms_of size es + room_at size e.start e.value }
    ensures prev { (size prev : ℕ) (es : List Entry) (e : Entry)
        → prev_of size prev (es ++ e ∷ []) ≡ address_of size e.start }
    ensures named_before { (size : ℕ) (front back : List Entry) (e : Entry)
        → IsChained size (front ++ e ∷ back)
        → prev_in size (front ++ e ∷ back) e ≡ prev_of size 0 front }
    ensures stream { (size : ℕ) (es : List Entry) (e : Entry)
        → stream_of size (es ++ e ∷ []) ≡ stream_of size es
        ++ bytes_of_entry size (prev_of size 0 es) e }
    ensures chained { (size : ℕ) (es : List Entry) (e : Entry) → IsChained size es
        → e.start ≡ end_position size es → IsLogRecord e.value
        → IsChained size (es ++ e ∷ []) }
{}

/// Where the entries of an order stand: each behind those before it, so that no two overlap.
pub fn entries_start_behind_those_before()
    ensures start { (size position : ℕ) (es : List Entry) → FollowsFrom size position es
        → (k : ℕ) (d : Entry) → k < length es
        → (slice_index_or es k d).start ≡ position + rooms_of size (take k es) }
    ensures apart { (size position : ℕ) (es : List Entry) → FollowsFrom size position es
        → (i j : ℕ) (d : Entry) → i < j → j < length es
        → position_behind size (slice_index_or es i d) ≤ (slice_index_or es j d).start }
    ensures rise { (size position : ℕ) (es : List Entry) → FollowsFrom size position es
        → (i j : ℕ) (d : Entry) → i < j → j < length es
        → (slice_index_or es i d).start < (slice_index_or es j d).start }
{}

/// Records take up just their rooms.
pub fn records_take_up_their_rooms()
    ensures { (size : ℕ) (es : List Entry) → length (stream_of size es) ≡ rooms_of size es }
{}

/// What is assembled of a record takes up as much of the log as the record.
pub fn bodies_take_up_their_records_rooms()
    ensures { (size start : ℕ) (value : Record)
        → assembled_room_at size start (assembled value) ≡ room_at size start value }
{}

/// Who owns an address: each entry those from its start's end form up to its finish, and so all
/// entries together those from segment 1 on up to the order's end.
pub fn entries_own_stretches()
    ensures owner { (size : ℕ) (front back : List Entry) (e : Entry)
        → IsChained size (front ++ e ∷ back) → (address : ℕ)
        → (owner_at size (front ++ e ∷ back) address ≡ Some e)
        ↔ Owns size (assembled e.value) e.start address }
    ensures owned { (size : ℕ) (a : Assembled) (start address : ℕ) → IsSegmentSize size
        → Owns size a start address ↔ ((end_address_of size start ≤ address)
        × (address < end_address_of size (start + assembled_room_at size start a))) }
    ensures together { (size : ℕ) (es : List Entry) (address : ℕ) → IsSegmentSize size
        → IsChained size es
        → IsSome (owner_at size es address) ↔ ((size ≤ address)
        × (address < end_address_of size (end_position size es))) }
{}

/// The words that an entry owns by their numbers: each of so many, one behind another from its
/// start's end form on.
pub fn owned_words_are_numbered()
    ensures owned { (size : ℕ) (e : Entry) (k : ℕ) → IsSegmentSize size → e.start % 8 ≡ 0
        → k < words_owned size e
        → Owns size (assembled e.value) e.start (address_of_word size e k) }
    ensures each { (size : ℕ) (e : Entry) (address : ℕ) → IsSegmentSize size → e.start % 8 ≡ 0
        → address % 8 ≡ 0 → Owns size (assembled e.value) e.start address
        → (k : ℕ) × (k < words_owned size e) × (address ≡ address_of_word size e k) }
{}

/// Which records take up more than their spelling's room: a segment switch alone, of 24 bytes. The
/// next entry starts with the segment behind the one in which the switch's last byte stands, and
/// all words between are 0, those of page headers too.
pub fn switches_fill_their_segments()
    ensures inserted { (size start : ℕ) (value : Record) → IsWritable value
        → room_at size start value ≡ room_of value }
    ensures next { (size : ℕ) (front back : List Entry) (e next : Entry) → IsSegmentSize size
        → IsChained size (front ++ e ∷ next ∷ back) → e.value ≡ switch_record
        → next.start ≡ next_segment size (e.start + 23) }
    ensures finish { (size : ℕ) (e : Entry) → IsSegmentSize size → e.start % 8 ≡ 0
        → e.value ≡ switch_record
        → finish_of size e ≡ size * (address_of size (e.start + 23) / size + 1) }
    ensures zeros { (size sysid : ℕ) (front back : List Entry) (e : Entry) → IsSegmentSize size
        → IsChained size (front ++ e ∷ back) → e.value ≡ switch_record → (address : ℕ)
        → address % 8 ≡ 0 → e.start + 24 ≤ position_of size address
        → position_of size address < position_behind size e
        → log_word size sysid (front ++ e ∷ back) address ≡ 0 }
{}

/// The log's words: each is the one that its owner gives, and 0 where nobody owns it, as behind the
/// order's end.
pub fn words_are_their_owners()
    ensures entry { (size sysid : ℕ) (front back : List Entry) (e : Entry) → IsSegmentSize size
        → IsChained size (front ++ e ∷ back) → (address : ℕ) → address % 8 ≡ 0
        → Owns size (assembled e.value) e.start address
        → log_word size sysid (front ++ e ∷ back) address
        ≡ entry_word size sysid (assembled e.value) e.start (prev_of size 0 front) address }
    ensures header { (size sysid : ℕ) (a : Assembled) (start prev page n : ℕ) → IsSegmentSize size
        → 8 * n < header_size size page
        → entry_word size sysid a start prev (page * 8192 + 8 * n)
        ≡ header_word size sysid page a start n }
    ensures unowned { (size sysid : ℕ) (es : List Entry) (address : ℕ) → IsSegmentSize size
        → IsChained size es → address % 8 ≡ 0 → owner_at size es address ≡ None
        → log_word size sysid es address ≡ 0 }
    ensures behind { (size sysid : ℕ) (es : List Entry) (address : ℕ) → IsSegmentSize size
        → IsChained size es → end_address_of size (end_position size es) ≤ address
        → log_word size sysid es address ≡ 0 }
{}

/// An entry that follows changes no byte and no word that it does not own.
pub fn further_entries_change_only_their_own()
    ensures bytes { (size sysid : ℕ) (es : List Entry) (e : Entry) (address : ℕ)
        → e.start ≡ end_position size es
        → ¬ Owns size (assembled e.value) e.start address
        → log_byte size sysid (es ++ e ∷ []) address ≡ log_byte size sysid es address }
    ensures words { (size sysid : ℕ) (es : List Entry) (e : Entry) (address : ℕ)
        → IsSegmentSize size → IsChained size es → e.start ≡ end_position size es
        → address % 8 ≡ 0 → ¬ Owns size (assembled e.value) e.start address
        → log_word size sysid (es ++ e ∷ []) address ≡ log_word size sysid es address }
{}

/// The log's bytes fit, its words are its bytes, and so its pages are their words.
pub fn words_and_pages_are_their_bytes()
    ensures fit { (size sysid : ℕ) (es : List Entry) (address : ℕ) → IsChained size es
        → log_byte size sysid es address < 256 }
    ensures words { (size sysid : ℕ) (es : List Entry) (address k : ℕ) → IsChained size es → k < 8
        → slice_index (to_le_bytes w64 (log_word size sysid es address)) k
        ≡ log_byte size sysid es (address + k) }
    ensures page { (size sysid : ℕ) (es : List Entry) (page : ℕ) (bytes : List ℕ)
        → IsChained size es → length bytes ≡ 8192 → ((n : ℕ) → n < 1024
        → take 8 (drop (8 * n) bytes)
        ≡ to_le_bytes w64 (log_word size sysid es (page * 8192 + 8 * n)))
        → IsLogPage size sysid es page bytes }
    ensures page_by_numbers { (size sysid : ℕ) (es : List Entry) (page : ℕ) (bytes : List ℕ)
        → IsChained size es → length bytes ≡ 8192 → All (λ b. b < 256) bytes → ((n : ℕ) → n < 1024
        → word_at bytes n ≡ log_word size sysid es (page * 8192 + 8 * n))
        → IsLogPage size sysid es page bytes }
{}

/// A log that goes on at a place: its words below the place are as they are, and from there on each
/// is the one that its owner gives, 0 behind the last. Behind entries that are found, with their
/// words below, those that follow give the words that all give together; so from a new log's place
/// on they give the words of a new log.
pub fn logs_go_on_at_a_place()
    ensures below { (size sysid : ℕ) (place : LogPlace) (es : List Entry) (address : ℕ)
        → IsSegmentSize size → address < end_address_of size place.position
        → word_from size sysid place es address ≡ word_below size place address }
    ensures entry { (size sysid : ℕ) (place : LogPlace) (front back : List Entry) (e : Entry)
        → IsSegmentSize size → FollowsFrom size place.position (front ++ e ∷ back) → (address : ℕ)
        → Owns size (assembled e.value) e.start address
        → word_from size sysid place (front ++ e ∷ back) address
        ≡ entry_word size sysid (assembled e.value) e.start (prev_of size place.prev front)
        address }
    ensures further { (size sysid : ℕ) (place : LogPlace) (es : List Entry) (e : Entry)
        → IsSegmentSize size → FollowsFrom size place.position es
        → e.start ≡ end_from size place es → (address : ℕ)
        → ¬ Owns size (assembled e.value) e.start address
        → word_from size sysid place (es ++ e ∷ []) address
        ≡ word_from size sysid place es address }
    ensures behind { (size sysid : ℕ) (place : LogPlace) (es : List Entry) (address : ℕ)
        → IsSegmentSize size → FollowsFrom size place.position es
        → end_address_of size (end_from size place es) ≤ address
        → word_from size sysid place es address ≡ 0 }
    ensures found { (size sysid : ℕ) (place : LogPlace) (found es : List Entry)
        → IsSegmentSize size → IsChained size (found ++ es)
        → place.position ≡ end_position size found → place.prev ≡ prev_of size 0 found
        → ((address : ℕ) → address % 8 ≡ 0 → address < end_address_of size place.position
        → word_below size place address ≡ log_word size sysid found address)
        → (address : ℕ) → address % 8 ≡ 0
        → word_from size sysid place es address ≡ log_word size sysid (found ++ es) address }
    ensures fresh { (size sysid : ℕ) (es : List Entry) (address : ℕ) → IsSegmentSize size
        → IsChained size es → address % 8 ≡ 0
        → word_from size sysid (new_place size) es address ≡ log_word size sysid es address }
{}
