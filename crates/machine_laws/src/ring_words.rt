//! A store into one word, as the laws of ring and pages take it: it changes one buffer's end, or
//! one word of the ring, and leaves all others.

ghost use Rattle.std.specs.Prelude.{◌≡◌, ℕ, ◌+◌, ◌*◌, ◌<◌, List, length, set};
ghost use Rattle.machine_state.specs.declared.setup.Setup.{Setup};
ghost use Rattle.machine_state.specs.Words.{end_word, word_of_ring, word_count, ends_number};
ghost use Rattle.machine_state.specs.Steps.{ring_place};
ghost use Rattle.machine_laws.specs.WordsPut.{IsPut, put};

/// A store into the end word of a buffer changes this end alone, one into a word of the ring this
/// word alone; each word of the log has a place in the ring; and the log's memory can be changed at
/// one word.
pub fn stores_change_one_value()
    ensures end { (setup : Setup) (words : List ℕ) (buffer value : ℕ)
        → length words ≡ word_count setup → buffer < setup.ring_pages
        → IsPut (end_word words) buffer value (end_word (set words (ends_number + buffer) value)) }
    ensures ring { (setup : Setup) (words : List ℕ) (place value : ℕ)
        → length words ≡ word_count setup → place < setup.ring_pages * 1024
        → IsPut (word_of_ring setup words) place value
        (word_of_ring setup (set words (ends_number + setup.ring_pages + place) value)) }
    ensures place { (setup : Setup) (k : ℕ) → 0 < setup.ring_pages
        → ring_place setup k < setup.ring_pages * 1024 }
    ensures memory { (memory : ℕ → ℕ) (index value : ℕ)
        → IsPut memory index value (put memory index value) }
{}
