//! Each shared word has a place of its own in the table's memory. The function does nothing: its
//! contract is the law.

ghost use Rattle.std.specs.Prelude.{◌≡◌, ◌≢◌, ℕ, ◌≤◌, List, length, set, slice_index};
ghost use Rattle.wal_rule.specs.WordPlaces.{first_end_place, place_of_word, words_of};

/// A load at a word's place is a load of the word, and a store there a store of the word: it leaves
/// each other word, since no two lie at one place.
pub fn words_have_places_of_their_own()
    ensures apart { (number other : ℕ) → number ≢ other
        → place_of_word number ≢ place_of_word other }
    ensures load { (memory : List ℕ) (number : ℕ)
        → slice_index memory (place_of_word number) ≡ slice_index (words_of memory) number }
    ensures store { (memory : List ℕ) (number value : ℕ) → first_end_place ≤ length memory
        → words_of (set memory (place_of_word number) value)
        ≡ set (words_of memory) number value }
{}
