//! Laws of the views of all passes and of the words, each proved by a function that does nothing. A
//! step changes one word and one view: these say that all else is as before, which is what each
//! part of the invariant needs that reads other words or another part of the view.

ghost use Rattle.std.specs.Prelude.{◌≡◌, ◌≢◌, ◌⊎◌, ℕ, ◌+◌, ◌*◌, ◌<◌, ◌≤◌, List, [], ◌∷◌, ◌++◌, length, map, set, slice_index};
ghost use Rattle.machine_state.specs.declared.setup.Setup.{Setup};
ghost use Rattle.machine_state.specs.Words.{end_word, ends_number, lock_number, lock_word, mapping_turn_number, word_count, word_of_ring, async_word};
ghost use Rattle.machine_state.specs.Views.{Flight, HasAt, View, reserving_of};
ghost use Rattle.machine_state.specs.Moves.{with_working};
ghost use Rattle.machine_state.specs.declared.word.Word.TheVariants.{Ring, Async};
ghost use Rattle.machine_state.specs.Numbers.{AreMachineWords, word_named};

/// A step of one pass changes its own view alone, and of that the part alone that it is about: what
/// all passes have of the reserved order stays, where it is another part that changes.
pub fn parts_change_with_their_view()
    ensures stays { (views : List View) (id : ℕ) (v : View) (locks : List ℕ) (flight : Flight)
        → HasAt views id v
        → map reserving_of (set views id (with_working locks flight v)) ≡ map reserving_of views }
    ensures changes { (views : List View) (id : ℕ) (w : View)
        → map reserving_of (set views id w) ≡ set (map reserving_of views) id w.reserving }
    ensures grows { (views : List View) (w : View)
        → map reserving_of (views ++ w ∷ []) ≡ map reserving_of views ++ w.reserving ∷ [] }
{}

/// Each word has its own number: a step that stores into one leaves all others, and one that stores
/// the number that it meets, as a load, leaves all words.
pub fn words_are_set_one_at_a_time()
    ensures again { (words : List ℕ) (i : ℕ) → set words i (slice_index words i) ≡ words }
    ensures single { (setup : Setup) (words : List ℕ) (i n : ℕ) → length words ≡ word_count setup
        → i < ends_number → slice_index (set words i n) i ≡ n }
    ensures other { (words : List ℕ) (i n j : ℕ) → j ≢ i
        → slice_index (set words i n) j ≡ slice_index words j }
    ensures lock { (setup : Setup) (words : List ℕ) (lock n : ℕ)
        → length words ≡ word_count setup → lock < 8
        → lock_word (set words (lock_number lock) n) lock ≡ n }
    ensures other_locks { (words : List ℕ) (i n lock : ℕ)
        → (i < 2) ⊎ (mapping_turn_number ≤ i) → lock < 8
        → lock_word (set words i n) lock ≡ lock_word words lock }
    ensures end { (setup : Setup) (words : List ℕ) (buffer n : ℕ)
        → length words ≡ word_count setup → buffer < setup.ring_pages
        → end_word (set words (ends_number + buffer) n) buffer ≡ n }
    ensures ends_behind { (setup : Setup) (words : List ℕ) (place n b : ℕ) → b < setup.ring_pages
        → end_word (set words (ends_number + setup.ring_pages + place) n) b ≡ end_word words b }
    ensures ring { (setup : Setup) (words : List ℕ) (place n : ℕ)
        → length words ≡ word_count setup → place < setup.ring_pages * 1024
        → word_of_ring setup (set words (ends_number + setup.ring_pages + place) n) place ≡ n }
    ensures ring_before { (setup : Setup) (words : List ℕ) (i n : ℕ)
        → i < ends_number + setup.ring_pages
        → word_of_ring setup (set words i n) ≡ word_of_ring setup words }
    ensures wide { (setup : Setup) (words : List ℕ) (i n : ℕ) → length words ≡ word_count setup
        → length (set words i n) ≡ word_count setup }
{}

/// The word of each name is the one that the machine means by it: names' numbers are those of the
/// machine's words.
pub fn names_are_the_machines()
    ensures before_ring { (pages : ℕ) (words : List ℕ) → AreMachineWords pages words }
    ensures ring { (setup : Setup) (place : ℕ) (words : List ℕ)
        → word_named setup.ring_pages words (Ring place) ≡ word_of_ring setup words place }
    ensures async_is { (setup : Setup) (words : List ℕ)
        → word_named setup.ring_pages words Async ≡ async_word setup words }
{}
