//! The pages in the ring's buffers, through each kind of step that changes what is said of them
//! (PostgreSQL's xlog.c, GetXLogBuffer, AdvanceXLInsertBuffer). Who has the turn to map goes from
//! stage to stage alone; a page is given up only where it ends at or below what was loaded as
//! written, so no copy and no write is still about it. A pass that has met a page's end may store
//! there as long as a word of the page is still to be copied, since a page with such a word is not
//! written whole.

ghost use Rattle.std.specs.Prelude.{◌≡◌, ℕ, ◌+◌, ◌*◌, ◌/◌, ◌%◌, ◌<◌, ◌≤◌, List, [], ◌∷◌, ◌++◌, max, set};
ghost use Rattle.machine_state.specs.declared.setup.Setup.{Setup};
ghost use Rattle.machine_state.specs.Views.{HasAt, Copy, Flight, Copying, Stage, Away, Taken, Ready, Zeroing, Published};
ghost use Rattle.machine_state.specs.Moves.{looked, ready};
ghost use Rattle.machine_state.specs.Paged.{IsOpen, PagesHold};
ghost use Rattle.machine_state.specs.Positioned.{IsCopiedBelow};
ghost use Rattle.machine_state.specs.Steps.{CopiesOn, number_of_next, ring_place};
ghost use Rattle.machine_laws.specs.WordsPut.{IsPut};

/// A pass meets the end of a buffer, or the initialised end, as it loads it; a mapper goes on with
/// that, and with the written position.
pub fn loads_keep_pages()
    ensures end { (pages reach : ℕ) (stage : Stage) (initialised written : ℕ)
        (ends ring memory : ℕ → ℕ) (confirmed : List ℕ) (id met buffer : ℕ)
        → PagesHold pages reach stage initialised written ends ring memory confirmed
        → HasAt confirmed id met → buffer < pages
        → PagesHold pages reach stage initialised written ends ring memory
        (set confirmed id (max met (ends buffer))) }
    ensures initialised { (pages reach : ℕ) (stage : Stage) (initialised written : ℕ)
        (ends ring memory : ℕ → ℕ) (confirmed : List ℕ) (id met : ℕ)
        → PagesHold pages reach stage initialised written ends ring memory confirmed
        → HasAt confirmed id met
        → PagesHold pages reach stage initialised written ends ring memory
        (set confirmed id (max met initialised)) }
    ensures initialised_by_mapper { (pages reach : ℕ) (stage : Stage) (initialised written : ℕ)
        (ends ring memory : ℕ → ℕ) (confirmed : List ℕ) (id met : ℕ)
        → PagesHold pages reach stage initialised written ends ring memory confirmed
        → HasAt confirmed id met
        → PagesHold pages reach (looked initialised stage) initialised written ends ring memory
        (set confirmed id (max met initialised)) }
    ensures written_by_mapper { (pages reach : ℕ) (stage : Stage) (initialised written : ℕ)
        (ends ring memory : ℕ → ℕ) (confirmed : List ℕ)
        → PagesHold pages reach stage initialised written ends ring memory confirmed
        → PagesHold pages reach (ready written stage) initialised written ends ring memory
        confirmed }
{}

/// The turn to map is taken, and given back where nothing is changed yet.
pub fn turns_keep_pages()
    ensures taken { (pages reach initialised written : ℕ) (ends ring memory : ℕ → ℕ)
        (confirmed : List ℕ)
        → PagesHold pages reach Away initialised written ends ring memory confirmed
        → PagesHold pages reach Taken initialised written ends ring memory confirmed }
    ensures given_back { (pages reach : ℕ) (stage : Stage) (initialised written : ℕ)
        (ends ring memory : ℕ → ℕ) (confirmed : List ℕ)
        → PagesHold pages reach stage initialised written ends ring memory confirmed
        → IsOpen stage
        → PagesHold pages reach Away initialised written ends ring memory confirmed }
{}

/// A page is given up for the next one: the buffer's end is cleared, its words are zeroed, and its
/// new end is published, then that all pages up to it are there.
pub fn mapping_keeps_pages()
    ensures cleared { (pages reach at met initialised written : ℕ)
        (ends ends_behind ring memory : ℕ → ℕ) (confirmed : List ℕ)
        → PagesHold pages reach (Ready at met) initialised written ends ring memory confirmed
        → at + 8192 ≤ met + pages * 8192 → IsPut ends (at / 8192 % pages) 0 ends_behind
        → PagesHold pages reach (Zeroing at 0) initialised written ends_behind ring memory
        confirmed }
    ensures zeroed { (pages reach at count initialised written : ℕ)
        (ends ends_behind ring ring_behind memory : ℕ → ℕ) (confirmed : List ℕ)
        → PagesHold pages reach (Zeroing at count) initialised written ends ring memory confirmed
        → count < 1024 → ((b : ℕ) → b < pages → ends_behind b ≡ ends b)
        → IsPut ring (at / 8192 % pages * 1024 + count) 0 ring_behind
        → PagesHold pages reach (Zeroing at (count + 1)) initialised written ends_behind ring_behind
        memory confirmed }
    ensures published { (pages reach at initialised written : ℕ)
        (ends ends_behind ring memory : ℕ → ℕ) (confirmed : List ℕ)
        → PagesHold pages reach (Zeroing at 1024) initialised written ends ring memory confirmed
        → IsPut ends (at / 8192 % pages) (at + 8192) ends_behind
        → PagesHold pages (reach + 1) (Published at) initialised written ends_behind ring memory
        confirmed }
    ensures advanced { (pages reach at initialised written : ℕ) (ends ring memory : ℕ → ℕ)
        (confirmed : List ℕ) (id met : ℕ)
        → PagesHold pages reach (Published at) initialised written ends ring memory confirmed
        → HasAt confirmed id met
        → PagesHold pages reach Taken (at + 8192) written ends ring memory
        (set confirmed id (max met (at + 8192))) }
{}

/// A copy stores its next word, in the ring and in the log's memory; the log is written further.
pub fn stores_keep_pages()
    ensures word { (setup : Setup) (reach : ℕ) (stage : Stage) (initialised written : ℕ)
        (ends ends_behind ring ring_behind memory memory_behind : ℕ → ℕ) (confirmed : List ℕ)
        (flights : List Flight) (id met below value : ℕ) (c : Copy)
        → PagesHold setup.ring_pages reach stage initialised written ends ring memory confirmed
        → HasAt confirmed id met → HasAt flights id (Copying c) → CopiesOn setup met c
        → IsCopiedBelow setup.seg_size flights below → written ≤ below
        → ((b : ℕ) → b < setup.ring_pages → ends_behind b ≡ ends b)
        → IsPut ring (ring_place setup (number_of_next setup (Copying c))) value ring_behind
        → IsPut memory (number_of_next setup (Copying c)) value memory_behind
        → PagesHold setup.ring_pages reach stage initialised written ends_behind ring_behind
        memory_behind confirmed }
    ensures written { (pages reach : ℕ) (stage : Stage) (initialised written written_behind : ℕ)
        (ends ring memory : ℕ → ℕ) (confirmed : List ℕ)
        → PagesHold pages reach stage initialised written ends ring memory confirmed
        → written ≤ written_behind
        → PagesHold pages reach stage initialised written_behind ends ring memory confirmed }
{}

/// A pass comes to be, as one is split off or gives up its copy, and one goes, as it is taken in.
pub fn passes_keep_pages()
    ensures one_more { (pages reach : ℕ) (stage : Stage) (initialised written : ℕ)
        (ends ring memory : ℕ → ℕ) (confirmed : List ℕ) (id met : ℕ)
        → PagesHold pages reach stage initialised written ends ring memory confirmed
        → HasAt confirmed id met
        → PagesHold pages reach stage initialised written ends ring memory
        (set confirmed id met ++ 0 ∷ []) }
    ensures given_up { (pages reach : ℕ) (stage : Stage) (initialised written : ℕ)
        (ends ring memory : ℕ → ℕ) (confirmed : List ℕ) (id met : ℕ)
        → PagesHold pages reach stage initialised written ends ring memory confirmed
        → HasAt confirmed id met
        → PagesHold pages reach stage initialised written ends ring memory
        (set confirmed id met ++ met ∷ []) }
    ensures taken_in { (pages reach : ℕ) (stage : Stage) (initialised written : ℕ)
        (ends ring memory : ℕ → ℕ) (confirmed : List ℕ) (id other met : ℕ)
        → PagesHold pages reach stage initialised written ends ring memory confirmed
        → HasAt confirmed id met
        → PagesHold pages reach stage initialised written ends ring memory
        (set (set confirmed other 0) id met) }
{}
