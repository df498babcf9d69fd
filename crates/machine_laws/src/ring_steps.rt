//! Ring and pages behind each kind of step that changes what is said of them, where a state keeps
//! the invariant that has the pass's view: over the words and views behind the step. The laws of
//! `ring` and `pages` beside this, with the step's own word and value set in.

ghost use Rattle.std.specs.Prelude.{◌≡◌, ℕ, ◌+◌, true, List, [], ◌∷◌, ◌++◌, set, ◌==◌, if◌then◌else◌};
ghost use mathlib.Core.Option.{Option};
ghost use Rattle.wal_types.specs.declared.record.Record.{Record};
ghost use Rattle.segment_disk.specs.Tape.{DiskState};
ghost use Rattle.machine_state.specs.Words.{Opening, initialised_word, written_word, mapping_turn};
ghost use Rattle.machine_state.specs.Views.{HasAt, Away, Taken, Zeroing, Published, Lent, Out, Plain, View};
ghost use Rattle.machine_state.specs.Durable.{IsStaged};
ghost use Rattle.machine_state.specs.Moves.{after_join, entry_reserved, after_split, looked, orphan_of, ready, split_off, spent, without_work};
ghost use Rattle.machine_state.specs.Steps.{StepKind, IsResting, MayStep, clear_end, load_buffer_end, load_initialised_end, load_ring_word, load_written, page_mapped, publish_end, publish_initialised_end, release, release_mapping_turn, store_position, store_ring_word, store_written, take_mapping_turn, words_zeroed, zero_ring_word};
ghost use Rattle.machine_state.specs.Sound.{IsSound};
ghost use Rattle.machine_laws.specs.RingBehind.{HasPages, HasPagesWith, HasRing, HasRingWith, memory_stored, met_by};
ghost use Rattle.machine_laws.specs.RingLeft.{LeavesCopies, LeavesPages};

/// The log's words in memory: an entry is reserved, its next word is stored, a lock is released,
/// a page more is there.
pub fn steps_keep_the_ring()
    ensures reserved { (first : DiskState) (v : View) (words : List ℕ) (home : Option Plain)
        (views : List View)
        (id : ℕ) (s : IsSound first v.opening words home views) → HasAt views id v
        → (locks : List ℕ) (value : Record) → v.reserving.live ≡ true
        → (may : MayStep v (store_position locks value))
        → HasRing v words home views id (store_position locks value)
        (s.order ++ entry_reserved v.reserving.number may.0 value ∷ []) s.reach s.memory }
    ensures stored { (first : DiskState) (v : View) (words : List ℕ) (home : Option Plain)
        (views : List View)
        (id : ℕ) (s : IsSound first v.opening words home views) → HasAt views id v
        → MayStep v store_ring_word
        → HasRing v words home views id store_ring_word s.order s.reach (memory_stored v s.memory) }
    ensures released { (first : DiskState) (v : View) (words : List ℕ) (home : Option Plain)
        (views : List View)
        (id : ℕ) (s : IsSound first v.opening words home views) → HasAt views id v
        → (lock : ℕ) → MayStep v (release lock)
        → HasRing v words home views id (release lock) s.order s.reach s.memory }
    ensures published { (first : DiskState) (v : View) (words : List ℕ) (home : Option Plain)
        (views : List View)
        (id : ℕ) (s : IsSound first v.opening words home views) → HasAt views id v
        → HasRing v words home views id publish_end s.order (s.reach + 1) s.memory }
{}

/// The pages: an end, the initialised end and the written position are met, by a mapper too; and
/// what is loaded for a write.
pub fn loads_leave_pages_in_order()
    ensures end { (first : DiskState) (v : View) (words : List ℕ) (home : Option Plain)
        (views : List View)
        (id : ℕ) (s : IsSound first v.opening words home views) → HasAt views id v
        → (buffer : ℕ) → MayStep v (load_buffer_end buffer)
        → HasPages v words home views id (load_buffer_end buffer) s.reach s.stage s.memory }
    ensures initialised { (first : DiskState) (v : View) (words : List ℕ) (home : Option Plain)
        (views : List View)
        (id : ℕ) (s : IsSound first v.opening words home views) → HasAt views id v
        → HasPages v words home views id load_initialised_end s.reach s.stage s.memory }
    ensures looked { (first : DiskState) (v : View) (words : List ℕ) (home : Option Plain)
        (views : List View)
        (id : ℕ) (s : IsSound first v.opening words home views) → HasAt views id v
        → s.stage ≡ v.mapping.stage
        → HasPages v words home views id load_initialised_end s.reach
        (looked (initialised_word words) v.mapping.stage) s.memory }
    ensures written { (first : DiskState) (v : View) (words : List ℕ) (home : Option Plain)
        (views : List View)
        (id : ℕ) (s : IsSound first v.opening words home views) → HasAt views id v
        → HasPages v words home views id load_written s.reach s.stage s.memory }
    ensures ready { (first : DiskState) (v : View) (words : List ℕ) (home : Option Plain)
        (views : List View)
        (id : ℕ) (s : IsSound first v.opening words home views) → HasAt views id v
        → s.stage ≡ v.mapping.stage
        → HasPages v words home views id load_written s.reach
        (ready (written_word words) v.mapping.stage) s.memory }
    ensures word { (first : DiskState) (v : View) (words : List ℕ) (home : Option Plain)
        (views : List View)
        (id : ℕ) (s : IsSound first v.opening words home views) → HasAt views id v
        → (n : ℕ) (l : Lent) → v.writing.hold ≡ Out l → MayStep v (load_ring_word n)
        → IsStaged v.opening s.order l.known
        (n, met_by v words home views id (load_ring_word n)) }
{}

/// The pages, as one is given up for the next one.
pub fn mappers_leave_pages_in_order()
    ensures taken { (first : DiskState) (v : View) (words : List ℕ) (home : Option Plain)
        (views : List View)
        (id : ℕ) (s : IsSound first v.opening words home views) → HasAt views id v
        → HasPages v words home views id take_mapping_turn s.reach
        (if mapping_turn words == 0 then Taken else s.stage) s.memory }
    ensures given_back { (first : DiskState) (v : View) (words : List ℕ) (home : Option Plain)
        (views : List View)
        (id : ℕ) (s : IsSound first v.opening words home views) → HasAt views id v
        → MayStep v release_mapping_turn
        → HasPages v words home views id release_mapping_turn s.reach Away s.memory }
    ensures cleared { (first : DiskState) (v : View) (words : List ℕ) (home : Option Plain)
        (views : List View)
        (id : ℕ) (s : IsSound first v.opening words home views) → HasAt views id v
        → MayStep v clear_end → HasPages v words home views id clear_end s.reach
        (Zeroing (page_mapped v.mapping.stage) 0) s.memory }
    ensures zeroed { (first : DiskState) (v : View) (words : List ℕ) (home : Option Plain)
        (views : List View)
        (id : ℕ) (s : IsSound first v.opening words home views) → HasAt views id v
        → MayStep v zero_ring_word → HasPages v words home views id zero_ring_word s.reach
        (Zeroing (page_mapped v.mapping.stage) (words_zeroed v.mapping.stage + 1)) s.memory }
    ensures published { (first : DiskState) (v : View) (words : List ℕ) (home : Option Plain)
        (views : List View)
        (id : ℕ) (s : IsSound first v.opening words home views) → HasAt views id v
        → MayStep v publish_end → HasPages v words home views id publish_end (s.reach + 1)
        (Published (page_mapped v.mapping.stage)) s.memory }
    ensures advanced { (first : DiskState) (v : View) (words : List ℕ) (home : Option Plain)
        (views : List View)
        (id : ℕ) (s : IsSound first v.opening words home views) → HasAt views id v
        → MayStep v publish_initialised_end
        → HasPages v words home views id publish_initialised_end s.reach Taken s.memory }
{}

/// The pages, as a word is stored, and as the log is written further.
pub fn stores_leave_pages_in_order()
    ensures word { (first : DiskState) (v : View) (words : List ℕ) (home : Option Plain)
        (views : List View)
        (id : ℕ) (s : IsSound first v.opening words home views) → HasAt views id v
        → MayStep v store_ring_word
        → HasPages v words home views id store_ring_word s.reach s.stage
        (memory_stored v s.memory) }
    ensures written { (first : DiskState) (v : View) (words : List ℕ) (home : Option Plain)
        (views : List View)
        (id : ℕ) (s : IsSound first v.opening words home views) → HasAt views id v
        → MayStep v store_written
        → HasPages v words home views id store_written s.reach s.stage s.memory }
{}

/// Ring and pages, where a pass is split off, is taken in, or gives up its copy.
pub fn passes_leave_ring_and_pages_in_order()
    ensures ring_split { (first : DiskState) (opening : Opening) (words : List ℕ)
        (home : Option Plain)
        (views : List View) (s : IsSound first opening words home views) (id : ℕ) (v : View)
        → HasAt views id v → HasRingWith opening words home views s
        (set views id (after_split v) ++ split_off v ∷ []) }
    ensures ring_taken_in { (first : DiskState) (opening : Opening) (words : List ℕ)
        (home : Option Plain)
        (views : List View) (s : IsSound first opening words home views) (id : ℕ) (v : View)
        → HasAt views id v → (other : ℕ) (u : View) → HasAt views other u → IsResting u
        → HasRingWith opening words home views s
        (set (set views other (spent u)) id (after_join v u)) }
    ensures ring_given_up { (first : DiskState) (opening : Opening) (words : List ℕ)
        (home : Option Plain)
        (views : List View) (s : IsSound first opening words home views) (id : ℕ) (v : View)
        → HasAt views id v → HasRingWith opening words home views s
        (set views id (without_work v) ++ orphan_of v ∷ []) }
    ensures pages_split { (first : DiskState) (opening : Opening) (words : List ℕ)
        (home : Option Plain)
        (views : List View) (s : IsSound first opening words home views) (id : ℕ) (v : View)
        → HasAt views id v → HasPagesWith opening words home views s
        (set views id (after_split v) ++ split_off v ∷ []) }
    ensures pages_taken_in { (first : DiskState) (opening : Opening) (words : List ℕ)
        (home : Option Plain)
        (views : List View) (s : IsSound first opening words home views) (id : ℕ) (v : View)
        → HasAt views id v → (other : ℕ) (u : View) → HasAt views other u → IsResting u
        → HasPagesWith opening words home views s
        (set (set views other (spent u)) id (after_join v u)) }
    ensures pages_given_up { (first : DiskState) (opening : Opening) (words : List ℕ)
        (home : Option Plain)
        (views : List View) (s : IsSound first opening words home views) (id : ℕ) (v : View)
        → HasAt views id v → HasPagesWith opening words home views s
        (set views id (without_work v) ++ orphan_of v ∷ []) }
{}

/// Ring and pages, where a step changes nothing that is said of them.
pub fn other_steps_leave_ring_and_pages()
    ensures ring { (first : DiskState) (v : View) (words : List ℕ) (home : Option Plain)
        (views : List View)
        (id : ℕ) (s : IsSound first v.opening words home views) → HasAt views id v
        → (e : StepKind) → LeavesCopies e
        → HasRing v words home views id e s.order s.reach s.memory }
    ensures pages { (first : DiskState) (v : View) (words : List ℕ) (home : Option Plain)
        (views : List View)
        (id : ℕ) (s : IsSound first v.opening words home views) → HasAt views id v
        → (e : StepKind) → MayStep v e → LeavesPages e
        → HasPages v words home views id e s.reach s.stage s.memory }
{}
