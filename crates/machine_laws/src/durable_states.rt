//! Durability behind each kind of step, from a state that keeps the invariant: laws proved by
//! functions that do nothing. The laws of `durable_steps`, `new_entries` and `device_calls`, with
//! what the other parts of the invariant give them set in.

ghost use Rattle.std.specs.Prelude.{◌≡◌, ◌≢◌, ℕ, true, List, [], ◌∷◌, ◌++◌, map, set, slice_index};
ghost use mathlib.Core.Option.{Option};
ghost use Rattle.segment_disk.specs.Tape.{DiskState, create_call, sync_call, write_call};
ghost use Rattle.wal_types.specs.declared.record.Record.{Record};
ghost use Rattle.machine_state.specs.Words.{Opening, down_word, flushed_word, moment_word};
ghost use Rattle.machine_state.specs.Views.{HasAt, Plain, View, receipts_of};
ghost use Rattle.machine_state.specs.Suited.{IfSuited};
ghost use Rattle.machine_state.specs.Moves.{CallOutcome, after_create, after_sync, after_write, after_join, entry_reserved, after_split, orphan_of, split_off, spent, without_work};
ghost use Rattle.machine_state.specs.Sound.{IsSound};
ghost use Rattle.machine_state.specs.Steps.{StepKind, MayStep, create, place_at, store_position, sync, word_of_step, write};
ghost use Rattle.machine_laws.specs.Crashes.{CrashesLeave, DownTells};
ghost use Rattle.machine_laws.specs.DurableBehind.{HasDurable, HasDurableWith, IsInside, LoadsStaged};

/// Each kind of step of a pass but that one that adds an entry and the calls of the device; the
/// word that is loaded for a write is the ring's.
pub fn steps_leave_a_sound_log_durable()
    ensures inside { (first : DiskState) (words : List ℕ) (home : Option Plain) (views : List View)
        (id : ℕ) (v : View)
        (s : IsSound first v.opening words home views) → HasAt views id v
        → (e : StepKind) → MayStep v e → IsInside e
        → LoadsStaged v s.order e (slice_index words (word_of_step v e))
        → HasDurable first words home views id v e s.order s.writer }
    ensures store_position { (first : DiskState) (words : List ℕ) (home : Option Plain)
        (views : List View) (id : ℕ)
        (v : View) (s : IsSound first v.opening words home views) → HasAt views id v
        → (v.reserving).live ≡ true → (locks : List ℕ) (value : Record)
        → MayStep v (store_position locks value)
        → HasDurable first words home views id v (store_position locks value)
        (s.order ++ entry_reserved (v.reserving).number (place_at v (v.reserving).place) value ∷ [])
        s.writer }
{}

/// Each call of the device, with each outcome.
pub fn calls_leave_a_sound_log_durable()
    ensures create { (first : DiskState) (words : List ℕ) (home : Option Plain) (views : List View)
        (id : ℕ) (v : View)
        (s : IsSound first v.opening words home views) → HasAt views id v
        → (segment : ℕ) (outcome : CallOutcome) → MayStep v (create segment outcome)
        → HasDurable first words home views id v (create segment outcome) s.order
        (after_create segment (create_call ((v.opening).setup).seg_size segment) outcome
        s.writer) }
    ensures write { (first : DiskState) (words : List ℕ) (home : Option Plain) (views : List View)
        (id : ℕ) (v : View)
        (s : IsSound first v.opening words home views) → HasAt views id v
        → (segment page upto : ℕ) (bytes : List ℕ) (outcome : CallOutcome)
        → MayStep v (write segment page upto bytes outcome)
        → HasDurable first words home views id v (write segment page upto bytes outcome) s.order
        (after_write segment upto
        (write_call ((v.opening).setup).seg_size segment page bytes) outcome s.writer) }
    ensures sync { (first : DiskState) (words : List ℕ) (home : Option Plain) (views : List View)
        (id : ℕ) (v : View)
        (s : IsSound first v.opening words home views) → HasAt views id v
        → (segment : ℕ) (outcome : CallOutcome) → MayStep v (sync segment outcome)
        → HasDurable first words home views id v (sync segment outcome) s.order
        (after_sync (sync_call ((v.opening).setup).seg_size segment) outcome s.writer) }
{}

/// Passes are split off, taken in, and give up.
pub fn passes_leave_a_sound_log_durable()
    ensures split { (first : DiskState) (words : List ℕ) (home : Option Plain) (views : List View)
        (id : ℕ) (v : View)
        (s : IsSound first v.opening words home views) → HasAt views id v
        → HasDurableWith v.opening words home views s
        (set views id (after_split v) ++ split_off v ∷ []) }
    ensures join { (first : DiskState) (words : List ℕ) (home : Option Plain) (views : List View)
        (id : ℕ) (v : View)
        (s : IsSound first v.opening words home views) → HasAt views id v
        → (other : ℕ) (u : View) → HasAt views other u → id ≢ other
        → HasDurableWith v.opening words home views s
        (set (set views other (spent u)) id (after_join v u)) }
    ensures give_up { (first : DiskState) (words : List ℕ) (home : Option Plain) (views : List View)
        (id : ℕ) (v : View)
        (s : IsSound first v.opening words home views) → HasAt views id v
        → HasDurableWith v.opening words home views s
        (set views id (without_work v) ++ orphan_of v ∷ []) }
{}

/// What a state that keeps the invariant shows: what each crash leaves, where the disk tells what
/// it holds and held at the opening what a log may begin on, and what the down word tells.
pub fn sound_logs_show_what_crashes_leave()
    ensures crashes { (first : DiskState) (opening : Opening) (words : List ℕ) (home : Option Plain)
        (views : List View)
        (s : IsSound first opening words home views)
        → IfSuited first opening s.writer (λ t. CrashesLeave opening s.order (flushed_word words)
        (moment_word words) t (map receipts_of views)) }
    ensures down { (first : DiskState) (opening : Opening) (words : List ℕ) (home : Option Plain)
        (views : List View)
        (s : IsSound first opening words home views)
        → DownTells opening (down_word words) home s.writer (map receipts_of views) }
{}
