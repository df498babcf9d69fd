//! What users of a log that passes share may count on, proved by functions that do nothing.

ghost use Rattle.std.specs.Prelude.{◌≡◌, ◌⊎◌, ℕ, ◌^◌, ◌<◌, ◌++◌, All, Contains, List, Result, Some};
ghost use Rattle.wal_spelling.specs.Spelling.{Assembled};
ghost use Rattle.segment_disk.specs.Tape.{Tape};
ghost use Rattle.flush_core.specs.Pages.{HoldsNothing};
ghost use Rattle.wal_page.specs.Order.{Entry, finish_of};
ghost use Rattle.wal_types.specs.declared.answers.Hard.{Hard};
ghost use Rattle.wal_types.specs.declared.answers.Receipt.{Receipt};
ghost use Rattle.wal_types.specs.declared.answers.Refused.{Refused};
ghost use Rattle.wal_types.specs.declared.answers.Sealed.{Sealed};
ghost use Rattle.machine_state.specs.declared.setup.Setup.{Setup};
ghost use Rattle.machine_state.specs.Views.{FlushPromise, View};
ghost use Rattle.machine_state.specs.Words.{Opening};
ghost use Rattle.wal_rule.specs.declared.pass.Pass.{Pass};
ghost use Rattle.wal_rule.specs.Passes.{view_of_pass};
ghost use Rattle.machine_state.specs.Moves.{after_join, after_split, split_off};
ghost use Rattle.run_laws.specs.Closed.{WasPromised};
ghost use Rattle.wal_log.specs.Behind.{AnswersBehind, AnswersBehindTry};
ghost use Rattle.wal_log.specs.Committing.{AnswersCommit, IsSealed};
ghost use Rattle.wal_log.specs.Flights.{AnswersTryBegin};
ghost use Rattle.wal_log.specs.Flushing.{AnswersFlush, AnswersFlushTry, IsToldHard, TellsHard};
ghost use Rattle.wal_log.specs.Inserting.{HasReserved, AnswersInsert};
ghost use Rattle.wal_log.specs.Logs.{setup_of_log};
ghost use Rattle.wal_log.specs.PassLogs.{PassLog, log_of_pass, log_with_entry};
ghost use Rattle.wal_log.specs.Standing.{KeepsPass};
ghost use Rattle.wal_log.specs.Switching.{AnswersSwitch};
ghost use Rattle.wal_log.specs.SwitchTries.{AnswersTrySwitch};
ghost use Rattle.wal_log.specs.declared.behind.Caught.{Caught};
ghost use Rattle.wal_log.specs.declared.closing.Closed.{Closed};
ghost use Rattle.wal_log.specs.declared.beginning.TryErr.{TryErr};
ghost use Rattle.wal_log.specs.declared.flushing.FlushErr.{FlushErr};
ghost use Rattle.wal_log.specs.declared.flushing.TryFlushErr.{TryFlushErr};
ghost use Rattle.wal_log.specs.declared.in_flight.Inflight.{Inflight};
ghost use Rattle.wal_log.specs.declared.inserting.InsertErr.{InsertErr};
ghost use Rattle.wal_log.specs.declared.switch_tries.SwitchBegun.{SwitchBegun};
ghost use Rattle.wal_log.specs.declared.switch_tries.TrySwitchErr.{TrySwitchErr};
ghost use Rattle.wal_log.specs.declared.switching.Switch.{Switch};
ghost use Rattle.wal_log.specs.declared.wal.Wal.{Wal};
ghost use Rattle.wal_log_laws.specs.Growing.{GrowsTo, HasGrown, HasLog, IsNewPass, logs_of_pass, view_behind_switch, view_behind_try};
ghost use Rattle.wal_log_laws.specs.Keeping.{IsClosedFrom, KeepsPromises, LeavesOrder};
ghost use Rattle.wal_log_laws.specs.Surviving.{Survives};
ghost use Rattle.wal_log_laws.specs.Told.{HasEntry, HasPromise, Promises, promise_to};

use segment_disk::Disk;

/// Whatever a call answers, the log of its pass only grows. A split and a join leave it as it was;
/// and a pass that took another one in has each log that either had.
pub fn logs_only_grow<D: Disk>()
    ensures inserts { (setup : Setup) (body : Assembled) (old new : View)
        (answer : Result Receipt InsertErr) → AnswersInsert setup body old answer new
        → GrowsTo (log_of_pass old) (log_of_pass new) }
    ensures flushes { (asked : ℕ) (old new : View) (answer : Result Hard FlushErr)
        → AnswersFlush asked old answer new → GrowsTo (log_of_pass old) (log_of_pass new) }
    ensures commits { (setup : Setup) (body : Assembled) (old new : View)
        (answer : Result Sealed Refused) → AnswersCommit setup body old answer new
        → GrowsTo (log_of_pass old) (log_of_pass new) }
    ensures switches { (setup : Setup) (body : Assembled) (old new : View)
        (answer : Result Switch InsertErr) → AnswersSwitch setup body old answer new
        → GrowsTo (log_of_pass old) (log_of_pass new) }
    ensures begins { (wal : Wal D) (body : Assembled) (old : View)
        (answer : Result Inflight (TryErr × Pass)) → AnswersTryBegin wal body old answer
        → GrowsTo (log_of_pass old) (log_of_pass (view_behind_try answer)) }
    ensures switch_tries { (wal : Wal D) (body : Assembled) (old : View)
        (answer : Result SwitchBegun (TrySwitchErr × Pass)) → AnswersTrySwitch wal body old answer
        → GrowsTo (log_of_pass old) (log_of_pass (view_behind_switch answer)) }
    ensures tries { (asked : ℕ) (old new : View) (answer : Result Hard TryFlushErr)
        → AnswersFlushTry asked old answer new → GrowsTo (log_of_pass old) (log_of_pass new) }
    ensures hard { (upto moment : ℕ) (old new : View) → TellsHard upto moment old new
        → GrowsTo (log_of_pass old) (log_of_pass new) }
    // A commit that is answered ahead is told as an insert.
    ensures behind { (old new : View) (answer : Result Caught FlushErr)
        → AnswersBehind old answer new → GrowsTo (log_of_pass old) (log_of_pass new) }
    ensures behind_tries { (old new : View) (answer : Result Caught TryFlushErr)
        → AnswersBehindTry old answer new → GrowsTo (log_of_pass old) (log_of_pass new) }
    ensures stays { (l : PassLog) → GrowsTo l l }
    ensures again { (first second third : PassLog) → GrowsTo first second
        → GrowsTo second third → GrowsTo first third }
    ensures own { (v w : View) → (log_of_pass (after_split v) ≡ log_of_pass v)
        × (log_of_pass (after_join v w) ≡ log_of_pass v) }
    ensures join { (l : PassLog) (v w : View) → HasLog l v ⊎ HasLog l w
        → HasLog l (after_join v w) }
{}

/// So a log that a pass had, grown since, some pass has until the last one closes: behind each call
/// of its own, behind a split, and in the pass that took it in.
pub fn logs_are_never_lost()
    ensures own { (v : View) → HasGrown (log_of_pass v) v }
    ensures calls { (l : PassLog) (old new : View) → KeepsPass old new
        → GrowsTo (log_of_pass old) (log_of_pass new) → HasGrown l old → HasGrown l new }
    ensures split { (l : PassLog) (v : View) → HasGrown l v
        → HasGrown l (after_split v) }
    ensures join { (l : PassLog) (v w : View) → HasGrown l v ⊎ HasGrown l w
        → HasGrown l (after_join v w) }
{}

/// The logs that a pass has are its own and those of the passes that it took in: one that took
/// another one in has the logs of both, in this order; and one that was split off has reserved
/// nothing, and took none in.
pub fn passes_hand_on_their_logs()
    ensures has { (v : View) → All (λ l. HasLog l.log v) (logs_of_pass v) }
    ensures join { (v w : View)
        → logs_of_pass (after_join v w) ≡ logs_of_pass v ++ logs_of_pass w }
    ensures split { (v : View) → IsNewPass (split_off v) }
{}

/// A record that was reserved stands in its pass's log. What a flush or a commit tells is a promise
/// to that log, of the address that was asked for or a higher one, or of the end of the commit's
/// record; and what is told as durable without a flush is one, of the address told. And the last
/// pass has all of it, where it has the log, grown since.
pub fn what_was_told_was_promised()
    ensures entry { (setup : Setup) (body : Assembled) (old new : View) (e : Entry)
        → HasReserved setup body old new e → Contains (log_of_pass new).entries e }
    ensures flush { (asked upto moment : ℕ) (old new : View)
        → IsToldHard asked upto moment old new
        → Promises (log_of_pass new) asked (promise_to (log_of_pass old) upto moment) }
    ensures hard { (upto moment : ℕ) (old new : View) → TellsHard upto moment old new
        → Promises (log_of_pass new) upto (promise_to (log_of_pass old) upto moment) }
    ensures commit { (setup : Setup) (body : Assembled) (old new : View) (sealed : Sealed)
        (s : IsSealed setup body old new sealed) → Contains (log_of_pass new).entries s.entry
        × Promises (log_of_pass new) sealed.end.0
        (promise_to (log_with_entry s.entry (log_of_pass old)) s.upto sealed.moment) }
    ensures still_entry { (l : PassLog) (v : View) (e : Entry) → Contains l.entries e
        → HasGrown l v → HasEntry e v }
    ensures still_promise { (l : PassLog) (v : View) (address : ℕ) (p : FlushPromise)
        → Promises l address p → HasGrown l v → HasPromise address p v }
    ensures closed { (v : View) (address : ℕ) (p : FlushPromise)
        (has : HasPromise address p v) → WasPromised v has.0.entries p }
{}

/// A log that was opened on a disk and closed leaves one order, which ends where the closing told;
/// each pass's log is its part of it. Where the disk told at the opening that it held nothing, it
/// keeps what was promised: whatever a crash leaves, at any moment, reads as a front of the order
/// with all that was promised by then.
pub fn closed_logs_are_closed_on_their_disk<D: Disk>()
    ensures closed { (setup : Setup) (disk : D) (wal : Wal D) (pass : Pass) (closed : Closed D)
        → IsClosedFrom D.tape D.moment D.faults setup disk wal pass closed
        → setup.sysid < 2 ^ 64
        → (order : List Entry) × LeavesOrder D.tape disk wal pass closed order }
{}

/// The headline: where a commit told that its record is durable from a moment on, and the last pass
/// of the log has the log of that commit's pass, grown since, then whatever a crash leaves of the
/// disk at that moment or a later one reads as a front of the log's order which holds the record.
/// More generally, each entry that the last pass has is found so, from the moment of any promise on
/// that the last pass has and that reaches the entry's end.
pub fn sealed_records_survive<D: Disk>()
    ensures sealed { (disk : D) (wal : Wal D) (pass : Pass) (closed : Closed D)
        (order : List Entry) → LeavesOrder D.tape disk wal pass closed order
        → HoldsNothing (D.tape disk) → (t : Tape) → D.tape closed.disk ≡ Some t
        → (body : Assembled) (old new : View) (sealed : Sealed)
        (s : IsSealed (setup_of_log wal) body old new sealed)
        → HasGrown (log_of_pass new) (view_of_pass pass)
        → Survives (setup_of_log wal).seg_size order t sealed.moment s.entry }
    ensures entries { (opening : Opening) (order : List Entry) (t : Tape)
        (v : View) → KeepsPromises opening order t v
        → (e : Entry) (p : FlushPromise) → HasEntry e v
        → HasPromise (finish_of (opening.setup).seg_size e) p v
        → Survives (opening.setup).seg_size order t p.moment e }
{}
