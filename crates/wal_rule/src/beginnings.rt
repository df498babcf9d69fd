//! What a table's disk held at the opening, told by its tape at any later time.

ghost use Rattle.std.specs.Prelude.{◌≡◌, IfSome, Option, length};
ghost use Rattle.segment_disk.specs.Tape.{Tape, state_now};
ghost use Rattle.flush_core.specs.Pages.{HoldsNothing};
ghost use Rattle.machine_state.specs.Suited.{BeganSuited, IsSuited};
ghost use Rattle.machine_state.specs.Words.{Opening};
ghost use Rattle.wal_rule.specs.Slotted.{GoesOnFrom, first_on};

/// Where a log was opened on a disk without a segment, a tape that goes on from the one then
/// tells so: the machine's `BeganSuited`, on which rests what crashes leave. So it does where the
/// log was found and whatever a crash leaves of the disk then has its words. What is asked of the
/// tape now is what `IsOfLog` says of the writer's disk.
pub fn tapes_tell_the_opening()
    ensures empty { (opening : Opening) (began now : Option Tape) → opening.made ≡ 0
        → HoldsNothing began
        → IfSome began (λ t. opening.moment ≡ length t.calls)
        → IfSome now (λ t. t.at_first ≡ first_on began) → IfSome now (GoesOnFrom began)
        → IfSome now (BeganSuited opening) }
    ensures found { (opening : Opening) (began now : Option Tape)
        → IfSome began (λ t. IsSuited opening (state_now t))
        → IfSome began (λ t. opening.moment ≡ length t.calls)
        → IfSome now (λ t. t.at_first ≡ first_on began) → IfSome now (GoesOnFrom began)
        → IfSome now (BeganSuited opening) }
{}
