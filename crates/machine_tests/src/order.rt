//! The position and the last start.

ghost use Rattle.std.specs.Prelude.{◌≡◌, ◌↔◌, All, Any, IsTrue, true};
ghost use Rattle.machine_state.specs.Sound.{IsSetup};
ghost use Rattle.machine_state.specs.Words.{log_start};
ghost use Rattle.machine_tests.specs.Order.{FollowOn, IsPosition, Met, OrderAgrees, end_of_records, has_position, has_stored, locked_by, start_of_records};

use crate::moment::{BackendNow, ReservedSpan};
use crate::words::word_at;
use machine_state::layout::{LAST_START, POSITION};
use machine_state::{LogShape, Setup};
use machine_turns::PlainPlace;

pub(crate) fn order_agrees(
    setup: Setup,
    words: &[u64],
    order: &[ReservedSpan],
    backends: &[BackendNow],
) -> bool
    requires { IsSetup setup }
    ensures { IsTrue result ↔ OrderAgrees (log_start setup) words.now order.now backends.now }
{
    let Some(shape) = LogShape::new(setup) else {
        return false;
    };
    let beginning = shape.start();
    let end = end_of_records(beginning, order);
    let last = start_of_records(0, order);
    follow_on(beginning, 0, order)
        && position_is(word_at(words, POSITION), end, backends)
        && have_met(end, last, backends)
        && (has_any_stored(backends) || word_at(words, LAST_START) == last)
}

fn follow_on(position: u64, last: u64, order: &[ReservedSpan]) -> bool
    ensures { IsTrue result ↔ FollowOn position last order.now }
{
    match order {
        [] => true,
        [r, rest @ ..] => {
            r.start == position && r.prev == last && follow_on(r.end, r.address, rest)
        }
    }
}

fn end_of_records(position: u64, order: &[ReservedSpan]) -> u64
    ensures { result ≡ end_of_records position order.now }
{
    match order {
        [] => position,
        [r, rest @ ..] => end_of_records(r.end, rest),
    }
}

fn start_of_records(last: u64, order: &[ReservedSpan]) -> u64
    ensures { result ≡ start_of_records last order.now }
{
    match order {
        [] => last,
        [r, rest @ ..] => start_of_records(r.address, rest),
    }
}

// The position is where the last record ends, and one more where the one backend has it locked.
fn position_is(position: u64, end: u64, backends: &[BackendNow]) -> bool
    ensures { IsTrue result ↔ IsPosition position end backends.now }
{
    let locked = locked_by(backends);
    locked <= 1 && position >= end && position - end == locked as u64
}

fn locked_by(backends: &[BackendNow]) -> usize
    ensures { result ≡ locked_by backends.now }
{
    backends
        .iter()
        .filter(|b| has_position(b.view.place))
        .count()
}

fn has_position(place: PlainPlace) -> bool
    ensures { result ≡ has_position place }
{
    match place {
        PlainPlace::Free => false,
        PlainPlace::Locked { .. } | PlainPlace::Loaded { .. } | PlainPlace::Stored { .. } => true,
    }
}

fn have_met(end: u64, last: u64, backends: &[BackendNow]) -> bool
    ensures { IsTrue result ↔ All (λ b. Met end last b.view.place) backends.now }
{
    backends.iter().all(|b| met(end, last, b.view.place))
}

fn met(end: u64, last: u64, place: PlainPlace) -> bool
    ensures { IsTrue result ↔ Met end last place }
{
    match place {
        PlainPlace::Free => true,
        PlainPlace::Locked { at } => at == end,
        PlainPlace::Loaded { at, prev } | PlainPlace::Stored { at, prev } => at == end
            && prev == last,
    }
}

fn has_any_stored(backends: &[BackendNow]) -> bool
    ensures { IsTrue result ↔ Any (λ b. has_stored b.view.place ≡ true) backends.now }
{
    backends.iter().any(|b| has_stored(b.view.place))
}

fn has_stored(place: PlainPlace) -> bool
    ensures { result ≡ has_stored place }
{
    match place {
        PlainPlace::Stored { .. } => true,
        PlainPlace::Free | PlainPlace::Locked { .. } | PlainPlace::Loaded { .. } => false,
    }
}
