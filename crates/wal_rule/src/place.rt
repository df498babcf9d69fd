//! The place at which a log's order begins, which clauses alone read.

ghost use Rattle.std.specs.Prelude.{◌≡◌, []};
ghost use Rattle.std.specs.Borrow.{ftrue};
ghost use Rattle.wal_page.specs.LogPlace.{LogPlace, new_place};

use machine_state::Setup;
use std::marker::{Brand, Model, PhantomData};

/// A place, which a call picks for the proof alone.
pub trait PicksPlace {
    ghost place: { LogPlace };
}

impl PicksPlace for Brand {
    ghost place = { record { position = 0; prev = 0; below = [] } };
}

/// The place at which a log's order begins. It takes no memory: the words and the writer with which
/// the log is opened have what of it is needed, and only the proof keeps all words below it.
#[derive(Drop)]
pub struct OrderPlace {
    marker: PhantomData<u8>,
    pub ghost place: { LogPlace },
}

impl Model for OrderPlace {
    ghost also_owns = { λ _. ftrue };
}

impl OrderPlace {
    /// This place. That a log may go on there is for who opens it to show.
    pub fn of<B: PicksPlace>() -> OrderPlace
        ensures { result.place ≡ B.place }
    {
        OrderPlace {
            marker: PhantomData,
        }
    }

    // That of a log that holds nothing.
    pub(crate) fn of_new_log(setup: Setup) -> OrderPlace
        ensures { result.place ≡ new_place setup.seg_size }
    {
        OrderPlace::picked::<Brand>(setup)
    }

    fn picked<B: PicksPlace>(_setup: Setup) -> OrderPlace
        ensures { result.place ≡ B.place }
    {
        OrderPlace::of::<B>()
    }
}
