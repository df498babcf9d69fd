// What a pass knows, which is nothing at run time, and what the table is told once. A seat's view
// changes by the seat's own steps, and by no other seat's: it has what the seat holds (locks,
// turns, the writer), how far it is with what it is about, and what it has met. What the words hold
// now follows from it by the table's rule alone. What is told once (`Founding`) is the table's key:
// it never changes, so each seat's steps speak of the same log and of the same opening. A log that
// was found is settled behind that, with the table made: so its moment is told ahead, by the plan.
ghost use Rattle.std.specs.Prelude.{◌≡◌, ◌+◌, ◌<◌, ◌^◌};
ghost use Rattle.flush_core.specs.Planned.{call_count};
ghost use Rattle.wal_rule.specs.Founded.{disk_of_founding, empty_log_opening, found_log_opening, founded_opening};
ghost use Rattle.machine_state.specs.Views.{View};

use crate::place::OrderPlace;
use flush_core::SettlePlan;
use machine_state::Setup;
use segment_disk::Disk;
use std::marker::{Model, PhantomData};
use std::snapshot::Snapshot;

/// What a pass knows and is about: the machine's view.
#[derive(Drop)]
pub struct PassView {
    marker: PhantomData<u8>,
    pub ghost known: { View },
}

impl Model for PassView {
    ghost use Rattle.std.specs.Borrow.{ftrue};
    ghost use Rattle.machine_state.specs.Views.{View};

    ghost Value = { View };

    ghost view = { λ v. v.known };

    ghost also_owns = { λ _. ftrue };
}

/// What is fixed of a table: how its log was set up, the place at which its order begins and the
/// last segment that was made of it; its disk as it was handed in, with its count of faults; and
/// the disk's moment when the log is opened, which for one that was found is behind the settling.
#[derive(Drop)]
pub struct Founding<D> {
    pub setup: Setup,
    pub place: OrderPlace,
    /// 0 where there was no segment.
    pub made: u64,
    pub moment: u64,
    pub faults: u64,
    pub disk: Snapshot<D>,
}

impl<D: Disk> Founding<D> {
    /// What is to be fixed of a table for a log that begins on this disk. It makes no device call.
    pub fn of(setup: Setup, disk: &D) -> Founding<D>
        ensures opening { founded_opening result
            ≡ empty_log_opening setup (D.moment disk.now) (D.faults disk.now) }
        ensures disk { disk_of_founding result ≡ disk.now }
    {
        Founding::at(setup, disk, OrderPlace::of_new_log(setup), 0, disk.moment())
    }

    /// What is to be fixed of a table for a log that was found on this disk, in segments from 1 up
    /// to `made`, and goes on at this place once it was settled by the plan. It makes no device
    /// call.
    pub fn of_found(
        setup: Setup,
        disk: &D,
        place: OrderPlace,
        made: u64,
        plan: &SettlePlan,
    ) -> Founding<D>
        ensures opening { founded_opening result ≡ found_log_opening setup place.place made
            result.moment (D.faults disk.now) }
        // The moment behind the planned calls, where there is one.
        ensures moment { D.moment disk.now + call_count plan.now < 2 ^ 64
            → result.moment ≡ D.moment disk.now + call_count plan.now }
        ensures disk { disk_of_founding result ≡ disk.now }
    {
        let moment = plan.moment_behind(disk.moment());
        Founding::at(setup, disk, place, made, moment)
    }

    fn at(setup: Setup, disk: &D, place: OrderPlace, made: u64, moment: u64) -> Founding<D>
        ensures opening { founded_opening result
            ≡ found_log_opening setup place.place made moment (D.faults disk.now) }
        ensures disk { disk_of_founding result ≡ disk.now }
    {
        Founding {
            setup,
            place,
            made,
            moment,
            faults: disk.faults(),
            disk: Snapshot::of(disk),
        }
    }
}
