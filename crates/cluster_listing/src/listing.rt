ghost use Rattle.std.specs.Prelude.{IfSome};
ghost use Rattle.segment_disk.specs.Tape.{IsUncalled};
ghost use Rattle.cluster_listing.specs.Walk.{HasWalkCause};
ghost use Rattle.cluster_listing.specs.Listing.{IsListing};

use crate::form::Form;
use crate::printing::Printer;
use crate::walking::{ListErr, Walked, walk};
use byte_position::Geometry;
use segment_disk::{Disk, Sink};
use std::alloc::Global;
use waldump_filter::Filter;

/// How a listing ended, and the sink that it was put into.
#[derive(Drop)]
pub struct Listing<O: Sink + Drop> {
    pub walked: Result<Walked, ListErr>,
    pub out: O,
}

/// Lists what the disk's log decodes to, by a filter and in a form, each record as it comes.
/// Reading begins on the page that holds the filter's start; once the limit is listed, nothing is
/// read any more.
pub fn list<D: Disk, O: Sink + Drop>(
    alloc: Global,
    disk: &mut D,
    geometry: Geometry,
    filter: &Filter,
    form: Form,
    out: O,
) -> Listing<O>
    ensures listed { IfSome (D.tape disk.old) (λ t. IsListing geometry filter.now form t
        (O.taken out) (O.taken result.out) (O.faults out) (O.faults result.out)
        result.walked) }
    ensures uncalled { IsUncalled D.tape D.moment disk.old disk.new }
    ensures cause { HasWalkCause (D.faults disk.old) (D.faults disk.new) result.walked }
{
    let line = Vec::new(alloc);
    let mut printer = Printer { form, out, line };
    let walked = walk(alloc, disk, geometry, filter, &mut printer);
    Listing {
        walked,
        out: printer.out,
    }
}
