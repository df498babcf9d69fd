//! The last records of a log.

ghost use Rattle.std.specs.Prelude.{◌≡◌, IfSome, map};
ghost use Rattle.segment_disk.specs.Tape.{IsUncalled};
ghost use Rattle.waldump_text.specs.Put.{Puts, joined};
ghost use Rattle.cluster_listing.specs.Tail.{IsTail, PutsKept, is_shown, last_so_many};
ghost use Rattle.cluster_listing.specs.Walk.{HasWalkCause};

use crate::form::Form;
use crate::listing::Listing;
use crate::printing::push_record;
use crate::taking::{TakeErr, TakesRecords};
use crate::walking::{ListErr, Walked, walk};
use byte_position::Geometry;
use segment_disk::{Disk, Sink};
use std::alloc::Global;
use std::collections::VecDeque;
use wal_reader::ReadErr;
use waldump_filter::{Filter, Listed};
use waldump_text::{SinkFault, put};

/// The texts of the last records that came.
#[derive(Drop)]
pub(crate) struct Tail {
    form: Form,
    /// How many are kept.
    most: usize,
    lines: VecDeque<Vec<u8>>,
}

impl TakesRecords for Tail {
    ghost use Rattle.std.specs.Prelude.{◌≡◌};
    ghost use Rattle.cluster_listing.specs.Tail.{KeepsLast};
    ghost use Rattle.cluster_listing.specs.declared.taking.TakeErr.TheVariants.{Memory};

    ghost took = { λ first now rs. KeepsLast first now rs };

    ghost cut = { λ first now e rs. e ≡ Memory };

    fn take(&mut self, alloc: Global, r: &Listed) -> Result<(), TakeErr> {
        let mut line = Vec::new(alloc);
        push_record(&mut line, self.form, r)?;
        self.lines.push_back(line)?;
        keep_last(&mut self.lines, self.most);
        Ok(())
    }
}

// Keeps the last lines alone.
fn keep_last(lines: &mut VecDeque<Vec<u8>>, most: usize)
    ensures { lines.new.items ≡ last_so_many most lines.old.items }
{
    while lines.len() > most {
        lines.pop_front();
    }
}

/// Lists the last records of what `list` lists, once all of it is read: also those before a stop.
pub fn list_tail<D: Disk, O: Sink + Drop>(
    alloc: Global,
    disk: &mut D,
    geometry: Geometry,
    filter: &Filter,
    form: Form,
    most: usize,
    out: O,
) -> Listing<O>
    ensures listed { IfSome (D.tape disk.old) (λ t. IsTail geometry filter.now form most t
        (O.taken out) (O.taken result.out) (O.faults out) (O.faults result.out)
        result.walked) }
    ensures uncalled { IsUncalled D.tape D.moment disk.old disk.new }
    ensures cause { HasWalkCause (D.faults disk.old) (D.faults disk.new) result.walked }
{
    let lines = VecDeque::new(alloc);
    let mut tail = Tail { form, most, lines };
    let mut out = out;
    let walked = walk(alloc, disk, geometry, filter, &mut tail);
    let walked = put_kept(walked, tail.lines, &mut out);
    Listing { walked, out }
}

// Puts the texts that are kept, unless memory ran out or the disk failed.
fn put_kept<O: Sink>(
    walked: Result<Walked, ListErr>,
    lines: VecDeque<Vec<u8>>,
    out: &mut O,
) -> Result<Walked, ListErr>
    ensures { PutsKept (O.taken out.old) (O.taken out.new) (O.faults out.old) (O.faults out.new)
        (joined (map (λ l. l.items) lines.items)) walked result }
{
    if !is_shown(walked) {
        return walked;
    }
    match put_lines(lines, out) {
        Ok(()) => walked,
        Err(fault) => Err(ListErr::Take(TakeErr::Sink(fault))),
    }
}

/// Whether what was kept is put where a walk ended so.
pub(crate) fn is_shown(walked: Result<Walked, ListErr>) -> bool
    ensures { result ≡ is_shown walked }
{
    match walked {
        Ok(_) => true,
        Err(ListErr::Read(ReadErr::Stopped(_))) => true,
        Err(ListErr::Read(ReadErr::Memory)) => false,
        Err(ListErr::Read(ReadErr::Disk { .. })) => false,
        Err(ListErr::Take(_)) => false,
    }
}

// Puts texts, one behind another.
fn put_lines<O: Sink>(lines: VecDeque<Vec<u8>>, out: &mut O) -> Result<(), SinkFault>
    ensures { Puts (O.taken out.old) (O.taken out.new) (O.faults out.old) (O.faults out.new)
        (joined (map (λ l. l.items) lines.items)) result }
{
    let mut lines = lines;
    while let Some(line) = lines.pop_front() {
        put(out, &line)?;
    }
    Ok(())
}
