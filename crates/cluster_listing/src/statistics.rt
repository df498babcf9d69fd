//! The statistics of a log's records (pg_waldump's `--stats=record`): a line for each manager, for
//! each kind of record, and for all, in a layout of this project's own.

ghost use Rattle.std.specs.Prelude.{◌≡◌, true, [], ◌∷◌, ◌<◌, ◌++◌, codes, IfOk, IfSome, OnOk};
ghost use Rattle.segment_disk.specs.Tape.{IsUncalled};
ghost use Rattle.waldump_text.specs.Names.{manager_name, name_text};
ghost use Rattle.waldump_text.specs.Put.{joined};
ghost use Rattle.waldump_text.specs.Statistics.{manager_line, sums_pieces, total_line};
ghost use Rattle.cluster_listing.specs.Kinds.{kind_word};
ghost use Rattle.cluster_listing.specs.Statistics.{PutsTally, kind_line, numbered_lines, row_of, statistics_text, tallied_text};
ghost use Rattle.cluster_listing.specs.Tail.{IsGathered, PutsKept, is_shown};
ghost use Rattle.cluster_listing.specs.Walk.{HasWalkCause};

use crate::kinds::kind_name;
use crate::line::push_left_aligned;
use crate::listing::Listing;
use crate::pieces::push_all;
use crate::tail::is_shown;
use crate::taking::TakeErr;
use crate::tally::KindTally;
use crate::walking::{ListErr, Walked, walk};
use byte_position::Geometry;
use segment_disk::{Disk, Sink};
use std::alloc::{AllocError, Global};
use waldump_filter::Filter;
use waldump_text::{ManagerName, Sums, manager_name, put};

/// Puts the statistics of the records that `list` lists, once all of them are read: also of those
/// before a stop.
pub fn list_statistics<D: Disk, O: Sink + Drop>(
    alloc: Global,
    disk: &mut D,
    geometry: Geometry,
    filter: &Filter,
    out: O,
) -> Listing<O>
    ensures listed { IfSome (D.tape disk.old) (λ t. IsGathered geometry filter.now
        statistics_text t (O.taken out) (O.taken result.out) (O.faults out)
        (O.faults result.out) result.walked) }
    ensures uncalled { IsUncalled D.tape D.moment disk.old disk.new }
    ensures cause { HasWalkCause (D.faults disk.old) (D.faults disk.new) result.walked }
{
    let mut out = out;
    let mut tally = KindTally::new();
    let walked = walk(alloc, disk, geometry, filter, &mut tally);
    let walked = put_tally(alloc, walked, &tally, &mut out);
    Listing { walked, out }
}

// Puts the text of a tally, unless memory ran out or the disk failed.
fn put_tally<O: Sink>(
    alloc: Global,
    walked: Result<Walked, ListErr>,
    tally: &KindTally,
    out: &mut O,
) -> Result<Walked, ListErr>
    ensures { PutsTally (O.taken out.old) (O.taken out.new) (O.faults out.old)
        (O.faults out.new) (tallied_text tally.now) walked result }
{
    if !is_shown(walked) {
        return walked;
    }
    match tallied_text(alloc, tally) {
        Ok(text) => put_text(walked, &text, out),
        Err(_) => Err(ListErr::Take(TakeErr::Memory)),
    }
}

// Puts a text behind a walk.
fn put_text<O: Sink>(
    walked: Result<Walked, ListErr>,
    text: &[u8],
    out: &mut O,
) -> Result<Walked, ListErr>
    ensures { is_shown walked ≡ true → PutsKept (O.taken out.old) (O.taken out.new)
        (O.faults out.old) (O.faults out.new) text.now walked result }
{
    match put(out, text) {
        Ok(()) => walked,
        Err(fault) => Err(ListErr::Take(TakeErr::Sink(fault))),
    }
}

fn tallied_text(alloc: Global, tally: &KindTally) -> Result<Vec<u8>, AllocError>
    ensures { IfOk result (λ text. text.items ≡ tallied_text tally.now) }
{
    let mut text = Vec::new(alloc);
    push_managers(&mut text, &tally.managers)?;
    push_kinds(&mut text, &tally.kinds)?;
    push_total(&mut text, tally.all)?;
    Ok(text)
}

fn push_managers(text: &mut Vec<u8>, rows: &[Sums; 256]) -> Result<(), AllocError>
    ensures { OnOk result
        (text.new.items
        ≡ text.old.items ++ numbered_lines manager_line (row_of rows.now) 256 0) }
{
    for rmid in 0..256 {
        push_manager(text, rmid as u8, rows[rmid])?;
    }
    Ok(())
}

fn push_kinds(text: &mut Vec<u8>, rows: &[Sums; 4096]) -> Result<(), AllocError>
    ensures { OnOk result
        (text.new.items
        ≡ text.old.items ++ numbered_lines kind_line (row_of rows.now) 4096 0) }
{
    for kind in 0..4096 {
        push_kind(text, kind as u16, rows[kind])?;
    }
    Ok(())
}

// The line of a manager, if it wrote a record.
fn push_manager(text: &mut Vec<u8>, rmid: u8, sums: Sums) -> Result<(), AllocError>
    ensures { OnOk result (text.new.items ≡ text.old.items ++ manager_line rmid sums) }
{
    if sums.records == 0 {
        return Ok(());
    }
    text.extend_from_slice(b"stats: rmgr ")?;
    push_left_aligned(text, name_of(rmid).as_bytes(), 11)?;
    push_sums(text, sums)
}

// The line of a kind of record, if there was one.
fn push_kind(text: &mut Vec<u8>, kind: u16, sums: Sums) -> Result<(), AllocError>
    requires { kind < 4096 }
    ensures { OnOk result (text.new.items ≡ text.old.items ++ kind_line kind sums) }
{
    if sums.records == 0 {
        return Ok(());
    }
    push_kind_name(text, (kind / 16) as u8, (kind % 16 * 16) as u8)?;
    push_sums(text, sums)
}

fn push_kind_name(text: &mut Vec<u8>, rmid: u8, info: u8) -> Result<(), AllocError>
    ensures { OnOk result (text.new.items ≡ text.old.items ++ joined
        (codes "stats: kind " ∷ manager_name rmid ∷ codes "/" ∷ kind_word rmid info ∷ [])) }
{
    push_all(
        text,
        &[
            b"stats: kind ",
            name_of(rmid).as_bytes(),
            b"/",
            kind_name(rmid, info).as_bytes(),
        ],
    )
}

fn push_total(text: &mut Vec<u8>, sums: Sums) -> Result<(), AllocError>
    ensures { OnOk result (text.new.items ≡ text.old.items ++ total_line sums) }
{
    text.extend_from_slice(b"stats: total")?;
    push_sums(text, sums)
}

// A manager's name, or no text where no manager has this number.
fn name_of(rmid: u8) -> ManagerName
    ensures { name_text result ≡ manager_name rmid }
{
    if rmid < 22 || rmid >= 128 {
        manager_name(rmid)
    } else {
        ManagerName::Own("")
    }
}

fn push_sums(text: &mut Vec<u8>, sums: Sums) -> Result<(), AllocError>
    ensures { OnOk result (text.new.items ≡ text.old.items ++ joined (sums_pieces sums)) }
{
    let mut records = itoa::Buffer::new();
    let mut rest = itoa::Buffer::new();
    let mut images = itoa::Buffer::new();
    let mut total = itoa::Buffer::new();
    push_all(
        text,
        &[
            b" records ",
            records.format(sums.records).as_bytes(),
            b" rec ",
            rest.format(sums.total.saturating_sub(sums.images))
                .as_bytes(),
            b" fpi ",
            images.format(sums.images).as_bytes(),
            b" total ",
            total.format(sums.total).as_bytes(),
            b"\n",
        ],
    )
}
