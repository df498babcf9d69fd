// What is known to be copied is written out, with the writer in hand (PostgreSQL's xlog.c,
// XLogWrite), and stored as written, so that its pages may be replaced. This is not durable yet and
// nobody is told so: a sync and two stores come behind it, in a flush alone. An insert that needs
// the buffer of a page not written (AdvanceXLInsertBuffer) comes here with its insertion locks held
// and its record in flight. In this order: it tells its progress under its locks, which would hold
// its own watch back else; it watches; it takes the turn to write and the writer; it writes page by
// page, stores behind each what is written, and gives writer and turn back.
ghost use Rattle.std.specs.Prelude.{◌≡◌, ◌≤◌, MatchResult, OnOk};
ghost use Rattle.insert_locks.specs.Holding.{HasTold};
ghost use Rattle.word_ring.specs.InHand.{IsReady, known_copied, writer_in};
ghost use Rattle.wal_rule.specs.SeatedPasses.{HasView, setup_of, view_of};
ghost use Rattle.wal_log.specs.Downs.{KnowsNoFault, SetsDownItself};
ghost use Rattle.wal_log.specs.Hands.{HasAllStored, HasFailed};
ghost use Rattle.wal_log.specs.HeldLocks.{locks_of};
ghost use Rattle.wal_log.specs.Copying.{CopyGoesOn};
ghost use Rattle.wal_log.specs.Standing.{AddsNothing, CopiesAlone, HasNoTurn};
ghost use Rattle.wal_log.specs.Writing.{BreaksWriting, TellsWriteErr, WritesAll, WritesCopied, stored_view, write_err_of_turn};
ghost use Rattle.wal_log.specs.declared.fault.Fault.TheVariants.{Disk};
ghost use Rattle.wal_log.specs.declared.writing.WriteErr.TheVariants.{Fault};

use crate::fault::Fault;
use crate::held_locks::{Held, tell_under};
use crate::turns::{TurnErr, give_back, go_down, take_ready};
use byte_position::{PAGE_SIZE, Page};
use flush_core::DiskFault;
use insert_locks::{LockNo, Watched, watch};
use segment_disk::Disk;
use wal_page::Placed;
use wal_rule::SeatedPass;
use wal_types::Lsn;
use word_ring::{write_next, writer_now};

/// Why a page was not written early.
#[derive(Clone, Copy, Debug, PartialEq, Eq)]
pub enum WriteErr {
    /// The disk has failed, in this call or before.
    Fault(Fault),
    /// An insertion lock's holder has not copied so far: the lock's word.
    Behind { lock: LockNo, word: u64 },
    /// Somebody has the turn to write: the turn's word.
    Turn { turn: u64 },
}

impl From<TurnErr> for WriteErr {
    ghost from_gives = { λ e w. w ≡ write_err_of_turn e };

    fn from(e: TurnErr) -> WriteErr {
        match e {
            TurnErr::Down { faults } => WriteErr::Fault(Fault::Down { faults }),
            TurnErr::Taken { turn } => WriteErr::Turn { turn },
        }
    }
}

impl From<DiskFault> for WriteErr {
    ghost from_gives = { λ e w. w ≡ Fault (Disk e.faults) };

    fn from(e: DiskFault) -> WriteErr {
        WriteErr::Fault(Fault::Disk { faults: e.faults })
    }
}

// Writes out what is known to be copied, and stores how far the log is written. If the disk fails,
// sets it down and gives writer and turn back.
pub(crate) fn write_known<'p, D: Disk>(
    seated: &mut SeatedPass<'p, D>,
    known: u64,
) -> Result<(), DiskFault>
    // The writer is in hand and has not failed, and `known` is what the watch told before it was
    // taken.
    requires ready { IsReady D.tape D.moment D.faults seated.old }
    requires known { known ≡ known_copied (view_of seated.old) }
    requires up { KnowsNoFault (view_of seated.old) }
    // It is still in hand, and has written up to there at least, which is stored. Or the disk has
    // failed: the down value is set, and neither writer nor turn is had any more.
    ensures ends { MatchResult result
        (λ _. HasAllStored D.tape D.moment D.faults seated.new
        × (known ≤ (writer_in (view_of seated.new)).written))
        (λ e. SetsDownItself e.faults (view_of seated.new) × HasNoTurn seated.new) }
    // The device is called just as that takes it. Where a call fails `write_pages` tells of it.
    ensures calls { OnOk result (WritesAll (setup_of seated.old).seg_size known
        (writer_in (view_of seated.old)) (writer_in (view_of seated.new))) }
    // Locks, copy and log are as they were, and nothing is promised.
    ensures adds_nothing { AddsNothing seated.old seated.new }
{
    let mut bytes = [0; PAGE_SIZE as usize];
    if let Err(fault) = write_pages(seated, known, &mut bytes) {
        go_down(seated, fault);
        return Err(fault);
    }
    Ok(())
}

// Writes page by page what is known to be copied, and stores behind each page how far the log is
// written: so others may map pages while this pass goes on to write.
pub(crate) fn write_pages<'p, D: Disk>(
    seated: &mut SeatedPass<'p, D>,
    known: u64,
    bytes: &mut Page,
) -> Result<(), DiskFault>
    requires ready { IsReady D.tape D.moment D.faults seated.old }
    requires known { known ≡ known_copied (view_of seated.old) }
    requires up { KnowsNoFault (view_of seated.old) }
    // All of it is stored, as `write_known` tells; but where the disk has failed the writer is in
    // hand still, with the fault that is told.
    ensures ends { MatchResult result
        (λ _. HasAllStored D.tape D.moment D.faults seated.new
        × (known ≤ (writer_in (view_of seated.new)).written))
        (λ e. HasFailed D.tape D.moment D.faults e.faults seated.new) }
    ensures calls { MatchResult result
        (λ _. WritesAll (setup_of seated.old).seg_size known (writer_in (view_of seated.old))
        (writer_in (view_of seated.new)))
        (λ _. BreaksWriting (setup_of seated.old).seg_size known
        (writer_in (view_of seated.old)) (writer_in (view_of seated.new))) }
    ensures adds_nothing { AddsNothing seated.old seated.new }
{
    let written = store_written(seated);
    if known <= written {
        return Ok(());
    }
    for page in written / PAGE_SIZE..known.div_ceil(PAGE_SIZE) {
        write_next(seated, known, page, bytes)?;
        store_written(seated);
    }
    Ok(())
}

// Stores how far the writer in hand has written the log, and tells it.
pub(crate) fn store_written<'p, D: Disk>(seated: &mut SeatedPass<'p, D>) -> u64
    requires ready { IsReady D.tape D.moment D.faults seated.old }
    ensures ready { IsReady D.tape D.moment D.faults seated.new }
    ensures view { HasView (stored_view (view_of seated.old)) seated.old seated.new }
    ensures written { result ≡ (writer_in (view_of seated.old)).written }
{
    let written = writer_now(seated).written;
    seated.store_written(written);
    written
}

// Tells how far a record's copy has come, under each of its locks: up to the address of its next
// word. No word of it is left below, so a watch may pass the locks up to there. The view keeps what
// was told, and is else as it was.
pub(crate) fn tell_progress<'p, 'a, D: Disk>(
    seated: &mut SeatedPass<'p, D>,
    held: Held,
    placed: &Placed<'a>,
)
    requires copies { CopiesAlone (locks_of held) placed.now seated.old }
    ensures told { HasTold (locks_of held) placed.now.next seated.old seated.new }
{
    tell_under(seated, held, placed.next_lsn());
}

// For an insert that needs a page's buffer: tells how far its own copy has come, and writes all
// that is copied, where that reaches an address, the end of a page that is to be replaced, and the
// turn to write is free. The pass's next word lies behind that page.
pub(crate) fn write_early<'p, 'a, D: Disk>(
    seated: &mut SeatedPass<'p, D>,
    held: Held,
    placed: &Placed<'a>,
    upto: u64,
) -> Result<(), WriteErr>
    // The pass copies under these locks, with no turn and no writer in hand, and so it does
    // behind it, however it ends.
    requires copies { CopiesAlone (locks_of held) placed.now seated.old }
    requires up { KnowsNoFault (view_of seated.old) }
    ensures copies { CopiesAlone (locks_of held) placed.now seated.new }
    ensures copies_on { CopyGoesOn placed.now placed.now seated.old seated.new }
    // All that it knew to be copied is written and stored, up to the address at least, or to the
    // reserved end. Or the disk has failed, or a lock or the turn to write was in the way.
    ensures ends { MatchResult result
        (λ _. WritesCopied D.tape D.moment D.faults upto (view_of seated.old) seated.new
        × KnowsNoFault (view_of seated.new))
        (λ e. TellsWriteErr upto (view_of seated.old) (view_of seated.new) e) }
{
    tell_progress(seated, held, placed);
    write_copied(seated, upto)
}

// Writes all that is copied, where that reaches an address and the turn to write is free. The locks
// are watched before the turn is taken: what the watch told stays true.
pub(crate) fn write_copied<'p, D: Disk>(
    seated: &mut SeatedPass<'p, D>,
    upto: u64,
) -> Result<(), WriteErr>
    requires rests { HasNoTurn seated.old }
    requires up { KnowsNoFault (view_of seated.old) }
    // Locks, copy and log are as they were, and it has no turn behind it, however it ends.
    ensures adds_nothing { AddsNothing seated.old seated.new }
    ensures rests { HasNoTurn seated.new }
    // All that it knew to be copied is written and stored, up to the address at least, or to the
    // reserved end. Or the disk has failed, or a lock or the turn to write was in the way.
    ensures ends { MatchResult result
        (λ _. WritesCopied D.tape D.moment D.faults upto (view_of seated.old) seated.new
        × KnowsNoFault (view_of seated.new))
        (λ e. TellsWriteErr upto (view_of seated.old) (view_of seated.new) e) }
{
    let known = match watch(seated, Lsn(upto)) {
        Watched::Finished { upto } => upto.0,
        Watched::Behind { lock, word } => return Err(WriteErr::Behind { lock, word }),
    };
    take_ready(seated)?;
    write_known(seated, known)?;
    give_back(seated);
    Ok(())
}
