// The disk of segments, as whoever writes or reads a log sees it. The trait's comment tells the
// protocol of its calls (PostgreSQL's xlog.c, XLogFileInit, XLogWrite, issue_xlog_fsync). A caller
// has the disk for itself while it calls (`&mut`). Each counted call tells by its answer what it
// left (`answers`): at Ok it was made as asked; at Err it was counted as failed and may have had
// its effect or not, or it was not made. An Err comes only where the count of faults rises
// (`cause`).
ghost use Rattle.std.specs.Prelude.{◌≡◌, ℕ, ◌/◌, ◌<◌, ◌^◌, Option, length, IfOk, IfSome};
ghost use Rattle.byte_position.specs.Geometry.{pages_of};
ghost use Rattle.segment_disk.specs.Cause.{HasCause};

use crate::failed::Failed;
use byte_position::{Geometry, Page};

/// The bytes of one page.
#[derive(Clone, Copy, Debug)]
pub struct PageBytes {
    pub bytes: Page,
}

/// Which call of a disk it was.
#[derive(Debug, Drop)]
pub enum CallKind {
    /// A segment of zeros. `made` says whether it was left so: it was where the call answered Ok,
    /// and may be where it failed.
    Create { made: bool },
    /// A page, by its number in its segment.
    Write { page: u32, bytes: PageBytes },
    Sync,
}

/// A counted call of a disk: which it was, of which segment, and whether it answered Ok.
#[derive(Debug, Drop)]
pub struct Call {
    pub geometry: Geometry,
    pub segment: u64,
    pub kind: CallKind,
    pub done: bool,
}

/// A disk of segment files. It counts the calls of `create`, `write_page` and `sync`, failed ones
/// too: their number is the moment. A call of these may also fail without being made; then it is
/// not counted, and only the count of faults changes.
///
/// The protocol of whoever writes a log (PostgreSQL's `XLogFileInit` and `XLogWrite` of xlog.c): a
/// segment is made before its first page is written, and synced behind its last one, before the
/// next is made. A crash behind a create that was done leaves the segment, of zeros; behind a write
/// it leaves of each word of the page what was durable or what was written since the last sync;
/// behind a sync that was done just what was written. A call that a crash cut short, or that
/// failed, may have had its effect or not. So after a fault nothing more is called: what the disk
/// holds is no longer known. (Of a real disk a sync that answers Ok behind one that failed does not
/// say that the writes before are durable. The tape does not tell this, so a writer stops.)
///
/// The caller keeps a segment below 2^64 / its size and a page below the segment's pages.
pub trait Disk {
    ghost use Rattle.segment_disk.specs.Tape.{Answers, IsPageRead, IsUncalled, Tape, create_call, page_of_segment, state_now, sync_call, write_call};

    /// What was there at first and each counted call since, where the disk tells them.
    ghost tape: { Self → Option Tape };

    /// How many calls were counted.
    ghost moment: { Self → ℕ };

    /// How often the disk has failed.
    ghost faults: { Self → ℕ };

    /// Makes a segment of zeros, which is durable at Ok. At Err it may be there or not.
    fn create(&mut self, geometry: Geometry, segment: u64) -> Result<(), Failed>
        requires { segment < 2 ^ 64 / geometry }
        ensures answers { Answers tape moment self.old self.new
            (create_call geometry segment) result }
        ensures cause { HasCause (faults self.old) (faults self.new) result };

    /// Writes a page in place. It is durable only after a sync of the segment; until then, and at
    /// Err too, a crash leaves of each word what was durable or what was written since.
    fn write_page(
        &mut self,
        geometry: Geometry,
        segment: u64,
        page: u32,
        bytes: &Page,
    ) -> Result<(), Failed>
        requires segment { segment < 2 ^ 64 / geometry }
        requires page { page < pages_of geometry }
        ensures answers { Answers tape moment self.old self.new
            (write_call geometry segment page bytes.now) result }
        ensures cause { HasCause (faults self.old) (faults self.new) result };

    /// Makes the last writes of a segment durable. At Err they still wait for it.
    fn sync(&mut self, geometry: Geometry, segment: u64) -> Result<(), Failed>
        requires { segment < 2 ^ 64 / geometry }
        ensures answers { Answers tape moment self.old self.new
            (sync_call geometry segment) result }
        ensures cause { HasCause (faults self.old) (faults self.new) result };

    /// Reads a page as of its last write, and answers false exactly where the segment has no whole
    /// such page. Reads are not counted.
    fn read_page(
        &mut self,
        geometry: Geometry,
        segment: u64,
        page: u32,
        bytes: &mut Page,
    ) -> Result<bool, Failed>
        requires segment { segment < 2 ^ 64 / geometry }
        requires page { page < pages_of geometry }
        // What is read is as of the last write, durable or not, and tape and moment stay: so a read
        // is no proof that a crash would leave the same.
        ensures reads { IfOk result (λ there. IfSome (tape self.old)
            (λ t. IsPageRead (page_of_segment (state_now t segment) page) there bytes.new)) }
        ensures length { length bytes.new ≡ 8192 }
        ensures uncalled { IsUncalled tape moment self.old self.new }
        ensures cause { HasCause (faults self.old) (faults self.new) result };

    fn moment(&self) -> u64
        ensures { result ≡ moment self.now };

    fn faults(&self) -> u64
        ensures { result ≡ faults self.now };

    /// The moment is the number of counted calls.
    ghost counts: { (disk : Self) → IfSome (tape disk) (λ t. moment disk ≡ length t.calls) };
}
