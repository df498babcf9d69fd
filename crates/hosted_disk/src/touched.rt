// Which pages the queued calls may have changed: the others are read as the host handed them in.
// Before a log is gone on with it is settled, by syncs and by writes of pages that rise, each of
// which is read before it is written.
ghost use Rattle.std.specs.Prelude.{◌≡◌, ◌∷◌, ◌++◌, [], List, true};
ghost use Rattle.segment_disk.specs.declared.disk.Call.{Call};
ghost use Rattle.segment_disk.specs.declared.disk.PageBytes.{PageBytes};
ghost use Rattle.hosted_disk.specs.Untouched.{are_within, is_kind_within, leaves_page};

use handed_pages::PageNumber;
use segment_disk::{Call, CallKind};

/// How much the queued calls may have changed.
#[derive(Clone, Copy)]
pub enum Touched {
    /// Nothing that is read: only syncs were queued.
    Nothing,
    /// Pages up to this one, by writes.
    UpTo(PageNumber),
    /// Others too.
    More,
}

impl Touched {
    // Whether a page is as it was at first.
    pub(crate) fn leaves(self, number: PageNumber) -> bool
        ensures { result ≡ leaves_page self number }
    {
        match self {
            Touched::Nothing => true,
            Touched::UpTo(last) => {
                last.segment < number.segment
                    || (last.segment == number.segment && last.page < number.page)
            }
            Touched::More => false,
        }
    }

    // With one call more.
    pub(crate) fn with(self, call: &Call) -> Touched
        ensures { (calls : List Call) → are_within self calls ≡ true
            → are_within result (calls ++ call.now ∷ []) ≡ true }
    {
        match call.kind {
            CallKind::Sync => self,
            CallKind::Write { page, .. } => self.with_page(PageNumber {
                segment: call.segment,
                page,
            }),
            CallKind::Create { .. } => Touched::More,
        }
    }

    // With a write of this page.
    fn with_page(self, number: PageNumber) -> Touched
        ensures grows { (calls : List Call) → are_within self calls ≡ true
            → are_within result calls ≡ true }
        ensures page { (bytes : PageBytes)
            → is_kind_within result number.segment (CallKind.Write number.page bytes) ≡ true }
    {
        match self {
            Touched::Nothing => Touched::UpTo(number),
            Touched::UpTo(last) => {
                if self.leaves(number) {
                    Touched::UpTo(number)
                } else {
                    Touched::UpTo(last)
                }
            }
            Touched::More => Touched::More,
        }
    }
}
