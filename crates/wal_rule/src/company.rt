//! Whether others insert beside a pass, as far as its own records' places tell. A pass is alone
//! until it has met another's record between two of its own; so a new one begins alone.

ghost use Rattle.std.specs.Prelude.{◌≡◌, false, None};
ghost use Rattle.wal_rule.specs.Company.{HasNoted, IsAlone, follows, has_met_lately, has_met_others};

use byte_position::PAGE_SIZE;
use wal_types::Lsn;

// Two of its records in a row may be chance where two passes commit in turn.
const ALONE: u32 = 2;

// A page's longest header, in bytes.
const LONG_HEADER: u64 = 40;

/// What a pass knows of its company by the places of its records.
#[derive(Clone, Copy, Debug)]
pub struct Company {
    /// The end of its last record, none before the first.
    last_end: Option<Lsn>,
    /// How many of its records up to the last one follow each the one before.
    in_a_row: u32,
    /// Whether another's record stood between two of its own.
    has_met: bool,
}

impl Company {
    /// Before its first record a pass is alone.
    pub(crate) fn new() -> Company
        ensures alone { IsAlone result }
        ensures first { result.last_end ≡ None }
    {
        Company {
            last_end: None,
            in_a_row: 0,
            has_met: false,
        }
    }

    /// Takes in where its next record stands.
    #[inline(always)]
    pub fn note(&mut self, start: Lsn, end: Lsn)
        ensures { HasNoted start.0 end self.old self.new }
    {
        match self.last_end {
            Some(last) if !follows(last, start) => {
                self.has_met = true;
                self.in_a_row = 0;
            }
            Some(_) => self.in_a_row = self.in_a_row.saturating_add(1),
            None => self.in_a_row = 0,
        }
        self.last_end = Some(end);
    }

    /// Whether it has ever met others: then they may come again at any time.
    #[inline(always)]
    pub fn has_met_others(&self) -> bool
        ensures { result ≡ has_met_others self.now }
    {
        self.has_met
    }

    /// Whether others have inserted lately.
    #[inline(always)]
    pub fn is_there(&self) -> bool
        ensures { result ≡ has_met_lately self.now }
    {
        self.has_met && self.in_a_row < ALONE
    }
}

// Whether nobody's record stands between one that ends there and one that starts there.
#[inline(always)]
fn follows(end: Lsn, start: Lsn) -> bool
    ensures { result ≡ follows end.0 start.0 }
{
    start.0 == end.0
        || end.0 % PAGE_SIZE == 0
            && start.0 / PAGE_SIZE == end.0 / PAGE_SIZE
            && start.0 % PAGE_SIZE <= LONG_HEADER
}
