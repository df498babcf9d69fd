ghost use Rattle.std.specs.Prelude.{◌≡◌};
ghost use Rattle.run_script.specs.Items.{item_of};

use cli_text::{Parts, number};

// How many turns one item may have.
const MOST_IN_ITEM: u64 = 1_000_000;

/// Turns of one backend, one behind the other.
#[derive(Clone, Copy, Debug, PartialEq, Eq)]
pub struct Item {
    /// The backend's number; the first is 0.
    pub backend: u32,
    /// How many turns it has: at least one.
    pub turns: u32,
}

impl Item {
    /// What a word spells: `b`, or `b*n`. Nothing where it is neither, or where that backend is
    /// not among so many.
    pub(crate) fn of(word: &[u8], backends: u32) -> Option<Item>
        ensures { result ≡ item_of backends word.now }
    {
        let mut parts = Parts::of(word, b'*');
        let backend = number(parts.next()?, u64::from(u32::MAX))? as u32;
        let turns = match parts.next() {
            None => 1,
            Some(digits) => number(digits, MOST_IN_ITEM)? as u32,
        };
        if parts.next().is_some() || backend >= backends || turns == 0 {
            return None;
        }
        Some(Item { backend, turns })
    }
}
