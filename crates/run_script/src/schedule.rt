ghost use Rattle.std.specs.Prelude.{◌≡◌, ◌≤◌, ◌==◌, [], Some};
ghost use Rattle.std.specs.List.{slice_split};
ghost use Rattle.run_script.specs.ScheduleMeaning.{after_item, after_line, after_word};
ghost use Rattle.run_script.specs.ScheduleReading.{GivesItems};
ghost use Rattle.run_script.specs.Turns.{most_turns, turns_of};

use crate::item::Item;
use cli_text::Parts;
use std::alloc::{AllocFailed, Global};
use std::marker::Model;

// How many turns a schedule may have.
const MOST_TURNS: u32 = 10_000_000;

/// Why a schedule was not read: memory, or the first item that is refused: one that is no item,
/// whose backend is not there, or with which the turns are more than 10,000,000.
#[derive(Clone, Copy, Debug, PartialEq, Eq)]
pub enum ScheduleError {
    /// Memory ran out.
    Memory,
    /// `line` is the number of the item's line in the script.
    Refused { line: u32 },
}

impl<T: Drop> From<AllocFailed<T>> for ScheduleError {
    ghost use Rattle.std.specs.Prelude.{◌≡◌};
    ghost use Rattle.run_script.specs.declared.schedule.ScheduleError.TheVariants.{Memory};

    ghost from_gives = { λ _ e. e ≡ Memory };

    fn from(_e: AllocFailed<T>) -> ScheduleError {
        ScheduleError::Memory
    }
}

/// Which backend has the next turns, and how many, in order; contracts see the list of its items.
#[derive(Debug, Drop)]
pub struct Schedule {
    items: Vec<Item>,
    // Of all items.
    turns: u32,
}

impl Model for Schedule {
    ghost use Rattle.std.specs.Prelude.{List, ◌≡◌, ◌≤◌};
    ghost use Rattle.run_script.specs.declared.item.Item.{Item};
    ghost use Rattle.run_script.specs.Turns.{turns_of, most_turns};

    ghost Value = { List Item };

    ghost view = { λ s. s.items.items };

    ghost invariant = { λ s. (s.turns ≡ turns_of s.items.items) × (s.turns ≤ most_turns) };
}

impl Schedule {
    /// A schedule of no turns.
    pub fn empty(alloc: Global) -> Schedule
        ensures { result ≡ [] }
    {
        Schedule {
            items: Vec::new(alloc),
            turns: 0,
        }
    }

    /// The items, in order.
    pub fn items(&self) -> &[Item]
        ensures { result.now ≡ self.now }
    {
        &self.items
    }

    /// How many turns all items have: at most 10,000,000.
    pub fn turns(&self) -> u32
        ensures value { result ≡ turns_of self.now }
        ensures most { result ≤ most_turns }
    {
        self.turns
    }

    // Puts the items of a line behind the others.
    pub(crate) fn add_line(
        &mut self,
        line: u32,
        text: &[u8],
        backends: u32,
    ) -> Result<(), ScheduleError>
        ensures { GivesItems (λ _. self.new) result (after_line backends line self.old text.now) }
    {
        if let [] | [b'#', ..] = text {
            return Ok(());
        }
        for word in Parts::of(text, b' ') {
            self.add_word(line, word, backends)?;
        }
        Ok(())
    }

    // Puts the item that a word spells behind the others; where two blanks stand side by side,
    // nothing.
    fn add_word(&mut self, line: u32, word: &[u8], backends: u32) -> Result<(), ScheduleError>
        ensures { GivesItems (λ _. self.new) result (after_word backends line self.old word.now) }
    {
        if word.is_empty() {
            return Ok(());
        }
        match Item::of(word, backends) {
            Some(item) => self.add(line, item),
            None => Err(ScheduleError::Refused { line }),
        }
    }

    // Puts an item behind the others, unless the turns are too many.
    fn add(&mut self, line: u32, item: Item) -> Result<(), ScheduleError>
        ensures { GivesItems (λ _. self.new) result (after_item line self.old (Some item)) }
    {
        if item.turns > MOST_TURNS - self.turns {
            return Err(ScheduleError::Refused { line });
        }
        self.items.push(item)?;
        self.turns += item.turns;
        Ok(())
    }
}
