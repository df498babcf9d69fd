//! Which words a crash keeps.

use rand_xoshiro::SplitMix64;
use rand_xoshiro::rand_core::Rng;
use segment_disk::Pick;
use std::alloc::Global;
use std::test::Fail;

/// Which of the words that were written since their segment's last sync a crash keeps.
#[derive(Clone, Copy)]
pub enum Words {
    /// None.
    Old,
    /// All.
    New,
    /// Those of odd index in their page.
    Odd,
    /// Those of even index, in pages that were written once.
    Even,
    /// Each of some write, or none.
    Random,
}

// How many words are listed: those behind them are not kept.
const LISTED: u64 = 32 << 10;

// Of how many writes to a page a random number may name one.
const WRITES: u64 = 3;

/// The pick that keeps such words.
pub fn pick(alloc: Global, words: Words, random: &mut SplitMix64) -> Result<Pick, Fail> {
    match words {
        Words::Old => Ok(Pick::Old),
        Words::New => Ok(Pick::New),
        Words::Odd => Ok(Pick::Odd),
        Words::Even => Ok(Pick::List(even_numbers(alloc)?)),
        Words::Random => Ok(Pick::List(random_numbers(alloc, random)?)),
    }
}

fn even_numbers(alloc: Global) -> Result<Vec<u32>, Fail> {
    let mut numbers = Vec::new(alloc);
    for _ in 0..LISTED / 2 {
        numbers.push(1)?;
        numbers.push(0)?;
    }
    Ok(numbers)
}

fn random_numbers(alloc: Global, random: &mut SplitMix64) -> Result<Vec<u32>, Fail> {
    let mut numbers = Vec::new(alloc);
    for _ in 0..LISTED {
        numbers.push((random.next_u64() % (WRITES + 1)) as u32)?;
    }
    Ok(numbers)
}
