//! Laws of the machine: every kind of step keeps each part of its invariant (the reserved order;
//! the insertion locks, the turns and watchers; the words in memory and the pages in buffers; the
//! positions; what a crash leaves); so each step keeps the whole, which holds at the opening, and
//! what is told of flushes names moments that rise. Last, what every state that keeps it shows, and
//! what its last pass knows once it is about nothing. Why each part is kept is told above its
//! definition, in the specs of machine_state.
#![tactic(auto)]

pub mod closing;
pub mod crashes;
pub mod device_calls;
pub mod durable_states;
pub mod durable_steps;
pub mod every_step;
pub mod growing;
pub mod lock_steps;
pub mod locks_held;
pub mod locks_told;
pub mod lone;
pub mod moments;
pub mod new_entries;
pub mod opening;
pub mod orders;
pub mod pages;
pub mod passes;
pub mod positions;
pub mod ring;
pub mod ring_steps;
pub mod ring_words;
pub mod rings_shown;
pub mod sound_states;
pub mod switches;
pub mod turns;
pub mod watching;
