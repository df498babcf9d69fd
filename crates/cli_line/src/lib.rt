//! What a command line asks for: which word was given for which option, as `clap` reads it, what
//! each word means by itself, and the command that they make.
#![tactic(auto)]

mod asking;
mod commands;
mod declared;
mod given;
mod laws;
mod meanings;
mod texts;

pub use asking::{Request, asked};
pub use commands::{
    Command, CrashPick, DumpOptions, GenOptions, ReceiveOptions, RedoOptions, ReplayOptions,
    RunOptions, ScriptRunOptions, SendOptions,
};
pub use given::GivenWords;
pub use laws::plain_words_ask_for_what_they_spell;
pub use meanings::{
    block_number, cap_segments, crash, fork, limit, line_count, lsn, manager, relation, ring_pages,
    segment_size, writer_lines, xid,
};
pub use texts::{help_text, version_text};
