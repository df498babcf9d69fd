//! The log for programs in C, and in all that calls C: thin calls over embedded_log. What is handed
//! out is known by pointers, which the program hands in again and never looks into.
//!
//! `session_handle` is what threads call with, `disk_handle` what the disk's owner has, and
//! `reader_handle` what a log is read with; `blocks` has what sessions and readers tell of a block.
//! `answers` has the numbers that all calls answer, `damages` those of what stops a log, and
//! `opening` opens the log that is there, or begins one. `laws` says who may have a handle.
#![tactic(auto)]

ghost use types.Logic.{sem};
ghost use Rattle.std.specs.Prelude.{◌≡◌, ◌⊎◌};
ghost use Rattle.std.specs.Borrow.{full_share};
ghost use Rattle.std.specs.Ptr.{lies_at};
ghost use Rattle.pgwal_c.specs.DiskTold.{TellsDiskCall};
ghost use Rattle.pgwal_c.specs.ReaderTold.{TellsReaderCall};
ghost use Rattle.pgwal_c.specs.Told.{SeenSession, TellsSessionCall};
ghost use Rattle.pgwal_c.specs.contracts.session_handle.SessionHandle as session_handle;
ghost use Rattle.pgwal_c.specs.contracts.disk_handle.DiskHandle as disk_handle;
ghost use Rattle.pgwal_c.specs.contracts.reader_handle.ReaderHandle as reader_handle;

mod answers;
mod appending;
mod blocks;
mod damages;
mod disk_handle;
mod laws;
mod opening;
mod reader_handle;
mod said;
mod session_handle;
#[cfg(test)]
mod tests;

use answers::{DONE, MEMORY};
use disk_handle::{DiskCall, DiskHandle, DiskMade, call_disk, hand_out_disk};
use reader_handle::{ReaderCall, ReaderHandle, ReaderMade, call_reader, hand_out_reader};
use session_handle::{SessionCall, SessionHandle, call_session};
use std::alloc::Global;

/// Makes the owner's end of a disk, on which a log can be opened.
#[unsafe(no_mangle)]
pub extern "C" fn pgwal_make_disk(alloc: Global, made: &mut DiskMade) -> u32
    ensures { (result ≡ DONE) ⊎ (result ≡ MEMORY) }
{
    hand_out_disk(alloc, made)
}

/// A call of a session.
#[unsafe(no_mangle)]
pub unsafe extern "C" fn pgwal_session_call(at: *mut u8, data: &[u8], call: &mut SessionCall) -> u32
    ghost value: { SeenSession }
    requires* { sem 𝓛 (lies_at session_handle.the_row full_share at value) }
    ensures* { ∃ₛ (λ (v : SeenSession). sem 𝓛 (lies_at session_handle.the_row full_share at v)
        ∗ ⌜ TellsSessionCall «data».now value v call.old call.new result ⌝) }
{
    call_session(unsafe { &mut *(at as *mut SessionHandle) }, data, call)
}

/// A call of the disk's owner.
#[unsafe(no_mangle)]
pub unsafe extern "C" fn pgwal_disk_call(at: *mut u8, call: &mut DiskCall) -> u32
    ghost value: { DiskHandle }
    requires* { sem 𝓛 (lies_at disk_handle.the_row full_share at value) }
    ensures* { ∃ₛ (λ (v : DiskHandle). sem 𝓛 (lies_at disk_handle.the_row full_share at v)
        ∗ ⌜ TellsDiskCall value v call.old call.new result ⌝) }
{
    call_disk(unsafe { &mut *(at as *mut DiskHandle) }, call)
}

/// Makes a reader, which has no log yet.
#[unsafe(no_mangle)]
pub extern "C" fn pgwal_make_reader(alloc: Global, made: &mut ReaderMade) -> u32
    ensures { (result ≡ DONE) ⊎ (result ≡ MEMORY) }
{
    hand_out_reader(alloc, made)
}

/// A call of a reader.
#[unsafe(no_mangle)]
pub unsafe extern "C" fn pgwal_reader_call(at: *mut u8, call: &mut ReaderCall) -> u32
    ghost value: { ReaderHandle }
    requires* { sem 𝓛 (lies_at reader_handle.the_row full_share at value) }
    ensures* { ∃ₛ (λ (v : ReaderHandle). sem 𝓛 (lies_at reader_handle.the_row full_share at v)
        ∗ ⌜ TellsReaderCall value v call.old call.new result ⌝) }
{
    call_reader(unsafe { &mut *(at as *mut ReaderHandle) }, call)
}
