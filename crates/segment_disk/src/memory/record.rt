// The record of a disk's counted calls, from which all that it holds is computed. All room is taken
// when it is made; a caller asks `is_full` first, and then counts the call (`count`) or refuses it
// uncounted (`refuse`). A counted call is never taken back.
ghost use Rattle.std.specs.Prelude.{◌≡◌, ◌<◌, ◌≤◌, ◌+◌, [], ◌∷◌, ◌++◌, IfOk, IsErr, is_ok, nat_le, min, take, vec_capacity, length};
ghost use Rattle.segment_disk.specs.Cause.{HasCause};
ghost use Rattle.segment_disk.specs.Failing.{is_listed as listed};

use crate::disk::Call;
use crate::failed::{Failed, count_fault};
use crate::memory::Memory;
use crate::memory::schedule::is_listed;
use std::alloc::Global;

/// The counted calls of a disk, and which of them are to fail, by their numbers from 1.
#[derive(Debug, Drop)]
pub struct CallRecord {
    pub made: Vec<Call>,
    pub limit: usize,
    fail: Vec<u64>,
    pub faults: u64,
    ghost roomy: { limit ≤ vec_capacity made },
}

impl CallRecord {
    /// Takes room for as many calls as the limit says.
    pub fn new(alloc: Global, limit: usize, fail: Vec<u64>) -> Result<CallRecord, Memory>
        ensures made { IfOk result (λ r. r.made.items ≡ []) }
        ensures limit { IfOk result (λ r. r.limit ≡ limit) }
        ensures fail { IfOk result (λ r. r.fail ≡ fail) }
        ensures faults { IfOk result (λ r. r.faults ≡ 0) }
    {
        Ok(CallRecord {
            made: Vec::with_capacity(alloc, limit)?,
            limit,
            fail,
            faults: 0,
        })
    }

    /// Takes room for as many calls as the limit says, of which none is to fail.
    pub fn unfailing(alloc: Global, limit: usize) -> Result<CallRecord, Memory>
        ensures made { IfOk result (λ r. r.made.items ≡ []) }
        ensures limit { IfOk result (λ r. r.limit ≡ limit) }
        ensures fail { IfOk result (λ r. r.fail.items ≡ []) }
        ensures faults { IfOk result (λ r. r.faults ≡ 0) }
    {
        CallRecord::new(alloc, limit, Vec::new(alloc))
    }

    /// The first calls, this many, or all where there are fewer.
    pub fn front(&self, count: u64) -> &[Call]
        ensures { result.now ≡ take (min count (length self.now.made.items)) self.now.made.items }
    {
        let count = count.min(self.made.len() as u64) as usize;
        &self.made[..count]
    }

    /// Whether no further call can be counted.
    pub fn is_full(&self) -> bool
        ensures { result ≡ nat_le self.now.limit (length self.now.made.items) }
    {
        self.made.len() >= self.limit
    }

    /// Whether the next counted call is to fail.
    pub fn next_fails(&self) -> bool
        ensures { result ≡ listed self.now.fail.items (length self.now.made.items + 1) }
    {
        is_listed(&self.fail, self.made.len() as u64 + 1)
    }

    /// Counts a call, and answers as it says.
    pub fn count(&mut self, call: Call) -> Result<(), Failed>
        requires { length self.old.made.items < self.old.limit }
        ensures made { self.new.made.items ≡ self.old.made.items ++ call ∷ [] }
        ensures done { is_ok result ≡ call.done }
        ensures cause { HasCause self.old.faults self.new.faults result }
        ensures fail { self.new.fail ≡ self.old.fail }
        ensures limit { self.new.limit ≡ self.old.limit }
    {
        let done = call.done;
        self.made.push(call).unwrap();
        if done {
            Ok(())
        } else {
            Err(count_fault(&mut self.faults))
        }
    }

    /// A call that fails without being counted.
    pub fn refuse(&mut self) -> Result<(), Failed>
        ensures refused { IsErr result }
        ensures made { self.new.made ≡ self.old.made }
        ensures cause { HasCause self.old.faults self.new.faults result }
        ensures fail { self.new.fail ≡ self.old.fail }
        ensures limit { self.new.limit ≡ self.old.limit }
    {
        Err(count_fault(&mut self.faults))
    }
}
