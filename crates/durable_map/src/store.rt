//! The map of one thread, which is all of a log's map, and its calls.

ghost use Rattle.std.specs.Prelude.{◌≡◌, Some, None, option_map};
ghost use Rattle.wal_log.specs.Closing.{ClosesLog};
ghost use Rattle.durable_map.specs.Asked.{TellsPart};
ghost use Rattle.durable_map.specs.Stores.{AnswersCall, IsOpenMap, log_under, map_held, part_under};

use crate::asked::{MapCall, MapTold};
use crate::entries::Entries;
use crate::fault::ChangeErr;
use crate::part::MapPart;
use segment_disk::Disk;
use std::sync::Wait;
use wal_log::numbers::calls_keep_numbers;
use wal_log::shared_numbers::passes_share_numbers;
use wal_log::{Closed, Sealed, Wal};

/// A map that is kept by a log on a disk. Its calls come one behind another, from one thread;
/// `share` deals its keys to several.
#[derive(Drop)]
pub struct DurableMap<D: Disk> {
    pub(crate) log: Wal<D>,
    pub(crate) part: MapPart,
}

impl<D: Disk> DurableMap<D> {
    /// The keys in the order of their bytes; one with an empty slot has no value.
    pub fn entries(&self) -> &Entries
        ensures { result.now ≡ (part_under self.now).entries }
    {
        self.part.entries()
    }

    /// What a key has.
    pub fn get(&self, key: &[u8]) -> Option<&[u8]>
        ensures { option_map (λ value. value.now) result ≡ map_held self.now key.now }
    {
        self.part.get(key)
    }

    /// Gives a key a value. Once it is answered with its record's place and a moment of the disk,
    /// it is durable since that moment, and in the map.
    pub fn set<R: Wait>(&mut self, rt: &R, key: &[u8], value: Vec<u8>) -> Result<Sealed, ChangeErr>
        requires kept { IsOpenMap self.old }
        ensures call { AnswersCall (log_under self.old)
            (record { key = key.now; value = Some value.items }) (part_under self.old)
            (part_under self.new) result }
        ensures log { log_under self.new ≡ log_under self.old }
        ensures kept { IsOpenMap self.new }
    {
        calls_keep_numbers();
        self.part.set(rt, &self.log, key, value)
    }

    /// Takes a key out, if it is there or not; answered as a `set`.
    pub fn del<R: Wait>(&mut self, rt: &R, key: &[u8]) -> Result<Sealed, ChangeErr>
        requires kept { IsOpenMap self.old }
        ensures call { AnswersCall (log_under self.old)
            (record { key = key.now; value = None }) (part_under self.old)
            (part_under self.new) result }
        ensures log { log_under self.new ≡ log_under self.old }
        ensures kept { IsOpenMap self.new }
    {
        calls_keep_numbers();
        self.part.del(rt, &self.log, key)
    }

    /// Does what is asked.
    pub fn answer<R: Wait>(&mut self, rt: &R, call: MapCall) -> MapTold
        requires kept { IsOpenMap self.old }
        ensures told { TellsPart (log_under self.old) call (part_under self.old)
            (part_under self.new) result }
        ensures log { log_under self.new ≡ log_under self.old }
        ensures kept { IsOpenMap self.new }
    {
        calls_keep_numbers();
        self.part.answer(rt, &self.log, call)
    }

    /// Lets the map go, and hands back its disk. It makes no device call: each change that was
    /// answered is durable already.
    pub fn close(self) -> Closed<D>
        requires { IsOpenMap self }
        ensures { ClosesLog D.tape D.moment D.faults (log_under self) (part_under self).pass
            result }
    {
        passes_share_numbers();
        self.log.close(self.part.pass)
    }
}
