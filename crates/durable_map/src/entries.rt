//! The entries of a map, and how a change is taken in. A key has a slot, which is empty where the
//! key has no value: so the slot, and with it all memory that a set needs, can be made before the
//! set is logged, and says nothing until it is filled.

ghost use Rattle.std.specs.Prelude.{◌≡◌, IfErr, IsSome, None, OnErr, OnOk, Some};
ghost use Rattle.durable_map.specs.Changes.{MapChange};
ghost use Rattle.durable_map.specs.Opening.{RefusesFound};
ghost use Rattle.durable_map.specs.Records.{SaysChange};
ghost use Rattle.durable_map.specs.Stores.{SaysTheSame, TakesIn, slot_bytes, slot_of};

use crate::change::{ReadChange, read_change};
use crate::fault::MapFaultKind;
use std::alloc::{AllocError, Global};
use std::collections::BTreeMap;
use wal_reader::FoundRecord;

/// The keys, in the order of their bytes, each with its value or an empty slot.
pub type Entries = BTreeMap<Vec<u8>, Option<Vec<u8>>>;

/// Takes in the change that a record of the log says.
pub(crate) fn take_in(
    alloc: Global,
    entries: &mut Entries,
    found: &FoundRecord,
) -> Result<(), MapFaultKind>
    ensures taken { OnOk result ((change : MapChange) × SaysChange found.now.value change
        × TakesIn change entries.old entries.new) }
    ensures refused { IfErr result (RefusesFound found.now) }
{
    match read_change(alloc, &found.value) {
        Ok(Some(ReadChange { key, value })) => match put(entries, key, value) {
            Ok(()) => Ok(()),
            Err(_) => Err(MapFaultKind::Memory),
        },
        Ok(None) => Err(MapFaultKind::NoChange {
            at: found.head.start,
        }),
        Err(_) => Err(MapFaultKind::Memory),
    }
}

// Puts a value into a key's slot, or none; the slot is made where the key has none.
fn put(entries: &mut Entries, key: Vec<u8>, value: Option<Vec<u8>>) -> Result<(), AllocError>
    ensures { OnOk result (TakesIn (record { key = key.items; value = slot_bytes value })
        entries.old entries.new) }
{
    match entries.insert(key, value) {
        Ok(_) => Ok(()),
        Err(_) => Err(AllocError),
    }
}

/// Makes sure that a key has a slot, which is empty if it is new.
pub(crate) fn make_slot(alloc: Global, entries: &mut Entries, key: &[u8]) -> Result<(), AllocError>
    ensures same { SaysTheSame entries.old entries.new }
    ensures there { OnOk result (IsSome (slot_of entries.new key.now)) }
{
    if entries.contains_key(key) {
        return Ok(());
    }
    let key = Vec::from_slice(alloc, key)?;
    match entries.insert(key, None) {
        Ok(_) => Ok(()),
        Err(_) => Err(AllocError),
    }
}

/// Puts a value into the slot that a key has.
pub(crate) fn fill_slot(entries: &mut Entries, key: &[u8], value: Option<Vec<u8>>)
    requires { IsSome (slot_of entries.old key.now) }
    ensures { TakesIn (record { key = key.now; value = slot_bytes value }) entries.old entries.new }
{
    let Some(slot) = entries.get_mut(key) else {
        unreachable!()
    };
    *slot = value;
}

/// Takes a key out.
pub(crate) fn take_out(entries: &mut Entries, key: &[u8])
    ensures { TakesIn (record { key = key.now; value = None }) entries.old entries.new }
{
    entries.remove(key);
}
