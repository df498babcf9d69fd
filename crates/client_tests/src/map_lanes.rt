//! A map that threads share: what its lanes tell.

ghost use Rattle.std.specs.Prelude.{IfOk};
ghost use Rattle.durable_map.specs.Sharing.{IsSharedMap};
ghost use Rattle.durable_map.specs.Stores.{IsOpenMap};

use crate::map::{SETUP, bytes, disk};
use durable_map::{DurableMap, MapCall, MapTold, SharedMap};
use segment_disk::MemDisk;
use std::alloc::Global;
use std::process::Abort;
use std::sync::Wait;
use std::test::Fail;
use wal_log::Setup;

const KEYS: u8 = 8;

// A map in which each key has its number, for so many passes.
fn filled<R: Wait>(rt: &R, alloc: Global, passes: u32) -> Result<DurableMap<MemDisk>, Fail>
    ensures { IfOk result IsOpenMap }
{
    let setup = Setup { passes, ..SETUP };
    let Ok(mut map) = DurableMap::open(alloc, disk(alloc, 0)?, setup) else {
        return Err(Fail::from("a map"));
    };
    for key in 0..KEYS {
        if map.set(rt, &[key], bytes(alloc, &[key])?).is_err() {
            return Err(Fail::from("a set"));
        }
    }
    Ok(map)
}

// A call of a key in each of three rounds: it is looked up, set to 100 and more, and looked up.
fn call_of(alloc: Global, round: u8, key: u8) -> Result<MapCall, Fail> {
    let bytes_of_key = bytes(alloc, &[key])?;
    if round == 1 {
        let value = bytes(alloc, &[key.saturating_add(100)])?;
        return Ok(MapCall::Set {
            key: bytes_of_key,
            value,
        });
    }
    Ok(MapCall::Get { key: bytes_of_key })
}

// Whether a call was told what it should.
fn is_told(round: u8, key: u8, told: Option<MapTold>) -> bool {
    match told {
        Some(MapTold::Changed(Ok(_))) => round == 1,
        Some(MapTold::Value(Some(value))) => match round {
            0 => value.as_slice() == [key].as_slice(),
            2 => value.as_slice() == [key.saturating_add(100)].as_slice(),
            _ => false,
        },
        _ => false,
    }
}

// All calls, and the lane of each.
fn ask_all(alloc: Global, map: &mut SharedMap<MemDisk>) -> Result<Vec<(u8, u8, usize)>, Fail>
    requires { IsSharedMap map.old }
    ensures { IfOk result (λ asked. IsSharedMap map.new) }
{
    let mut asked = Vec::new(alloc);
    for number in 0..3 * KEYS {
        let (round, key) = (number / KEYS, number % KEYS);
        let lane = map.ask(call_of(alloc, round, key)?)?;
        asked.push((round, key, lane))?;
    }
    Ok(asked)
}

// Keys that were there are dealt to the lanes, and each lane answers in the order in which it was
// asked: for one lane, for some, and for one lane a pass where more are asked for.
#[test]
fn lanes_answer_in_their_order(rt: HostRuntime) -> Result<(), Fail> {
    let alloc = rt.alloc();
    for (passes, lanes) in [(1, 1), (1, 3), (4, 3), (4, 9)] {
        let mut map = filled(&rt, alloc, passes)?.share(lanes)?;
        let asked = ask_all(alloc, &mut map)?;
        map.work(&rt);
        for (round, key, lane) in asked.iter() {
            let told = map.told(*lane);
            assert!(rt;
                is_told(*round, *key, told),
                "{round} of {key}, {lanes} lanes"
            );
        }
    }
    Ok(())
}
