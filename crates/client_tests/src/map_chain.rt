//! A map's lives, one behind another, each with random changes and ended by a crash at a random
//! moment: the map that is found is compared with plain ones.

ghost use Rattle.std.specs.Prelude.{◌≡◌, ◌<◌, IfOk};
ghost use Rattle.durable_map.specs.Stores.{IsOpenMap};

use crate::map::{bytes, disk, open};
use durable_map::{DurableMap, MapCall, MapTold};
use segment_disk::{Disk, MemDisk, Pick};
use std::alloc::Global;
use std::process::Abort;
use std::sync::Wait;
use std::test::Fail;

const LIVES: u32 = 100;

// What eight keys have, 0 for nothing.
type Plain = [u8; 8];

// The map behind a change that was begun, and the moment at which this was answered.
#[derive(Clone, Copy)]
struct Behind {
    moment: u64,
    plain: Plain,
}

// A number below another one, by the next of a row of numbers that look random.
fn next(random: &mut u64, below: u64) -> u64
    requires { 0 < below }
    ensures { result < below }
{
    *random = random
        .wrapping_mul(6_364_136_223_846_793_005)
        .wrapping_add(1_442_695_040_888_963_407);
    (*random >> 33) % below
}

fn plain_of(map: &DurableMap<MemDisk>) -> Plain {
    let mut plain = [0; 8];
    for (key, value) in plain.iter_mut().enumerate() {
        *value = match map.get(&[key as u8]) {
            Some([value]) => *value,
            _ => 0,
        };
    }
    plain
}

// A key gets a value, or none where this is 0.
fn call_of(alloc: Global, key: u8, value: u8) -> Result<MapCall, Fail> {
    let key = bytes(alloc, &[key])?;
    if value == 0 {
        return Ok(MapCall::Del { key });
    }
    let value = bytes(alloc, &[value])?;
    Ok(MapCall::Set { key, value })
}

fn with_value(plain: Plain, key: u8, value: u8) -> Plain {
    let mut plain = plain;
    if let Some(slot) = plain.get_mut(key as usize) {
        *slot = value;
    }
    plain
}

// Sets or deletes a random key, as in the plain map.
fn change<R: Abort + Wait>(
    rt: &R,
    alloc: Global,
    map: &mut DurableMap<MemDisk>,
    plain: Plain,
    random: &mut u64,
) -> Result<Behind, Fail>
    requires { IsOpenMap map.old }
    ensures { IsOpenMap map.new }
{
    let key = next(random, 8) as u8;
    let value = next(random, 4) as u8;
    let call = call_of(alloc, key, value)?;
    match map.answer(rt, call) {
        MapTold::Changed(Ok(sealed)) => Ok(Behind {
            moment: sealed.moment,
            plain: with_value(plain, key, value),
        }),
        _ => Err(Fail::from("a change that is durable")),
    }
}

// Up to eight changes, and behind each the plain map. The first is that of the opening.
fn change_some<R: Abort + Wait>(
    rt: &R,
    alloc: Global,
    map: &mut DurableMap<MemDisk>,
    random: &mut u64,
) -> Result<Vec<Behind>, Fail>
    requires { IsOpenMap map.old }
    ensures { IfOk result (λ maps. IsOpenMap map.new) }
{
    let mut behind = Behind {
        moment: 0,
        plain: plain_of(map),
    };
    let mut maps = Vec::new(alloc);
    maps.push(behind)?;
    for _change in 0..next(random, 9) {
        behind = change(rt, alloc, map, behind.plain, random)?;
        maps.push(behind)?;
    }
    Ok(maps)
}

// Whether a map is one of these, from the last one on that was answered by a moment.
fn may_be_found(maps: &[Behind], moment: u64, found: Plain) -> bool {
    let mut may_be = false;
    for behind in maps {
        may_be = behind.plain == found || may_be && behind.moment > moment;
    }
    may_be
}

// A life: what a crash left is the map behind some change, and no answer by the crash's moment is
// of a later one.
fn live_on<R: Abort + Wait>(
    rt: &R,
    alloc: Global,
    disk: MemDisk,
    random: &mut u64,
) -> Result<MemDisk, Fail> {
    let mut map = open(alloc, disk)?;
    let maps = change_some(rt, alloc, &mut map, random)?;
    assert!(rt; matches!(maps.last(), Some(last) if last.plain == plain_of(&map)));
    let disk = map.close().disk;
    let moment = next(random, disk.moment().saturating_add(1).max(1));
    let pick = match next(random, 3) {
        0 => Pick::Old,
        1 => Pick::Odd,
        _ => Pick::New,
    };
    let again = open(alloc, disk.crash(alloc, moment, pick)?)?;
    assert!(rt; may_be_found(maps.as_slice(), moment, plain_of(&again)));
    Ok(again.close().disk)
}

#[test]
fn no_crash_of_a_chain_loses_an_answered_change(rt: HostRuntime) -> Result<(), Fail> {
    let alloc = rt.alloc();
    let mut random = 0;
    let mut disk = disk(alloc, 0)?;
    for _life in 0..LIVES {
        disk = live_on(&rt, alloc, disk, &mut random)?;
    }
    Ok(())
}
