//! A map whose keys are dealt to lanes, one for each of several threads. A lane has keys and a pass
//! of its own; the log is all that the lanes share, so no thread waits for another one's key. The
//! map of the whole is that of all lanes. A key is always the same lane's, so that its changes stay
//! in the order in which they were asked for.

ghost use Rattle.std.specs.Prelude.{◌≡◌, ℕ, ◌+◌, ◌<◌, ◌≤◌, ◌-◌, All, IfOk, MatchOption, MatchResult, slice_index_or, vec_len, [], length};
ghost use Rattle.std.specs.VecDeque.{deque_capacity, deque_len};
ghost use Rattle.wal_rule.specs.Passes.{view_of_pass};
ghost use Rattle.wal_log.specs.Logs.{IsPassOfLog, setup_of_log};
ghost use Rattle.wal_log.specs.Sharing.{ShareNumbers};
ghost use Rattle.wal_log_laws.specs.Growing.{IsNewPass};
ghost use Rattle.durable_map.specs.Asked.{key_of_call};
ghost use Rattle.durable_map.specs.Dealing.{lane_of_key};
ghost use Rattle.durable_map.specs.Sharing.{AreLanesOf, ChangesLane, ClosesShared, GivesTold, HasCall, HasLogsOf, IsUnasked, IsSameLane, IsSharedFrom, IsSharedMap, KeepsLanes, MakesItsCalls, ShareLog, WorkOff, WorksOff, lanes_of, view_in_lane};
ghost use Rattle.durable_map.specs.declared.sharing.MapLane.{MapLane};
ghost use Rattle.durable_map.specs.Stores.{IsOpenMap, IsPartOfLog};

use crate::asked::{MapCall, MapTold};
use crate::entries::Entries;
use crate::part::MapPart;
use crate::store::DurableMap;
use segment_disk::Disk;
use std::alloc::{AllocError, Global};
use std::collections::{BTreeMap, VecDeque};
use std::sync::Wait;
use std::thread::Threads;
use std::{mem, thread};
use wal_log::numbers::calls_keep_numbers;
use wal_log::shared_numbers::passes_share_numbers;
use wal_log::{Closed, Pass, Wal};
use wal_log_laws::laws::passes_hand_on_their_logs;

/// What one thread has of a map: keys and a pass, and calls that are to be made, or what they were
/// told.
#[derive(Drop)]
pub struct MapLane {
    part: MapPart,
    calls: Vec<MapCall>,
    told: VecDeque<MapTold>,
}

/// A map that several threads change side by side.
#[derive(Drop)]
pub struct SharedMap<D: Disk> {
    log: Wal<D>,
    lanes: Vec<MapLane>,
    alloc: Global,
}

impl MapLane {
    fn of(part: MapPart) -> MapLane
        ensures part { result.part ≡ part }
        ensures idle { IsUnasked result }
    {
        MapLane {
            calls: Vec::new(part.alloc),
            told: VecDeque::new(part.alloc),
            part,
        }
    }

    // Leaves a call with it.
    fn leave(&mut self, call: MapCall) -> Result<(), AllocError>
        ensures { MatchResult result (λ _. HasCall call self.old self.new)
            (λ _. IsSameLane self.old self.new) }
    {
        match self.calls.push(call) {
            Ok(()) => Ok(()),
            Err(_) => Err(AllocError),
        }
    }

    // What the first of its calls was told.
    fn take_told(&mut self) -> Option<MapTold>
        ensures { MatchOption result (IsSameLane self.old self.new)
            (λ told. GivesTold told self.old self.new) }
    {
        self.told.pop_front()
    }

    // Makes its calls, one behind another. If there is no memory for what they are told, none is
    // made.
    fn work<D: Disk, R: Wait>(&mut self, rt: &R, log: &Wal<D>)
        requires { IsPartOfLog log.now self.old.part }
        ensures { WorksOff log.now self.old self.new }
    {
        let alloc = self.part.alloc;
        let calls = mem::replace(&mut self.calls, Vec::new(alloc));
        match self.told.reserve(calls.len()) {
            Ok(()) => self.make(rt, log, calls),
            Err(_) => {}
        }
    }

    // Makes calls for whose answers there is room.
    fn make<D: Disk, R: Wait>(&mut self, rt: &R, log: &Wal<D>, calls: Vec<MapCall>)
        requires pass { IsPartOfLog log.now self.old.part }
        requires room { deque_len self.old.told + vec_len calls ≤ deque_capacity self.old.told }
        ensures { MakesItsCalls log.now calls.items self.old self.new }
    {
        for call in calls {
            let told = self.part.answer(rt, log, call);
            self.told.push_back_reserved(told);
        }
    }

    fn into_pass(self) -> Pass
        ensures { result ≡ self.part.pass }
    {
        let MapLane { part, .. } = self;
        part.into_pass()
    }
}

// A key's lane, of so many.
fn lane_of(key: &[u8], lanes: usize) -> usize
    requires { 0 < lanes }
    ensures within { result < lanes }
    ensures of { result ≡ lane_of_key lanes key.now }
{
    let mut sum = 0x811C_9DC5_u32;
    for byte in key {
        sum = (sum ^ u32::from(*byte)).wrapping_mul(0x0100_0193);
    }
    sum as usize % lanes
}

// The entries, dealt to so many lanes.
fn deal(alloc: Global, entries: Entries, count: usize) -> Result<Vec<Entries>, AllocError>
    requires { 0 < count }
    ensures { IfOk result (λ dealt. vec_len dealt ≡ count) }
{
    let mut dealt = Vec::with_capacity(alloc, count)?;
    for _lane in 0..count {
        dealt.push(BTreeMap::new(alloc))?;
    }
    for (key, value) in entries {
        let lane = lane_of(key.as_slice(), count);
        if dealt[lane].insert(key, value).is_err() {
            return Err(AllocError);
        }
    }
    Ok(dealt)
}

impl<D: Disk + Drop> DurableMap<D> {
    /// Deals the keys to so many lanes: at most one for each pass of the log, and one at least.
    pub fn share(self, lanes: usize) -> Result<SharedMap<D>, AllocError>
        requires { IsOpenMap self }
        ensures kept { IfOk result IsSharedMap }
        ensures from { IfOk result (IsSharedFrom self) }
    {
        let DurableMap { log, part } = self;
        let MapPart {
            entries,
            pass,
            alloc,
        } = part;
        let count = lanes.min(pass.spare() as usize + 1).max(1);
        let dealt = deal(alloc, entries, count)?;
        let lanes = split_lanes(alloc, &log, pass, dealt)?;
        Ok(SharedMap { log, lanes, alloc })
    }
}

// A lane for each part of the entries; the last one keeps the pass that the others' are split off.
fn split_lanes<D: Disk>(
    alloc: Global,
    log: &Wal<D>,
    pass: Pass,
    dealt: Vec<Entries>,
) -> Result<Vec<MapLane>, AllocError>
    requires pass { IsPassOfLog log.now pass }
    requires numbers { ShareNumbers (setup_of_log log.now).passes (view_of_pass pass) [] }
    requires alone { ((view_of_pass pass).reserving).joined ≡ [] }
    requires spare { vec_len dealt ≤ pass.spare_end - pass.spare + 1 }
    requires some { 0 < vec_len dealt }
    ensures lanes { IfOk result (λ lanes. ShareLog log.now lanes.items) }
    ensures idle { IfOk result (λ lanes. All IsUnasked lanes.items) }
    ensures new { IfOk result (λ lanes. IsNewPass (view_of_pass pass)
        → All (λ lane. IsNewPass (view_in_lane lane)) lanes.items) }
{
    passes_share_numbers();
    passes_hand_on_their_logs();
    let mut pass = pass;
    let mut dealt = dealt;
    let Some(own) = dealt.pop() else {
        unreachable!()
    };
    let mut lanes = Vec::with_capacity(alloc, dealt.len() + 1)?;
    for entries in dealt {
        let pass = log.split(&mut pass);
        lanes.push(MapLane::of(MapPart {
            entries,
            pass,
            alloc,
        }))?;
    }
    lanes.push(MapLane::of(MapPart {
        entries: own,
        pass,
        alloc,
    }))?;
    Ok(lanes)
}

impl<D: Disk> SharedMap<D> {
    /// Leaves a call with the lane of its key, and tells which that is.
    pub fn ask(&mut self, call: MapCall) -> Result<usize, AllocError>
        requires { IsSharedMap self.old }
        ensures kept { IsSharedMap self.new }
        ensures lane { IfOk result (λ lane. lane
            ≡ lane_of_key (length (lanes_of self.old)) (key_of_call call)) }
        ensures asked { MatchResult result
            (λ lane. ChangesLane lane (HasCall call) self.old self.new)
            (λ _. KeepsLanes self.old self.new) }
    {
        calls_keep_numbers();
        passes_share_numbers();
        let lane = lane_of(call.key(), self.lanes.len());
        match self.lanes[lane].leave(call) {
            Ok(()) => Ok(lane),
            Err(refused) => Err(refused),
        }
    }

    /// What the next call of a lane was told, in the order in which they were left with it; none if
    /// it was not made for want of memory.
    pub fn told(&mut self, lane: usize) -> Option<MapTold>
        requires { IsSharedMap self.old }
        ensures kept { IsSharedMap self.new }
        ensures told { MatchOption result (KeepsLanes self.old self.new)
            (λ told. ChangesLane lane (GivesTold told) self.old self.new) }
    {
        calls_keep_numbers();
        passes_share_numbers();
        if lane < self.lanes.len() {
            return self.lanes[lane].take_told();
        }
        None
    }
}

impl<D: Disk + Send> SharedMap<D> {
    /// Makes all calls that were left, each lane's in a thread of its own, where it can be made.
    pub fn work<R: Threads + Wait + Sync>(&mut self, rt: &R)
        requires { IsSharedMap self.old }
        ensures kept { IsSharedMap self.new }
        ensures log { self.new.log ≡ self.old.log }
        ensures work { WorkOff self.old.log (lanes_of self.old) (lanes_of self.new) }
    {
        calls_keep_numbers();
        passes_share_numbers();
        run_lanes(rt, &self.log, &mut self.lanes);
    }
}

fn run_lanes<D: Disk + Send, R: Threads + Wait + Sync>(rt: &R, log: &Wal<D>, lanes: &mut [MapLane])
    requires { AreLanesOf log.now lanes.old }
    ensures same { length lanes.new ≡ length lanes.old }
    ensures each { (k : ℕ) (d : MapLane) → k < length lanes.old
        → WorksOff log.now (slice_index_or lanes.old k d) (slice_index_or lanes.new k d) }
{
    let threads = lanes.len().max(1);
    thread::for_each_mut(rt, lanes, threads, &|_, lane| lane.work(rt, log));
}

impl<D: Disk> SharedMap<D> {
    /// Takes in what the lanes' passes have, lets the map go, and hands back its disk, as
    /// `DurableMap::close`. Calls that were left and not made are forgotten.
    pub fn close(self) -> Closed<D>
        requires { IsSharedMap self }
        ensures { ClosesShared D.tape D.moment D.faults self result }
    {
        passes_share_numbers();
        let SharedMap { log, lanes, .. } = self;
        let pass = join_lanes(&log, lanes);
        log.close(pass)
    }
}

// The last lane's pass, which takes those of the others in.
fn join_lanes<D: Disk>(log: &Wal<D>, lanes: Vec<MapLane>) -> Pass
    requires { ShareLog log.now lanes.items }
    ensures pass { IsPassOfLog log.now result }
    ensures numbers { ShareNumbers (setup_of_log log.now).passes (view_of_pass result) [] }
    ensures logs { HasLogsOf lanes.items result }
{
    passes_share_numbers();
    passes_hand_on_their_logs();
    let mut others = lanes;
    let Some(own) = others.pop() else {
        unreachable!()
    };
    let mut pass = own.into_pass();
    for lane in others {
        log.join(&mut pass, lane.into_pass());
    }
    pass
}
