//! What a turn tells: the one step that it made, with its operands, or why it made none. The words
//! that a step is about, and what it stores, follow from the step and the view before
//! (machine_state).

/// A step of a backend: one load, store or exchange of one shared word, or one call of the device.
#[derive(Clone, Copy, Debug, PartialEq, Eq)]
pub enum Event {
    LoadPosition,
    TakeWriteTurn,
    TakeWriterOut,
    PutWriterBack,
    ReleaseWriteTurn,
    LockPosition,
    LoadPrev,
    StorePrev,
    StorePosition,
    GivePositionBack,
    /// Given back where the log stands at a segment's start; no backend of a replay makes it.
    StayInPlace,
    LoadLock {
        lock: u32,
    },
    TakeLock {
        lock: u32,
    },
    /// The holder of a lock tells that all below an address is copied.
    Advance {
        lock: u32,
        upto: u64,
    },
    ReleaseLock {
        lock: u32,
    },
    LoadBufferEnd {
        buffer: u32,
    },
    StoreRingWord,
    /// A word of the log, counted in words from address 0.
    LoadRingWord {
        number: u64,
    },
    LoadWritten,
    LoadFlushed,
    LoadMoment,
    LoadDown,
    StoreWritten,
    StoreMoment,
    StoreFlushed,
    SetDown,
    /// Up to where commits are answered is loaded or raised; no backend of a replay does it.
    LoadAsync,
    RaiseAsync,
    TakeMappingTurn,
    LoadInitialisedEnd,
    ClearEnd,
    ZeroRingWord,
    PublishEnd,
    PublishInitialisedEnd,
    ReleaseMappingTurn,
    /// A segment is made, or was to be.
    Create {
        segment: u64,
        done: bool,
    },
    /// A page of a segment is written, which is whole up to an address, or was to be.
    Write {
        segment: u64,
        page: u32,
        upto: u64,
        done: bool,
    },
    /// A segment is synced, or was to be.
    Sync {
        segment: u64,
        done: bool,
    },
}

/// What one turn of a backend came to.
#[derive(Clone, Copy, Debug, PartialEq, Eq)]
pub enum Turn {
    /// It made a step.
    Moved { event: Event },
    /// It waits for a word to change: the word's number, and its value. Nothing changed.
    Waits { on: u32, value: u64 },
    /// All its lines are answered. Nothing changed.
    Done,
    /// The disk has failed, with this count of faults: its line is answered by that.
    Down { faults: u64 },
}
