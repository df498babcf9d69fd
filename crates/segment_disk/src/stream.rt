// Bytes that come in and go out, piece by piece. Who calls has the source or the sink for itself
// (`&mut`). A call may do less than it is asked for, so callers call again behind the front that it
// answers; a call that failed has taken nothing (`failed`), and failed only where the count of
// faults rose (`cause`). What is handed out or taken is said in order and whole: bytes of one call
// follow those of the one before.
ghost use Rattle.std.specs.Prelude.{◌≡◌, ℕ, ◌<◌, ◌≤◌, List, [], ◌++◌, length, take, Option, IfOk, OnErr, IfSome};
ghost use Rattle.segment_disk.specs.Cause.{HasCause};
ghost use Rattle.segment_disk.specs.Stream.{Takes, ends_after, with_behind};

use crate::failed::Failed;

/// Bytes that come from outside, piece by piece. What each source tells is what it has handed out,
/// and how often it has answered that nothing is left; one that also tells what is left has handed
/// out the front of that, in order, and nothing else (`HandsOut` of specs/Stream.antt).
pub trait Source {
    /// The bytes that are left, where the source tells them.
    ghost left: { Self → Option (List ℕ) };

    /// All bytes that it has handed out so far.
    ghost handed: { Self → List ℕ };

    /// How often it has answered that nothing is left.
    ghost ends_told: { Self → ℕ };

    /// How often the source has failed.
    ghost faults: { Self → ℕ };

    /// Reads into the front of a piece, and answers how many bytes. Answers 0 on a piece that is
    /// not empty exactly where nothing is left. A failed call takes nothing.
    fn read(&mut self, into: &mut [u8]) -> Result<usize, Failed>
        // At Ok the front of the piece is what was handed out next, which is off the front of what
        // is left.
        ensures within { IfOk result (λ n. n ≤ length into.old) }
        ensures handed { IfOk result (λ n. handed self.new ≡ handed self.old ++ take n into.new) }
        ensures none_handed { OnErr result (handed self.new ≡ handed self.old) }
        ensures taken { IfOk result (λ n. Takes (left self.old) (left self.new) n into.new) }
        // Only where nothing is left is nothing given, into a piece that has room; that is counted.
        ensures end { IfOk result (λ n. n ≡ 0 → 0 < length into.old
            → IfSome (left self.old) (λ bytes. bytes ≡ [])) }
        ensures ends_told { IfOk result (λ n.
            ends_told self.new ≡ ends_after (ends_told self.old) (length into.old) n) }
        ensures no_end_told { OnErr result (ends_told self.new ≡ ends_told self.old) }
        ensures failed { OnErr result (left self.new ≡ left self.old) }
        ensures cause { HasCause (faults self.old) (faults self.new) result };

    fn faults(&self) -> u64
        ensures { result ≡ faults self.now };
}

/// A taker of bytes.
pub trait Sink {
    /// The bytes taken so far, where the sink tells them.
    ghost taken: { Self → Option (List ℕ) };

    /// How often the sink has failed.
    ghost faults: { Self → ℕ };

    /// Takes bytes off the front of a piece, at least one of a piece that is not empty, and answers
    /// how many. A failed call takes nothing.
    fn write(&mut self, from: &[u8]) -> Result<usize, Failed>
        // At Ok a front of the piece stands behind what was taken before.
        ensures within { IfOk result (λ n. n ≤ length from.now) }
        ensures some { IfOk result (λ n. 0 < length from.now → 0 < n) }
        ensures taken { IfOk result
            (λ n. taken self.new ≡ with_behind (taken self.old) (take n from.now)) }
        ensures failed { OnErr result (taken self.new ≡ taken self.old) }
        ensures cause { HasCause (faults self.old) (faults self.new) result };

    fn faults(&self) -> u64
        ensures { result ≡ faults self.now };
}
