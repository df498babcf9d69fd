//! Laws of the definitions, each proved by a function that does nothing.

ghost use Rattle.std.specs.Prelude.{◌≡◌, ℕ, ◌≤◌, All, IfSome, List, None, length};
ghost use Rattle.segment_disk.specs.Tape.{DiskState};
ghost use Rattle.segment_disk.specs.DiskImage.{DiskImage, MayLeave};
ghost use Rattle.segment_disk.specs.Picks.{IsPicked, by_list};

/// A law: every image that a crash may leave of finitely many segments is that of some list, whose
/// numbers are at most the count of writes since a segment's last sync.
pub fn every_image_left_is_that_of_a_list()
    ensures { (state : DiskState) (bound most : ℕ) (image : DiskImage)
        → ((segment : ℕ) → bound ≤ segment → state segment ≡ None)
        → ((segment : ℕ) → IfSome (state segment) (λ s. length s.writes ≤ most))
        → MayLeave state image → (numbers : List ℕ) × All (λ n. n ≤ most) numbers
        × IsPicked (by_list numbers) state image }
{}
