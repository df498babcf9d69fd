// Which calls of a body in memory are to fail, by their numbers: so a test plays each fault it
// wants.
ghost use Rattle.std.specs.Prelude.{◌≡◌};
ghost use Rattle.segment_disk.specs.Failing.{is_listed as listed, fails_next, after_next};

use std::marker::Model;

/// Which calls fail, by their numbers from 1, and how many were made.
#[derive(Debug, Drop)]
pub struct FailingCalls {
    failing: Vec<u64>,
    made: u64,
}

impl Model for FailingCalls {
    ghost use Rattle.segment_disk.specs.Failing.{Failing};

    ghost Value = { Failing };

    ghost view = { λ s. record { numbers = s.failing.items; made = s.made } };
}

impl FailingCalls {
    pub fn new(failing: Vec<u64>) -> FailingCalls
        ensures { result ≡ record { numbers = failing.items; made = 0 } }
    {
        FailingCalls { failing, made: 0 }
    }

    /// Counts a call, and answers whether it is to fail. The count stops at the last number that it
    /// can have.
    pub fn next_fails(&mut self) -> bool
        ensures fails { result ≡ fails_next self.old }
        ensures made { self.new ≡ after_next self.old }
    {
        self.made = self.made.saturating_add(1);
        is_listed(&self.failing, self.made)
    }
}

pub fn is_listed(numbers: &[u64], number: u64) -> bool
    ensures { result ≡ listed numbers.now number }
{
    numbers.contains(&number)
}
