ghost use Rattle.std.specs.Prelude.{◌≡◌, ◌≤◌, ◌↔◌, IsTrue, OnOk, OnErr};
ghost use Rattle.dip_io.specs.Counting.{FailsNext, after_call, failing_at, raised, no_calls};

use dip_lists::{Items, Memory};
use std::alloc::Global;

/// The calls on something in memory. The first call has number 1.
#[derive(Debug, Drop)]
pub struct Calls {
    /// The numbers of the calls that are to fail.
    pub failing: Items<u64>,
    /// How many calls were made.
    pub made: u64,
    /// How many of them have failed.
    pub failed: u64,
}

impl Calls {
    /// No call made, and none that is to fail.
    pub fn new(alloc: Global) -> Calls
        ensures { result ≡ no_calls }
    {
        Calls {
            failing: Items::new(alloc),
            made: 0,
            failed: 0,
        }
    }

    /// The call with this number is to fail.
    pub fn fail_at(&mut self, call: u64) -> Result<(), Memory>
        ensures ok { OnOk result (self.new ≡ failing_at call self.old) }
        ensures err { OnErr result (self.new ≡ self.old) }
    {
        self.failing.push(call)
    }

    /// Counts a call, and answers whether it is to fail.
    pub fn begin(&mut self) -> bool
        ensures fails { IsTrue result ↔ FailsNext self.old }
        ensures counted { self.new ≡ after_call self.old }
    {
        self.made = self.made.saturating_add(1);
        self.failing.as_slice().contains(&self.made)
    }

    /// Counts a call as failed.
    pub fn count_failure(&mut self)
        ensures counted { self.new ≡ record self.old { failed = raised self.old.failed } }
        ensures later { self.old.failed ≤ self.new.failed }
    {
        self.failed = self.failed.saturating_add(1);
    }
}
