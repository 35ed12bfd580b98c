ghost use Rattle.std.specs.Prelude.{◌≡◌, ◌<◌, ◌≤◌, ◌++◌, [], length, min, take, IfOk, OnOk, OnErr};

use crate::calls::Calls;
use crate::{Failed, Out};
use dip_lists::Memory;
use std::alloc::Global;

// The struct has a ghost field, so the words that its contracts cite are named in its `impl`s.
/// An output in memory, which tells everything and fails at the calls that it is told to.
#[derive(Debug, Drop)]
pub struct MemOut {
    bytes: Vec<u8>,
    most: usize,
    puts: Calls,
    ghost takes_some: { 0 < most },
}

impl MemOut {
    ghost use Rattle.dip_io.specs.Counting.{failing_at, no_calls};
    ghost use Rattle.dip_io.specs.InMemory.{most_of, puts_on, written_to};

    /// Nothing written, no put made, and none that is to fail. One `put` takes at most `most` bytes.
    pub fn new(alloc: Global, most: usize) -> MemOut
        requires { 0 < most }
        ensures empty { written_to result ≡ [] }
        ensures most { most_of result ≡ most }
        ensures puts { puts_on result ≡ no_calls }
    {
        MemOut {
            bytes: Vec::new(alloc),
            most,
            puts: Calls::new(alloc),
        }
    }

    /// The put with this number, counted from 1, is to fail.
    pub fn fail_at(&mut self, call: u64) -> Result<(), Memory>
        ensures ok { OnOk result (puts_on self.new ≡ failing_at call (puts_on self.old)) }
        ensures written { written_to self.new ≡ written_to self.old }
        ensures most { most_of self.new ≡ most_of self.old }
        ensures err { OnErr result (self.new ≡ self.old) }
    {
        self.puts.fail_at(call)
    }

    /// The bytes written so far.
    pub fn bytes(&self) -> &[u8]
        ensures { result.now ≡ written_to self.now }
    {
        self.bytes.as_slice()
    }
}

impl Out for MemOut {
    ghost use Rattle.dip_io.specs.Counting.{FailsNext, after_call, after_fault};
    ghost use Rattle.dip_io.specs.InMemory.{most_of, out_seen, puts_on, written_to};

    ghost seen = { out_seen };

    fn put(&mut self, bytes: &[u8]) -> Result<usize, Failed>
        ensures due { OnOk result (¬ FailsNext (puts_on self.old)) }
        ensures count { IfOk result (λ count. count ≡ min (most_of self.old) (length bytes.now)) }
        ensures ok { IfOk result (λ k. written_to self.new ≡ written_to self.old ++ take k bytes.now) }
        ensures refused { OnErr result (written_to self.new ≡ written_to self.old) }
        ensures most { most_of self.new ≡ most_of self.old }

        ensures failed { OnErr result (puts_on self.new ≡ after_fault (puts_on self.old)) }
        ensures passed { OnOk result (puts_on self.new ≡ after_call (puts_on self.old)) }
        ensures later { (puts_on self.old).failed ≤ (puts_on self.new).failed }
    {
        let fails = self.puts.begin();
        let count = bytes.len().min(self.most);
        if fails || self.bytes.extend_from_slice(&bytes[..count]).is_err() {
            self.puts.count_failure();
            return Err(Failed);
        }
        Ok(count)
    }
}
