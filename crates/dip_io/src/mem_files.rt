ghost use Rattle.std.specs.Prelude.{◌≡◌, ◌≢◌, ◌≤◌, ◌↔◌, ℕ, List, Some, None, OnOk, OnErr};
ghost use Rattle.std.specs.Option.{option_map};
ghost use Rattle.dip_io.specs.Counting.{FailsNext, after_call, after_fault, failing_at, no_calls};
ghost use Rattle.dip_io.specs.InMemory.{HoldSame, LoadFails, OthersHoldSame, calls_on, files_seen, held_by};
ghost use Rattle.dip_io.specs.Outside.{Loads};

use crate::calls::Calls;
use crate::{Failed, Files, LoadFault};
use dip_lists::Memory;
use std::alloc::Global;
use std::collections::BTreeMap;

/// Files in memory, which tell everything and fail at the calls that they are told to.
#[derive(Debug, Drop)]
pub struct MemFiles {
    alloc: Global,
    contents: BTreeMap<String, Vec<u8>>,
    calls: Calls,
}

impl MemFiles {
    /// No file, no call made, and none that is to fail.
    pub fn new(alloc: Global) -> MemFiles
        ensures empty { (name : List ℕ) → held_by result name ≡ None }
        ensures calls { calls_on result ≡ no_calls }
    {
        MemFiles {
            alloc,
            contents: BTreeMap::new(alloc),
            calls: Calls::new(alloc),
        }
    }

    /// The bytes of a file; `None` exactly where there is no such file.
    pub fn get(&self, name: &str) -> Option<&[u8]>
        ensures { option_map (λ bytes. bytes.now) result ≡ held_by self.now name.now }
    {
        match self.contents.get(name) {
            None => None,
            Some(bytes) => Some(bytes.as_slice()),
        }
    }

    /// Puts these bytes in the place of what the named file held. This is no call that is counted.
    #[tactic(auto, using(std::proofs::lemmas::Map::Text::text_keys))]
    pub fn set(&mut self, name: &str, bytes: &[u8]) -> Result<(), Memory>
        ensures ok { OnOk result (held_by self.new name.now ≡ Some bytes.now) }
        ensures others { OthersHoldSame name.now self.old self.new }
        ensures calls { calls_on self.new ≡ calls_on self.old }
        ensures err { OnErr result (HoldSame self.old self.new) }
    {
        let name = String::from_str(self.alloc, name)?;
        let bytes = Vec::from_slice(self.alloc, bytes)?;
        self.contents.insert(name, bytes)?;
        Ok(())
    }

    /// The load or save with this number is to fail. They are counted together, from 1.
    pub fn fail_at(&mut self, call: u64) -> Result<(), Memory>
        ensures ok { OnOk result (calls_on self.new ≡ failing_at call (calls_on self.old)) }
        ensures content { HoldSame self.old self.new }
        ensures err { OnErr result (self.new ≡ self.old) }
    {
        self.calls.fail_at(call)
    }
}

impl Files for MemFiles {
    ghost seen = { files_seen };

    fn load(&mut self, name: &str, max: usize, into: &mut Vec<u8>) -> Result<(), LoadFault>
        ensures due { (result ≡ Err LoadFault.Failed) ↔ LoadFails name.now self.old }
        ensures ok { OnOk result (Loads max name.now (files_seen self.old) into.old.items into.new.items) }
        ensures refused { OnErr result (into.new.items ≡ into.old.items) }
        ensures content { HoldSame self.old self.new }

        ensures failed { result ≡ Err LoadFault.Failed → calls_on self.new ≡ after_fault (calls_on self.old) }
        ensures passed { result ≢ Err LoadFault.Failed → calls_on self.new ≡ after_call (calls_on self.old) }
        ensures later { (calls_on self.old).failed ≤ (calls_on self.new).failed }
    {
        let fails = self.calls.begin();
        match self.get(name) {
            Some(bytes) if !fails => {
                let count = bytes.len().min(max);
                into.extend_from_slice(&bytes[..count])
                    .map_err(|_| LoadFault::Memory)
            }
            _ => {
                self.calls.count_failure();
                Err(LoadFault::Failed)
            }
        }
    }

    fn save(&mut self, name: &str, bytes: &[u8]) -> Result<(), Failed>
        ensures due { OnOk result (¬ FailsNext (calls_on self.old)) }
        ensures ok { OnOk result (held_by self.new name.now ≡ Some bytes.now) }
        ensures others { OthersHoldSame name.now self.old self.new }
        ensures refused { OnErr result (HoldSame self.old self.new) }

        ensures failed { OnErr result (calls_on self.new ≡ after_fault (calls_on self.old)) }
        ensures passed { OnOk result (calls_on self.new ≡ after_call (calls_on self.old)) }
        ensures later { (calls_on self.old).failed ≤ (calls_on self.new).failed }
    {
        if !self.calls.begin()
            && let Ok(()) = self.set(name, bytes)
        {
            return Ok(());
        }
        self.calls.count_failure();
        Err(Failed)
    }
}
