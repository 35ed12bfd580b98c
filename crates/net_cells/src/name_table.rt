ghost use Rattle.std.specs.Prelude.{◌≡◌, [], OnOk, OnErr};
ghost use Rattle.net_cells.specs.NameTables.{number_in, with_number};

use dip_lists::Memory;
use std::alloc::Global;
use std::collections::BTreeMap;
use std::marker::Model;

/// Numbers under names of any bytes. Contracts see the names with their numbers, in the order of bytes.
/// Adding and finding take comparisons of the order of the logarithm of how many names there are, whatever
/// names they are.
#[derive(Drop)]
pub struct NameTable {
    alloc: Global,
    numbers: BTreeMap<Vec<u8>, u64>,
}

impl Model for NameTable {
    ghost use Rattle.std.specs.Prelude.{List, ℕ};
    ghost use Rattle.net_cells.specs.NameTables.{names_with_numbers};

    ghost Value = { List (List ℕ × ℕ) };

    ghost view = { λ t. names_with_numbers t.numbers };
}

impl NameTable {
    /// No name has a number.
    pub fn new(alloc: Global) -> NameTable
        ensures { result ≡ [] }
    {
        NameTable {
            alloc,
            numbers: BTreeMap::new(alloc),
        }
    }

    /// The number under a name; `None` exactly where it has none.
    pub fn number_of(&self, name: &[u8]) -> Option<u64>
        ensures { result ≡ number_in self.now name.now }
    {
        self.numbers.get(name).copied()
    }

    /// Gives a name a number, in place of the one that it may have. After `Memory` the table is as before.
    pub fn set(&mut self, name: &[u8], number: u64) -> Result<(), Memory>
        ensures ok { OnOk result (number_in self.new ≡ with_number (number_in self.old) name.now number) }
        ensures err { OnErr result (self.new ≡ self.old) }
    {
        let key = Vec::from_slice(self.alloc, name)?;
        self.numbers.insert(key, number)?;
        Ok(())
    }
}
