ghost use Rattle.std.specs.Prelude.{◌≡◌, [], ◌∷◌, ◌++◌, ◌<◌, length, false, position, IfSome, OnOk, OnErr};
ghost use Rattle.std.specs.List.{list_any};
ghost use Rattle.std.specs.Str.{bytes_eq};

use dip_lists::Memory;
use indexmap::IndexMap;
use std::alloc::Global;
use std::marker::Model;

/// Names by their numbers, which contracts see as the list of their bytes, in the order of adding. Any text
/// may be one; `dip_sets` has the names of a stated form.
#[derive(Drop)]
pub struct Names {
    alloc: Global,
    // The number of a name is its place; what the map keeps beside it is always 0.
    numbers: IndexMap<String, u32>,
}

impl Model for Names {
    ghost use Rattle.std.specs.Prelude.{List, ℕ};
    ghost use Rattle.dip_names.specs.Numbers.{texts};
    ghost use Rattle.indexmap.specs.IndexMap.{keys};

    ghost Value = { List (List ℕ) };

    ghost view = { λ n. texts (keys n.numbers) };
}

impl Names {
    /// No name.
    pub fn new(alloc: Global) -> Names
        ensures { result ≡ [] }
    {
        Names {
            alloc,
            numbers: IndexMap::new(alloc),
        }
    }

    /// Whether there is this name.
    pub fn has(&self, name: &str) -> bool
        ensures { result ≡ list_any (bytes_eq name.now) self.now }
    {
        self.numbers.contains_key(name)
    }

    /// The number of a name, counted from 0 in the order of adding; `None` exactly where there is none.
    pub fn number_of(&self, name: &str) -> Option<usize>
        ensures value { result ≡ position (bytes_eq name.now) self.now }
        ensures within { IfSome result (λ number. number < length self.now) }
    {
        self.numbers.get_index_of(name)
    }

    /// Adds a name that isn't there yet. After `Memory` the names are as before.
    pub fn add(&mut self, name: &str) -> Result<(), Memory>
        requires { list_any (bytes_eq name.now) self.old ≡ false }
        ensures ok { OnOk result (self.new ≡ self.old ++ name.now ∷ []) }
        ensures err { OnErr result (self.new ≡ self.old) }
    {
        let key = String::from_str(self.alloc, name)?;
        self.numbers.insert(key, 0)?;
        Ok(())
    }
}
