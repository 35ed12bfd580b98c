ghost use Rattle.std.specs.Prelude.{◌≡◌, ◌++◌, [], ◌∷◌, length, slice_get, IsTrue, OnOk, OnErr};
ghost use Rattle.std.specs.Option.{option_copied};
ghost use Rattle.ver_text.specs.NamedPorts as spec;

use dip_lists::{Items, Memory};
use net_cells::{NameTable, Port, Ports};
use std::alloc::Global;
use std::marker::Model;

/// Ports with names of their own, which are found without going through all of them, whatever names they are.
/// Contracts see the list of the ports.
#[derive(Drop)]
pub struct NamedPorts {
    ports: Vec<Port>,
    // The place of each port under its name.
    places: NameTable,
}

impl Model for NamedPorts {
    ghost use Rattle.std.specs.Prelude.{List, ◌≡◌};
    ghost use Rattle.net_cells.specs.declared.netlist.Port.{Port};
    ghost use Rattle.net_cells.specs.NameTables.{number_in};
    ghost use Rattle.ver_text.specs.NamedPorts.{port_place};

    ghost Value = { List Port };

    ghost view = { λ n. n.ports.items };

    ghost invariant = { λ n. number_in n.places ≡ port_place n.ports.items };
}

impl NamedPorts {
    /// No port.
    pub fn new(alloc: Global) -> NamedPorts
        ensures { result ≡ [] }
    {
        NamedPorts {
            ports: Vec::new(alloc),
            places: NameTable::new(alloc),
        }
    }

    /// Whether there is no port.
    pub fn is_empty(&self) -> bool
        ensures { result ≡ spec.is_none self.now }
    {
        self.ports.is_empty()
    }

    /// How many there are.
    pub fn len(&self) -> usize
        ensures { result ≡ length self.now }
    {
        self.ports.len()
    }

    /// The port at a place.
    pub fn get(&self, place: usize) -> Option<&Port>
        ensures { option_copied result ≡ slice_get self.now place }
    {
        self.ports.get(place)
    }

    /// The place of the port with a name.
    pub fn place_of(&self, name: &[u8]) -> Option<u64>
        ensures { result ≡ spec.port_place self.now name.now }
    {
        self.places.number_of(name)
    }

    /// Whether no port has a name.
    pub fn is_new(&self, name: &[u8]) -> bool
        ensures { result ≡ spec.is_new self.now name.now }
    {
        self.place_of(name).is_none()
    }

    /// One more port, with a new name. After `Memory` the ports are as before.
    pub fn push(&mut self, port: Port) -> Result<(), Memory>
        requires { IsTrue (spec.is_new self.old port.name) }
        ensures ok { OnOk result (self.new ≡ self.old ++ port ∷ []) }
        ensures err { OnErr result (self.new ≡ self.old) }
    {
        let place = self.ports.len();
        self.ports.push(port)?;
        let added = self
            .places
            .set(self.ports[place].name.bytes(), place as u64);
        if added.is_err() {
            self.ports.pop();
        }
        added
    }

    /// The ports alone.
    pub fn into_ports(self) -> Ports
        ensures { result ≡ self }
    {
        Items::from_vec(self.ports)
    }
}
