ghost use Rattle.std.specs.Prelude.{◌≡◌, ◌↔◌, IsTrue, IfOk};
ghost use Rattle.dip_sets.specs.Sets.{InSome};
ghost use Rattle.tl_params.specs.OwnerLaw.{IsOwner};
ghost use Rattle.tl_params.specs.Owners as spec;

use crate::Ops;
use dip_lists::{Duplicate, Few, Items, Memory, Same};
use dip_sets::{AddressSet, IdRange};
use std::alloc::Global;

/// A requester as a port sees it.
#[derive(Clone, Copy, Debug, PartialEq, Eq)]
pub struct Master {
    /// The number of its node.
    pub node: u32,
    /// Which port of that node it is.
    pub port: u32,
    /// The source ids that it may use.
    pub ids: IdRange,
    /// What it may request.
    pub emits: Ops,
}

/// The masters of a port.
pub type Masters = Items<Master>;

/// What goes down an edge: who may request.
#[derive(Debug, Drop)]
pub struct DownPort {
    pub masters: Masters,
}

/// A down port for each edge.
pub type DownPorts = Items<DownPort>;

/// The address sets of one port, of which most have one or two.
pub type Addresses = Few<AddressSet>;

/// The address sets of several ports.
pub type AddressLists = Items<Addresses>;

/// A responder as a port sees it.
#[derive(Drop)]
pub struct Slave {
    /// The number of its node.
    pub node: u32,
    /// Which port of that node it is.
    pub port: u32,
    /// The addresses that it answers.
    pub addresses: Addresses,
    /// The requests that it answers.
    pub supports: Ops,
}

/// The slaves of a port.
pub type Slaves = Items<Slave>;

/// What goes up an edge: who answers.
#[derive(Drop)]
pub struct UpPort {
    pub slaves: Slaves,
    /// The width of the data bus in bytes.
    pub beat: u32,
}

/// An up port for each edge.
pub type UpPorts = Items<UpPort>;

impl Same for Master {
    fn same(&self, other: &Master) -> bool {
        *self == *other
    }
}

impl Same for Slave {
    fn same(&self, other: &Slave) -> bool {
        self.node == other.node
            && self.port == other.port
            && self.addresses.same(&other.addresses)
            && self.supports.same(&other.supports)
    }
}

impl Duplicate for Slave {
    fn duplicate(&self, alloc: Global) -> Result<Slave, Memory> {
        Ok(Slave {
            node: self.node,
            port: self.port,
            addresses: self.addresses.copy(alloc)?,
            supports: self.supports,
        })
    }
}

/// Whether two down ports have equal masters in the same order.
pub fn same_down(a: &DownPort, b: &DownPort) -> bool
    ensures { IsTrue result ↔ (a.now ≡ b.now) }
{
    a.masters.same(&b.masters)
}

/// Whether two up ports have equal slaves in the same order, and buses of the same width.
pub fn same_up(a: &UpPort, b: &UpPort) -> bool
    ensures { IsTrue result ↔ (a.now ≡ b.now) }
{
    a.beat == b.beat && a.slaves.same(&b.slaves)
}

/// An equal down port in memory of its own.
pub fn copy_down(alloc: Global, port: &DownPort) -> Result<DownPort, Memory>
    ensures { IfOk result (λ copy. copy ≡ port.now) }
{
    let masters = port.masters.copy(alloc)?;
    Ok(DownPort { masters })
}

/// An equal up port in memory of its own.
pub fn copy_up(alloc: Global, port: &UpPort) -> Result<UpPort, Memory>
    ensures { IfOk result (λ copy. copy ≡ port.now) }
{
    let slaves = port.slaves.duplicate(alloc)?;
    Ok(UpPort {
        slaves,
        beat: port.beat,
    })
}

impl Duplicate for DownPort {
    fn duplicate(&self, alloc: Global) -> Result<DownPort, Memory> {
        copy_down(alloc, self)
    }
}

impl Duplicate for UpPort {
    fn duplicate(&self, alloc: Global) -> Result<UpPort, Memory> {
        copy_up(alloc, self)
    }
}

/// The greatest end of the masters' id ranges: one more than the greatest id. 0 where there is no master.
#[tactic(auto, using(crate::proofs::Largest::largest_end_is))]
pub fn largest_end(port: &DownPort) -> u32
    ensures value { result ≡ spec.largest_end port.now.masters }
    ensures largest { spec.IsLargestEnd port.now.masters result }
{
    let mut largest = 0;
    for master in port.masters.as_slice() {
        largest = largest.max(master.ids.end);
    }
    largest
}

// Whether one of the slave's sets has the address.
fn holds(slave: &Slave, address: u64) -> bool
    ensures members { IsTrue result ↔ InSome slave.now.addresses address }
    ensures test { result ≡ spec.holds slave.now address }
{
    for set in slave.addresses.as_slice() {
        if set.contains(address) {
            return true;
        }
    }
    false
}

/// The place of the first of some slaves one of whose sets has the address; `None` exactly where none does.
pub fn owner_among(slaves: &[Slave], address: u64) -> Option<usize>
    ensures members { IsOwner slaves.now address result }
    ensures value { result ≡ spec.owner slaves.now address }
{
    for (place, slave) in slaves.iter().enumerate() {
        if holds(slave, address) {
            return Some(place);
        }
    }
    None
}

/// The place of the first of a port's slaves one of whose sets has the address; `None` exactly where none
/// does.
pub fn owner(port: &UpPort, address: u64) -> Option<usize>
    ensures members { IsOwner port.now.slaves address result }
    ensures value { result ≡ spec.owner port.now.slaves address }
{
    owner_among(port.slaves.as_slice(), address)
}
