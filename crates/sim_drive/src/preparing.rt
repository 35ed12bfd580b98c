ghost use Rattle.std.specs.Prelude.{◌≡◌, ◌≤◌, ◌<◌, ◌+◌, ◌++◌, ◌^◌, length, map, All, IfOk, OnOk, []};
ghost use Rattle.std.specs.List.{range_with_len};
ghost use Rattle.tl_edge.specs.Messages.{bytes_of};
ghost use Rattle.tl_edge.specs.SoundPlans.{IsSound};
ghost use Rattle.soc_stimulus.specs.Stimuli.{IsLegalAsked};
ghost use Rattle.sim_drive.specs.Opening.{addresses_of};
ghost use Rattle.sim_drive.specs.Preparing as spec;

use dip_lists::{Items, Memory};
use sim_ports::{Prepared, StimRequest};
use std::alloc::Global;
use tl_edge::{Plan, PlanPort, Request};
use tl_params::{Slave, owner_among};

// The number of the sink port with this slave.
fn sink_with_slave(sinks: &[PlanPort], slave: &Slave) -> Option<usize>
    ensures { result ≡ spec.sink_with_slave sinks.now slave.now }
{
    for (number, at) in sinks.iter().enumerate() {
        if slave.node == at.node && slave.port == at.port {
            return Some(number);
        }
    }
    None
}

// The number of the sink port whose slave owns an address.
fn sink_owning(sinks: &[PlanPort], slaves: &[Slave], address: u64) -> Option<usize>
    ensures { result ≡ spec.sink_owning sinks.now slaves.now address }
{
    let place = owner_among(slaves, address)?;
    sink_with_slave(sinks, slaves.get(place)?)
}

// The number of the sink port to which a request goes.
fn sink_asked(plan: &Plan, asked: &StimRequest) -> Option<usize>
    ensures { result ≡ spec.sink_asked plan.now asked.now }
{
    let at = plan.sources.get(asked.port as usize)?;
    let edge = plan.edges.get(at.edge as usize)?;
    sink_owning(
        plan.sinks.as_slice(),
        edge.slaves.as_slice(),
        asked.request.address,
    )
}

// Adds the addresses of all bytes of a request.
fn add_bytes(list: &mut Vec<u64>, request: &Request) -> Result<(), Memory>
    requires { request.now.address + bytes_of request.now.size < 2 ^ 64 }
    ensures { OnOk result (list.new.items ≡ list.old.items ++ spec.bytes_asked request.now) }
{
    for number in 0..1u64 << request.size {
        list.push(request.address + number)?;
    }
    Ok(())
}

// An empty list for each of so many sink ports.
fn no_addresses(alloc: Global, count: usize) -> Result<Vec<Vec<u64>>, Memory>
    ensures { IfOk result (λ lists.
        map (λ list. list.items) lists.items ≡ map (λ _. []) (range_with_len 0 count)) }
{
    let mut lists = Vec::with_capacity(alloc, count)?;
    for _ in 0..count {
        lists.push(vec![in alloc]?)?;
    }
    Ok(lists)
}

// The addresses of all bytes of the requests that go to each sink port, in the order of the requests.
fn bytes_by_sink(
    alloc: Global,
    plan: &Plan,
    requests: &[StimRequest],
) -> Result<Vec<Vec<u64>>, Memory>
    requires { All (λ asked. asked.request.address + bytes_of asked.request.size < 2 ^ 64) requests.now }
    ensures { IfOk result (λ lists. map (λ list. list.items) lists.items
        ≡ map (spec.all_bytes_at plan.now requests.now) (range_with_len 0 (length plan.now.sinks))) }
{
    let mut lists = no_addresses(alloc, plan.sinks.len())?;
    for asked in requests {
        match sink_asked(plan, asked) {
            Some(sink) => add_bytes(&mut lists[sink], &asked.request)?,
            None => {}
        }
    }
    Ok(lists)
}

// Numbers in rising order, each once.
fn rising(mut numbers: Vec<u64>) -> Prepared
    ensures { result.addresses ≡ spec.rising numbers.items }
{
    numbers.sort_unstable();
    numbers.dedup();
    Prepared {
        addresses: Items::from_vec(numbers),
    }
}

/// The addresses at which the device of each sink port of a plan is prepared.
pub fn prepared_for(
    alloc: Global,
    plan: &Plan,
    requests: &[StimRequest],
) -> Result<Vec<Prepared>, Memory>
    requires sound { IsSound plan.now }
    requires legal { All (IsLegalAsked plan.now) requests.now }
    ensures { IfOk result (λ prepared. addresses_of prepared.items
        ≡ spec.all_addresses plan.now requests.now) }
{
    let lists = bytes_by_sink(alloc, plan, requests)?;
    let count = lists.len();
    let mut left = lists.into_iter();
    let mut prepared = Vec::with_capacity(alloc, count)?;
    for _sink in 0..count {
        let Some(list) = left.next() else {
            unreachable!();
        };
        prepared.push(rising(list))?;
    }
    Ok(prepared)
}
