ghost use Rattle.std.specs.Prelude.{◌≡◌, ◌≤◌, ◌<◌, ◌++◌, ◌∷◌, [], length, All, IfOk, OnOk};
ghost use Rattle.tl_edge.specs.SoundPlans.{IsSound};
ghost use Rattle.sim_ports.specs.Sources.{Sends};
ghost use Rattle.soc_stimulus.specs.Stimuli.{IsLegalAsked};
ghost use Rattle.sim_drive.specs.Opening as spec;

use dip_lists::{Items, Memory};
use sim_ports::{SourceDriver, StimRequest, StimRequests};
use std::alloc::Global;
use tl_edge::{Plan, PlanPort, Request, Requests};
use tl_params::Numbers;

/// What a stimulus asks of a source port.
#[derive(Drop)]
pub struct Asked {
    /// Its requests, in order.
    pub requests: Requests,
    /// The first cycle in which each of them may be offered.
    pub starts: Numbers,
}

impl Asked {
    // Adds a request.
    fn add(&mut self, at: u32, request: Request) -> Result<(), Memory>
        ensures requests { OnOk result (self.new.requests ≡ self.old.requests ++ request ∷ []) }
        ensures starts { OnOk result (self.new.starts ≡ self.old.starts ++ at ∷ []) }
    {
        self.requests.push(request)?;
        self.starts.push(at)
    }
}

// Nothing for each of so many source ports.
fn nothing_asked(alloc: Global, count: usize) -> Result<Vec<Asked>, Memory>
    ensures { IfOk result (λ lists. spec.AreAskedBy [] count lists.items) }
{
    let mut lists = Vec::with_capacity(alloc, count)?;
    for _ in 0..count {
        lists.push(Asked {
            requests: Items::new(alloc),
            starts: Items::new(alloc),
        })?;
    }
    Ok(lists)
}

// What a stimulus asks of each of so many source ports.
fn asked_by_port(alloc: Global, count: usize, requests: StimRequests) -> Result<Vec<Asked>, Memory>
    requires { All (λ asked. asked.port < count) requests }
    ensures { IfOk result (λ lists. spec.AreAskedBy requests count lists.items) }
{
    let total = requests.len();
    let mut left = requests.into_vec().into_iter();
    let mut lists = nothing_asked(alloc, count)?;
    for _number in 0..total {
        let Some(asked) = left.next() else {
            unreachable!();
        };
        let StimRequest { port, at, request } = asked;
        lists[port as usize].add(at, request)?;
    }
    Ok(lists)
}

// The driver of a source port of a plan, with what is asked of it.
fn source_driver(
    alloc: Global,
    plan: &Plan,
    at: &PlanPort,
    asked: Asked,
) -> Result<SourceDriver, Memory>
    requires sound { IsSound plan.now }
    requires may { spec.MaySendAsked plan.now at.now asked }
    ensures { IfOk result (λ driver. Sends (spec.asked_script plan.now at.now asked) [] driver) }
{
    let edge = &plan.edges.as_slice()[at.edge as usize];
    SourceDriver::open(
        alloc,
        edge.bundle.data_bytes,
        edge.ids,
        asked.requests,
        asked.starts,
    )
}

/// The drivers of a plan's source ports, with the requests that a stimulus asks of each.
pub fn source_drivers(
    alloc: Global,
    plan: &Plan,
    requests: StimRequests,
) -> Result<Vec<SourceDriver>, Memory>
    requires sound { IsSound plan.now }
    requires few { length requests ≤ 10000 }
    requires legal { All (IsLegalAsked plan.now) requests }
    ensures { IfOk result (λ drivers. spec.HaveAsked (spec.asking plan.now requests) drivers.items) }
{
    let ports = plan.sources.as_slice();
    let mut lists = asked_by_port(alloc, ports.len(), requests)?.into_iter();
    let mut drivers = Vec::with_capacity(alloc, ports.len())?;
    for at in ports {
        let Some(asked) = lists.next() else {
            unreachable!();
        };
        drivers.push(source_driver(alloc, plan, at, asked)?)?;
    }
    Ok(drivers)
}
