ghost use Rattle.std.specs.Prelude.{◌≡◌, ◌≤◌, ◌+◌, ℕ, List, IfOk, length};
ghost use Rattle.std.specs.List.Sorted.{IsNonDecreasing};
ghost use Rattle.sim_ports.specs.Devices.{HeldBytes};
ghost use Rattle.sim_ports.specs.Layout as layout;
ghost use Rattle.sim_ports.specs.Memories as spec;

use crate::role::Role;
use crate::runs::{Run, Runs};
use dip_lists::{Bytes, Items, Memory};
use std::alloc::Global;

/// Runs, and the bytes of all of them.
#[derive(Drop)]
pub(crate) struct LaidOut {
    pub runs: Runs,
    pub bytes: Bytes,
}

// What a memory holds at an address at first.
fn first_byte(role: Role, address: u64) -> u8
    ensures { result ≡ spec.first_byte role address }
{
    match role {
        Role::Rom => (address % 256) as u8,
        Role::Ram | Role::Deny => 0,
    }
}

// The run to which an address is added: the last one, or a new one behind it, if the address isn't the next.
fn run_for(runs: &mut Runs, run: Run, address: u64, place: usize) -> Result<Run, Memory>
    requires { run.first + run.count ≤ address }
    ensures next { IfOk result (λ new. new.first + new.count ≡ address) }
    ensures laid { IfOk result (λ new. (held : HeldBytes) (few : ℕ) (bytes : List ℕ) → length bytes ≡ place
        → layout.IsLaying held few runs.old run bytes → layout.IsLaying held few runs.new new bytes) }
{
    if address - run.first == run.count {
        return Ok(run);
    }
    runs.push(run)?;
    Ok(Run {
        first: address,
        count: 0,
        place,
    })
}

// The bytes that a memory holds at first at addresses of which none is below the one before it.
fn from_rising(alloc: Global, role: Role, addresses: &[u64]) -> Result<LaidOut, Memory>
    requires { IsNonDecreasing addresses.now }
    ensures { IfOk result (λ l. layout.IsLaidOut l.runs l.bytes (spec.first_held role addresses.now)) }
{
    let mut runs = Items::new(alloc);
    let mut bytes = Items::new(alloc);
    let mut run = Run {
        first: addresses.first().copied().unwrap_or(0),
        count: 0,
        place: 0,
    };
    for address in addresses {
        if *address - run.first < run.count {
            continue;
        }
        run = run_for(&mut runs, run, *address, bytes.len())?;
        bytes.push(first_byte(role, *address))?;
        run.count += 1;
    }
    runs.push(run)?;
    Ok(LaidOut { runs, bytes })
}

/// The bytes that a memory holds at first at some addresses, in whatever order they stand.
pub(crate) fn laid_out(alloc: Global, role: Role, addresses: &[u64]) -> Result<LaidOut, Memory>
    ensures { IfOk result (λ l. layout.IsLaidOut l.runs l.bytes (spec.first_held role addresses.now)) }
{
    if addresses.is_sorted() {
        return from_rising(alloc, role, addresses);
    }
    let mut sorted = Vec::from_slice(alloc, addresses)?;
    sorted.sort()?;
    from_rising(alloc, role, &sorted)
}
