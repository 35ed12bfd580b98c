ghost use Rattle.std.specs.Prelude.{◌≡◌, ◌≤◌, ◌<◌, length, replicate, true, false, IfOk};
ghost use Rattle.tl_edge.specs.Messages.{bytes_of};
ghost use Rattle.sim_ports.specs.Atomics.{new_bytes};
ghost use Rattle.sim_ports.specs.Devices as devices;
ghost use Rattle.sim_ports.specs.Layout as layout;
ghost use Rattle.sim_ports.specs.Kept.{meaning_of};
ghost use Rattle.sim_ports.specs.Memories as spec;

use crate::atomics::new_number;
use crate::device::Device;
use crate::laid_out::{LaidOut, laid_out};
use crate::memory::{read, write, write_flagged};
use crate::numbers::{number_of, put_number};
use crate::role::Role;
use crate::runs::{Run, Runs};
use dip_lists::{Bytes, Items, Memory};
use std::alloc::Global;
use std::marker::Model;
use tl_edge::Request;
use tl_params::Op;

/// A memory: a RAM, a ROM, or one that denies all. Contracts see it as it is kept.
///
/// It keeps a byte for each address, and the runs of contiguous addresses in rising order: the bytes of a
/// request are found by one search.
#[derive(Drop)]
pub struct Cells {
    alloc: Global,
    prepared: bool,
    role: Role,
    runs: Runs,
    bytes: Bytes,
}

impl Model for Cells {
    ghost use Rattle.std.specs.Prelude.{length};
    ghost use Rattle.sim_ports.specs.Layout.{AreByteRuns, Keeping};

    ghost Value = { Keeping };

    ghost view = { λ c. record { prepared = c.prepared; role = c.role; runs = c.runs; bytes = c.bytes } };

    ghost invariant = { λ c. AreByteRuns c.runs (length c.bytes) };
}

// Whether a memory in a role does an operation.
fn grants(role: Role, op: Op) -> bool
    ensures { result ≡ spec.grants role op }
{
    match role {
        Role::Ram => true,
        Role::Rom => matches!(op, Op::Get | Op::Intent),
        Role::Deny => false,
    }
}

// Does an atomic operation, and gives the old bytes.
fn exchange(runs: &[Run], bytes: &mut [u8], request: &Request, payload: &mut [u8])
    requires runs { layout.AreByteRuns runs.now (length bytes.old) }
    requires some { 1 ≤ length payload.old }
    requires few { length payload.old ≤ 8 }
    requires operand { length request.now.payload ≡ length payload.old }
    requires has { layout.HasPlaces runs.now request.now.address (length payload.old) }
    ensures payload { payload.new
        ≡ spec.bytes_from (layout.kept runs.now bytes.old) request.now.address (length payload.old) }
    ensures kept { layout.kept runs.now bytes.new
        ≡ spec.after_write (layout.kept runs.now bytes.old) request.now.address
        (replicate (length payload.old) true)
        (new_bytes request.now.op request.now.param payload.new request.now.payload) }
{
    read(runs, bytes, request.address, payload);
    let count = payload.len() as u32;
    let old = number_of(payload);
    let operand = number_of(request.payload.as_slice());
    let number = new_number(request.op, request.param, count, old, operand);
    let mut fresh = [0; 8];
    put_number(number, &mut fresh[..payload.len()]);
    write(runs, bytes, request.address, &fresh[..payload.len()]);
}

// Does a request that isn't denied.
fn do_request(runs: &[Run], bytes: &mut [u8], request: &Request, payload: &mut [u8])
    requires runs { layout.AreByteRuns runs.now (length bytes.old) }
    requires request { layout.MayBeDone runs.now request.now }
    requires room { length payload.old ≡ devices.answer_bytes request.now }
    ensures payload { payload.new
        ≡ (spec.granted request.now.op (layout.kept runs.now bytes.old) request.now).payload }
    ensures kept { layout.kept runs.now bytes.new
        ≡ (spec.granted request.now.op (layout.kept runs.now bytes.old) request.now).held }
{
    match request.op {
        Op::Get => read(runs, bytes, request.address, payload),
        Op::PutFull => write(runs, bytes, request.address, request.payload.as_slice()),
        Op::PutPartial => write_flagged(
            runs,
            bytes,
            request.address,
            request.mask.as_slice(),
            request.payload.as_slice(),
        ),
        Op::Arithmetic | Op::Logical => exchange(runs, bytes, request, payload),
        Op::Intent => {}
    }
}

impl Cells {
    /// A memory that isn't prepared, which takes its memory from `alloc`.
    pub fn new(alloc: Global) -> Cells
        ensures { meaning_of result ≡ spec.unprepared }
    {
        Cells {
            alloc,
            prepared: false,
            role: Role::Deny,
            runs: Items::new(alloc),
            bytes: Items::new(alloc),
        }
    }
}

impl Device for Cells {
    ghost meaning = { meaning_of };

    fn prepare(&mut self, role: Role, addresses: &[u64]) -> Result<(), Memory> {
        self.prepared = false;
        let LaidOut { runs, bytes } = laid_out(self.alloc, role, addresses)?;
        self.role = role;
        self.runs = runs;
        self.bytes = bytes;
        self.prepared = true;
        Ok(())
    }

    fn answer(&mut self, request: &Request, payload: &mut [u8]) -> bool {
        if !grants(self.role, request.op) {
            payload.fill(0);
            return true;
        }
        do_request(
            self.runs.as_slice(),
            self.bytes.as_mut_slice(),
            request,
            payload,
        );
        false
    }
}
