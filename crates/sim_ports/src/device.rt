ghost use Rattle.std.specs.Prelude.{◌≡◌, length, true, false, OnOk, OnErr};
ghost use Rattle.sim_ports.specs.Devices as spec;

use crate::Role;
use dip_lists::Memory;
use tl_edge::Request;

/// What answers requests at a sink port: a byte at each of its addresses, a role, and an answer to each
/// request that all of this determines.
///
/// A device can be made outside of this crate. No call changes what it states.
pub trait Device: Drop {
    /// What it states; whether it is prepared, and as what; and what it holds.
    ghost meaning: { Self → spec.Meaning };

    /// Makes the device hold what it states of these addresses in this role, and nothing else. The addresses
    /// may stand in any order. After `Memory` it isn't prepared, and may be prepared again.
    fn prepare(&mut self, role: Role, addresses: &[u64]) -> Result<(), Memory>
        ensures ok { OnOk result (meaning self.new ≡ spec.started (meaning self.old) role addresses.now) }
        ensures addresses { OnOk result (spec.HasJust addresses.now (meaning self.new).held) }
        ensures err { OnErr result ((meaning self.new).prepared ≡ false) }
        ensures same { (meaning self.new).says ≡ (meaning self.old).says };

    /// Answers a request: whether it is denied, with the data of the response in `payload`, as many bytes as
    /// it carries. It takes no memory.
    fn answer(&mut self, request: &Request, payload: &mut [u8]) -> bool
        requires prepared { (meaning self.old).prepared ≡ true }
        requires request { spec.MayBeAsked (meaning self.old).held request.now }
        requires room { length payload.old ≡ spec.answer_bytes request.now }
        ensures denied { result ≡ (spec.device_answer (meaning self.old) request.now).denied }
        ensures payload { payload.new ≡ (spec.device_answer (meaning self.old) request.now).payload }
        ensures meaning { meaning self.new ≡ spec.after_answer (meaning self.old) request.now }
        ensures addresses { spec.HaveSame (meaning self.new).held (meaning self.old).held };
}
