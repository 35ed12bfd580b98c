ghost use Rattle.std.specs.Prelude.{◌≡◌, ◌↔◌, ◌≤◌, ◌<◌, ◌+◌, ◌++◌, ◌∷◌, [], cond, length, true, false, drop, IsSome, IsTrue, IfOk, List};
ghost use Rattle.tl_params.specs.Arguments.{is_width};
ghost use Rattle.tl_edge.specs.declared.beat.Event.{Event};
ghost use Rattle.tl_edge.specs.declared.beat.What.TheVariants.{Leave};
ghost use Rattle.tl_edge.specs.Joined.{joined_request};
ghost use Rattle.sim_ports.specs.Devices as devices;
ghost use Rattle.sim_ports.specs.Nexts.{MayTake};
ghost use Rattle.sim_ports.specs.Prepared.{AreRising, IsPreparedAt};
ghost use Rattle.sim_ports.specs.Sinks as spec;

use crate::device::Device;
use crate::next::passes_test;
use crate::prepared::Prepared;
use crate::room::{Rooms, filled, place_of, rooms};
use dip_lists::Memory;
use std::alloc::Global;
use std::marker::Model;
use tl_edge::{ABeat, ABeats, DBeat, DBeats, beats};
use tl_params::{Ack, Op};

// The most beats of a message: 256 bytes on a bus of one.
const MOST_BEATS: usize = 256;

/// What a sink port has in hand: a request that comes, or the response that is still to pass. It takes no
/// memory after `open`.
#[derive(Drop)]
pub struct SinkPort {
    width: u32,
    delay: u32,
    taken: ABeats,
    count: usize,
    replies: DBeats,
    passed: usize,
    due: usize,
    from: u64,
    rooms: Rooms,
}

impl Model for SinkPort {
    ghost use Rattle.std.specs.Prelude.{drop, take, IsTrue};
    ghost use Rattle.tl_params.specs.Arguments.{is_width};
    ghost use Rattle.sim_ports.specs.Rooms.{HasSpace, AllSuit};
    ghost use Rattle.sim_ports.specs.Sinks.{Serving};

    ghost Value = { Serving };

    ghost view = { λ p. record {
      width = p.width;
      delay = p.delay;
      taken = take p.count p.taken;
      replies = drop p.passed (take p.due p.replies);
      from = p.from;
    } };

    ghost invariant = { λ p. IsTrue (is_width p.width) × HasSpace p.taken p.count p.replies p.passed p.due
        × AllSuit p.rooms };
}

// Stands where no beat has come.
const NO_BEAT: ABeat = ABeat {
    op: Op::Get,
    param: 0,
    size: 0,
    source: 0,
    address: 0,
    mask: 0,
    payload: 0,
};

// Stands where no beat is to pass.
const NO_REPLY: DBeat = DBeat {
    op: Ack::Ack,
    size: 0,
    source: 0,
    denied: false,
    payload: 0,
};

impl SinkPort {
    /// A port at which nothing has happened, on a bus of `width` bytes, and with so many cycles between the
    /// one after a request has left and the first in which its response may be offered.
    pub fn open(alloc: Global, width: u32, delay: u32) -> Result<SinkPort, Memory>
        requires { IsTrue (is_width width) }
        ensures { IfOk result (λ port. port ≡ spec.unasked width delay) }
    {
        Ok(SinkPort {
            width,
            delay,
            taken: filled(alloc, NO_BEAT, MOST_BEATS)?,
            count: 0,
            replies: filled(alloc, NO_REPLY, MOST_BEATS)?,
            passed: 0,
            due: 0,
            from: 0,
            rooms: rooms(alloc)?,
        })
    }

    /// The beats that have left of a request whose last beat hasn't.
    pub fn taken(&self) -> &[ABeat]
        ensures { result.now ≡ self.now.taken }
    {
        &self.taken.as_slice()[..self.count]
    }

    /// Whether the port takes a beat of channel A in a cycle.
    pub fn takes(&self, stalled: bool) -> bool
        ensures { result ≡ spec.sink_takes self.now stalled }
    {
        !stalled && self.passed == self.due
    }

    /// The beat of channel D that is offered in a cycle, if one is.
    pub fn offer(&self, cycle: u32, stalled: bool) -> Option<DBeat>
        ensures { result ≡ spec.sink_offers self.now cycle stalled }
    {
        if stalled || u64::from(cycle) < self.from || self.passed == self.due {
            return None;
        }
        self.replies.get(self.passed).copied()
    }

    // The beat that is offered has passed.
    fn replied(&mut self)
        requires { IsTrue (spec.holds_request self.old) }
        ensures { self.new ≡ spec.after_reply self.old }
    {
        self.passed += 1;
    }

    // Whether a beat may be the next one of a request which a device with these addresses may be asked.
    fn may_take(&self, addresses: &[u64], beat: &ABeat) -> bool
        requires { AreRising addresses.now }
        ensures may { IsTrue result ↔ MayTake addresses.now self.now beat.now }
        ensures bus { IsTrue (is_width self.now.width) }
    {
        self.takes(false) && passes_test(addresses, self.width, self.taken(), beat)
    }

    // A beat more has left of a request, and it isn't the last one.
    fn take(&mut self, beat: ABeat)
        requires { length self.old.taken < 256 }
        ensures { self.new ≡ spec.with_taken self.old (self.old.taken ++ beat ∷ []) }
    {
        self.taken.set(self.count, beat);
        self.count += 1;
    }

    // Whether the beats that have left are all of their request.
    fn has_all(&self, beat: &ABeat) -> bool
        requires { beat.now.size ≤ 8 }
        ensures { result ≡ spec.are_all self.now.width self.now.taken beat.now }
    {
        self.count == beats(beat.op, beat.size, self.width) as usize
    }

    // The device answers the request whose beats have left.
    fn answer(&mut self, device: &mut Box<dyn Device>, cycle: u32, head: &ABeat)
        requires prepared { (meaning device.old).prepared ≡ true }
        requires whole { spec.AreWhole (meaning device.old).held self.old.width self.old.taken head.now }
        ensures answered { spec.sinking (meaning device.new) self.new
            ≡ spec.sink_answered (spec.sinking (meaning device.old) self.old) cycle
            (joined_request self.old.width self.old.taken) }
        ensures addresses { devices.HaveSame (meaning device.new).held (meaning device.old).held }
    {
        let room = &mut self.rooms.as_mut_slice()[place_of(head.op, head.size)];
        room.serve(
            self.width,
            &self.taken.as_slice()[..self.count],
            head,
            device,
        );
        self.due = room.write_beats(self.width, self.replies.as_mut_slice());
        self.from = u64::from(cycle) + 1 + u64::from(self.delay);
        self.passed = 0;
        self.count = 0;
    }
}

/// Answers the requests that leave at a sink port, one after another: a device and what the port has in hand.
///
/// Its fields are public, so that whoever has a boxed device can put a driver together.
#[derive(Drop)]
pub struct SinkDriver {
    /// What answers.
    pub device: Box<dyn Device>,
    pub port: SinkPort,
}

impl SinkDriver {
    /// A driver at whose port nothing has happened, with a device that is prepared, on a bus of `width` bytes
    /// and with a delay in cycles. It takes all of its memory.
    pub fn open(
        alloc: Global,
        width: u32,
        delay: u32,
        device: Box<dyn Device>,
    ) -> Result<SinkDriver, Memory>
        requires { IsTrue (is_width width) }
        ensures { IfOk result (λ driver. spec.Serves
            (spec.sinking (meaning device) (spec.unasked width delay)) []
            (spec.sinking (meaning driver.device) driver.port)) }
    {
        Ok(SinkDriver {
            device,
            port: SinkPort::open(alloc, width, delay)?,
        })
    }

    /// Whether the port takes a beat of channel A in a cycle in which it is stalled on it, or isn't.
    pub fn takes(&self, stalled: bool) -> bool
        ensures now { result ≡ spec.sink_takes self.now.port stalled }
        ensures said { (first : spec.Sinking) (history : List Event)
            → spec.Serves first history (spec.sinking (meaning self.now.device) self.now.port)
            → result ≡ spec.sink_takes (spec.served first history).port stalled }
    {
        self.port.takes(stalled)
    }

    /// The beat of channel D that is offered in a cycle, if one is.
    pub fn offer(&self, cycle: u32, stalled: bool) -> Option<DBeat>
        ensures now { result ≡ spec.sink_offers self.now.port cycle stalled }
        ensures said { (first : spec.Sinking) (history : List Event)
            → spec.Serves first history (spec.sinking (meaning self.now.device) self.now.port)
            → result ≡ spec.sink_offers (spec.served first history).port cycle stalled }
    {
        self.port.offer(cycle, stalled)
    }

    // A beat of a request has left in a cycle.
    fn leave(&mut self, cycle: u32, beat: &ABeat)
        requires { spec.MayLeave (spec.sinking (meaning self.old.device) self.old.port) beat.now }
        ensures now { spec.sinking (meaning self.new.device) self.new.port
            ≡ spec.after_leave (spec.sinking (meaning self.old.device) self.old.port) cycle beat.now }
        ensures addresses { devices.HaveSame (meaning self.new.device).held
            (meaning self.old.device).held }
    {
        self.port.take(*beat);
        if self.port.has_all(beat) {
            self.port.answer(&mut self.device, cycle, beat);
        }
    }

    /// A beat of a request has left in a cycle. With the last one the device answers.
    pub fn left(&mut self, cycle: u32, beat: &ABeat)
        requires { spec.MayLeave (spec.sinking (meaning self.old.device) self.old.port) beat.now }
        ensures now { spec.sinking (meaning self.new.device) self.new.port
            ≡ spec.after_leave (spec.sinking (meaning self.old.device) self.old.port) cycle beat.now }
        ensures said { (first : spec.Sinking) (history : List Event) (event : Event)
            → event.cycle ≡ cycle → event.what ≡ Leave beat.now
            → spec.Serves first history (spec.sinking (meaning self.old.device) self.old.port)
            → spec.Serves first (history ++ event ∷ [])
            (spec.sinking (meaning self.new.device) self.new.port) }
        ensures addresses { devices.HaveSame (meaning self.new.device).held
            (meaning self.old.device).held }
    {
        self.leave(cycle, beat);
    }

    /// A beat leaves in a cycle at a port whose device is prepared at these addresses, if it is the next one
    /// of a request that the device may be asked: whether it is. Nothing changes where it isn't.
    pub fn try_leave(&mut self, cycle: u32, beat: &ABeat, prepared: &Prepared) -> bool
        requires { IsPreparedAt prepared.now.addresses
            (spec.sinking (meaning self.old.device) self.old.port) }
        ensures may { IsTrue result
            ↔ spec.MayLeave (spec.sinking (meaning self.old.device) self.old.port) beat.now }
        ensures now { spec.sinking (meaning self.new.device) self.new.port
            ≡ cond result (spec.after_leave (spec.sinking (meaning self.old.device) self.old.port) cycle
            beat.now)
            (spec.sinking (meaning self.old.device) self.old.port) }
        ensures prepared { IsPreparedAt prepared.now.addresses
            (spec.sinking (meaning self.new.device) self.new.port) }
    {
        let may = self.port.may_take(prepared.addresses.as_slice(), beat);
        if may {
            self.leave(cycle, beat);
        }
        may
    }

    /// The beat that is offered in a cycle has passed.
    pub fn replied(&mut self, cycle: u32)
        requires { IsSome (spec.sink_offers self.old.port cycle false) }
        ensures now { spec.sinking (meaning self.new.device) self.new.port
            ≡ spec.sinking (meaning self.old.device) (spec.after_reply self.old.port) }
        ensures said { (first : spec.Sinking) (history : List Event) (event : Event)
            → IsTrue (spec.is_reply event.what)
            → spec.Serves first history (spec.sinking (meaning self.old.device) self.old.port)
            → spec.Serves first (history ++ event ∷ [])
            (spec.sinking (meaning self.new.device) self.new.port) }
    {
        self.port.replied();
    }
}
