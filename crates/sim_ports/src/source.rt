ghost use Rattle.std.specs.Prelude.{◌≡◌, ◌≤◌, ◌<◌, ◌+◌, ◌++◌, ◌∷◌, [], length, slice_index, slice_set, nat_eq, not, count_by, cond, ◌^◌, true, false, All, List, IsSome, IsTrue, IfOk, None, ℕ};
ghost use Rattle.tl_params.specs.Arguments.{is_width};
ghost use Rattle.tl_edge.specs.declared.beat.Event.{Event};
ghost use Rattle.tl_edge.specs.declared.beat.What.TheVariants.{Return};
ghost use Rattle.sim_ports.specs.Sources as spec;

use crate::room::filled;
use dip_lists::Memory;
use std::alloc::Global;
use std::marker::Model;
use tl_edge::{ABeat, DBeat, Requests, a_beat, ack_of, beats, response_beats};
use tl_params::Numbers;

/// How far a source port has come: requests of which all beats have entered, and beats of the next one.
#[derive(Clone, Copy, Debug, PartialEq, Eq)]
pub struct Sent {
    pub whole: u32,
    pub part: u32,
}

impl Sent {
    // One beat more of a message that has so many.
    fn next(self, beats: u32) -> Sent
        requires whole { self.whole < 10000 }
        requires part { self.part < beats }
        ensures { result ≡ spec.one_beat_more self beats }
    {
        if self.part + 1 == beats {
            Sent {
                whole: self.whole + 1,
                part: 0,
            }
        } else {
            Sent {
                whole: self.whole,
                part: self.part + 1,
            }
        }
    }
}

/// Sends the requests of a source port one after another, each from its cycle on and when its id is free.
#[derive(Drop)]
pub struct SourceDriver {
    width: u32,
    requests: Requests,
    starts: Numbers,
    sent: Sent,
    left: Numbers,
}

impl Model for SourceDriver {
    ghost use Rattle.sim_ports.specs.Sources.{IsSending, Sending};

    ghost Value = { Sending };

    ghost view = { λ d. record {
      width = d.width;
      requests = d.requests;
      starts = d.starts;
      sent = d.sent;
      left = d.left;
    } };

    ghost invariant = { λ d. IsSending (record {
      width = d.width;
      requests = d.requests;
      starts = d.starts;
      sent = d.sent;
      left = d.left;
    }) };
}

// For how many ids beats are to come.
fn busy_count(left: &[u32]) -> u32
    requires { length left.now < 2 ^ 32 }
    ensures { result ≡ count_by (λ n. not (nat_eq n 0)) left.now }
{
    let mut busy = 0;
    for beats in left {
        busy += u32::from(*beats != 0);
    }
    busy
}

// Beats are to come for an id from the first beat of its request on.
fn mark(left: &mut Numbers, part: u32, id: u32, beats: u32)
    requires { id < length left.old }
    ensures { left.new ≡ cond (nat_eq part 0) (slice_set left.old id beats) left.old }
{
    if part == 0 {
        left.set(id as usize, beats);
    }
}

impl SourceDriver {
    /// A driver that has sent nothing: on a bus of `width` bytes, with `ids` ids, and with the first cycle in
    /// which each request may be offered. It takes all of its memory.
    pub fn open(
        alloc: Global,
        width: u32,
        ids: u32,
        requests: Requests,
        starts: Numbers,
    ) -> Result<SourceDriver, Memory>
        requires width { IsTrue (is_width width) }
        requires few { length requests ≤ 10000 }
        requires starts { length starts ≡ length requests }
        requires requests { All (spec.MayBeSent ids) requests }
        ensures { IfOk result (λ driver. spec.Sends
            (record { width = width; ids = ids; requests = requests; starts = starts }) [] driver) }
    {
        Ok(SourceDriver {
            width,
            requests,
            starts,
            sent: Sent { whole: 0, part: 0 },
            left: filled(alloc, 0, ids as usize)?,
        })
    }

    /// Whether an id is busy: beats with it are to come.
    pub fn is_busy(&self, id: u32) -> bool
        ensures now { result ≡ spec.waits_for self.now id }
        ensures said { (script : spec.Script) (history : List Event) → spec.Sends script history self.now
            → id < script.ids → result ≡ spec.is_busy script history id }
    {
        match self.left.get(id as usize) {
            Some(left) => *left != 0,
            None => false,
        }
    }

    // The beat that is offered in a cycle in which the port isn't stalled, if one is.
    fn next_beat(&self, cycle: u32) -> Option<ABeat>
        ensures { result ≡ spec.offers_now self.now cycle }
    {
        let whole = self.sent.whole as usize;
        let request = self.requests.get(whole)?;
        if self.sent.part == 0 {
            let start = self.starts.as_slice()[whole];
            if start > cycle || self.is_busy(request.source) {
                return None;
            }
        }
        Some(a_beat(self.width, request, self.sent.part))
    }

    /// The beat that is offered in a cycle, if one is.
    pub fn offer(&self, cycle: u32, stalled: bool) -> Option<ABeat>
        ensures now { result ≡ cond stalled None (spec.offers_now self.now cycle) }
        ensures said { (script : spec.Script) (history : List Event) → spec.Sends script history self.now
            → result ≡ spec.source_offers script history cycle stalled }
    {
        let beat = self.next_beat(cycle);
        if stalled { None } else { beat }
    }

    /// The beat that is offered in a cycle has entered.
    pub fn entered(&mut self, cycle: u32)
        requires { IsSome (spec.offers_now self.old cycle) }
        ensures { (script : spec.Script) (history : List Event) (event : Event)
            → IsTrue (spec.is_enter event.what) → spec.Sends script history self.old
            → spec.Sends script (history ++ event ∷ []) self.new }
    {
        let Some(request) = self.requests.get(self.sent.whole as usize) else {
            return;
        };
        let due = response_beats(ack_of(request.op), request.size, self.width);
        let count = beats(request.op, request.size, self.width);
        mark(&mut self.left, self.sent.part, request.source, due);
        self.sent = self.sent.next(count);
    }

    /// A beat has returned.
    pub fn returned(&mut self, beat: &DBeat)
        requires { IsTrue (spec.waits_for self.old beat.now.source) }
        ensures { (script : spec.Script) (history : List Event) (event : Event)
            → event.what ≡ Return beat.now → spec.Sends script history self.old
            → spec.Sends script (history ++ event ∷ []) self.new }
    {
        let id = beat.source as usize;
        let left = self.left.as_slice()[id];
        self.left.set(id, left - 1);
    }

    /// A beat returns, if its id is busy: whether it is. Nothing changes where it isn't.
    pub fn try_return(&mut self, beat: &DBeat) -> bool
        ensures may { result ≡ spec.waits_for self.old beat.now.source }
        ensures busy { (script : spec.Script) (history : List Event) → spec.Sends script history self.old
            → beat.now.source < script.ids → result ≡ spec.is_busy script history beat.now.source }
        ensures said { IsTrue result → (script : spec.Script) (history : List Event) (event : Event)
            → event.what ≡ Return beat.now → spec.Sends script history self.old
            → spec.Sends script (history ++ event ∷ []) self.new }
        ensures same { result ≡ false → self.new ≡ self.old }
    {
        let busy = self.is_busy(beat.source);
        if busy {
            self.returned(beat);
        }
        busy
    }

    /// How many requests have begun: their first beat has entered.
    pub fn begun(&self) -> u32
        ensures { (script : spec.Script) (history : List Event) → spec.Sends script history self.now
            → result ≡ spec.begun_at script history }
    {
        if self.sent.part == 0 {
            self.sent.whole
        } else {
            self.sent.whole + 1
        }
    }

    /// How many requests have returned the last beat of their response.
    pub fn finished(&self) -> u32
        ensures { (script : spec.Script) (history : List Event) → spec.Sends script history self.now
            → result ≡ spec.finished_at script history }
    {
        self.begun()
            .saturating_sub(busy_count(self.left.as_slice()))
    }
}
