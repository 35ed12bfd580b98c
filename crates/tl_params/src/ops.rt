ghost use Rattle.std.specs.Prelude.{◌≡◌};
ghost use Rattle.tl_params.specs.Operations as spec;

use dip_lists::{Items, Same};
use dip_sets::Sizes;

/// A request of channel A (SiFive TileLink Specification 1.8, chapters 6 and 7).
#[derive(Clone, Copy, Debug, PartialEq, Eq)]
pub enum Op {
    PutFull,
    PutPartial,
    Arithmetic,
    Logical,
    Get,
    Intent,
}

/// A response of channel D (SiFive TileLink Specification 1.8, chapters 6 and 7).
#[derive(Clone, Copy, Debug, PartialEq, Eq)]
pub enum Ack {
    /// To both writes.
    Ack,
    /// To reads and atomics: with data.
    AckData,
    /// To intents.
    HintAck,
}

/// The transfer sizes of each operation, none where a port doesn't have it.
#[derive(Clone, Copy, Debug, PartialEq, Eq)]
pub struct Ops {
    pub get: Sizes,
    pub put_full: Sizes,
    pub put_partial: Sizes,
    pub arithmetic: Sizes,
    pub logical: Sizes,
    pub intent: Sizes,
}

impl Ops {
    /// The sizes of one operation.
    pub fn of(&self, op: Op) -> Sizes
        ensures { result ≡ spec.sizes_of self.now op }
    {
        match op {
            Op::Get => self.get,
            Op::PutFull => self.put_full,
            Op::PutPartial => self.put_partial,
            Op::Arithmetic => self.arithmetic,
            Op::Logical => self.logical,
            Op::Intent => self.intent,
        }
    }

    /// The greatest size of any operation in bytes, 0 where all are none.
    pub fn largest(&self) -> u32
        ensures value { result ≡ spec.largest self.now }
        ensures largest { spec.IsLargest self.now result }
    {
        let puts = self.put_full.max().max(self.put_partial.max());
        let atomics = self.arithmetic.max().max(self.logical.max());
        self.get.max().max(puts).max(atomics).max(self.intent.max())
    }
}

impl Same for Ops {
    fn same(&self, other: &Ops) -> bool {
        *self == *other
    }
}

/// Which requester a crossbar serves first.
#[derive(Clone, Copy, Debug, PartialEq, Eq)]
pub enum Policy {
    /// The one at the lowest input.
    Lowest,
    /// Each in turn.
    Round,
}

/// What is built for a node with a rule.
#[derive(Clone, Copy, Debug, PartialEq, Eq)]
pub enum Template {
    /// Queues on both channels.
    Buffer,
    /// Between buses of different widths.
    Width,
    /// Cuts large transfers into pieces.
    Fragmenter,
    /// Gives many source ids few.
    Shrinker,
    /// Joins all of its inputs to all of its outputs; the others join each input to one output.
    Xbar,
}

impl Template {
    /// Whether all inputs and all outputs belong together, and not each input to one output.
    pub fn is_nexus(&self) -> bool
        ensures { result ≡ spec.is_nexus self.now }
    {
        matches!(*self, Template::Xbar)
    }
}

/// Numbers of nodes or of edges.
pub type Numbers = Items<u32>;

/// The numbers that a design states for a node's rule.
pub type Args = Items<u32>;
