ghost use Rattle.std.specs.Prelude.{◌≡◌, ◌≤◌, ◌<◌, ◌+◌, ◌^◌, List, map, length, Some, IsTrue, IfOk, slice_get};
ghost use Rattle.std.specs.Option.{option_copied};
ghost use Rattle.dip_sets.specs.declared.ids.IdRange.{IdRange as TheRange};
ghost use Rattle.tl_params.specs.declared.ops.Template.TheVariants.{Xbar};
ghost use Rattle.tl_params.specs.Arguments.{is_width};
ghost use Rattle.flow_core.specs.Built as built;
ghost use Rattle.flow_core.specs.Crossing as spec;

use crate::locks::Gates;
use crate::{Gate, Lock};
use dip_lists::{Items, Memory};
use dip_sets::IdRanges;
use std::alloc::Global;
use std::marker::Model;
use tl_edge::{ABeat, DBeat, Leaf, Plan, beats, response_beats};
use tl_params::{Template, owner_among};

/// What of a leaf stays the same: the ranges of ids of its inputs, and the bytes of its first one's bus.
#[derive(Drop)]
pub struct Fixed {
    pub ranges: IdRanges,
    pub width: u32,
}

/// A beat on its way through a leaf.
#[derive(Clone, Copy)]
pub struct Passing<T> {
    /// The edge from which it comes.
    pub from: u32,
    /// The edge to which it goes.
    pub to: u32,
    /// As what it goes on.
    pub beat: T,
    /// The gate through which it goes, as it is afterwards.
    pub gate: Option<Gate>,
}

/// The input, the output and the new id that a move names.
#[derive(Clone, Copy)]
pub(crate) struct Way {
    pub input: u32,
    pub output: u32,
    pub id: u32,
}

// The lock of one that has so many beats to pass, after one of them.
fn lock_after(who: u32, beats: u32) -> Option<Lock>
    ensures { result ≡ spec.lock_after who beats }
{
    if 1 < beats {
        Some(Lock {
            by: who,
            left: beats - 1,
        })
    } else {
        None
    }
}

// Whose turn is after one of so many.
fn turn_after(who: u32, count: usize) -> usize
    ensures { result ≡ spec.turn_after who count }
{
    let next = who as usize + 1;
    if next < count { next } else { 0 }
}

// A gate after one of so many has passed a beat of a message of `beats` beats; `None` exactly where another
// holds it.
fn passed_by(gate: Gate, who: u32, count: usize, beats: u32) -> Option<Gate>
    ensures { result ≡ spec.passed_by gate.lock gate.next who count beats }
{
    match gate.lock {
        None => Some(Gate {
            lock: lock_after(who, beats),
            next: turn_after(who, count),
        }),
        Some(lock) => {
            if lock.by == who {
                Some(Gate {
                    lock: lock_after(who, lock.left),
                    next: gate.next,
                })
            } else {
                None
            }
        }
    }
}

// Whether an output of a leaf goes to the owner of an address.
#[tactic(auto, using(crate::proofs::Passes::goes))]
fn goes_to(plan: &Plan, leaf: &Leaf, output: u32, address: u64) -> bool
    ensures { result ≡ spec.goes_to (built.bar_of plan.now leaf.now) output address }
{
    let Some(edge) = leaf.outs.get(output as usize).copied() else {
        return false;
    };
    match plan.edges.get(edge as usize) {
        None => false,
        Some(on) => owner_among(on.slaves.as_slice(), address).is_some(),
    }
}

// What a crossbar makes of a beat of a request, and the gate of its output afterwards.
fn bar_down(
    plan: &Plan,
    leaf: &Leaf,
    fixed: &Fixed,
    gates: &Gates,
    way: Way,
    beat: ABeat,
) -> Option<(ABeat, Option<Gate>)>
    requires fixed { fixed.now ≡ built.fixed_of plan.now leaf.now }
    requires size { beat.size ≤ 8 }
    requires width { IsTrue (is_width fixed.now.width) }
    requires room { (range : TheRange) → slice_get fixed.now.ranges way.input ≡ Some range
        → beat.source + range.start < 2 ^ 32 }
    ensures { result ≡ built.bar_down (built.bar_of plan.now leaf.now) gates.now way.input way.output beat }
{
    if !goes_to(plan, leaf, way.output, beat.address) {
        return None;
    }
    let range = fixed.ranges.get(way.input as usize).copied()?;
    let gate = gates.outs.get(way.output as usize).copied()?;
    let count = beats(beat.op, beat.size, fixed.width);
    let gate = passed_by(gate, way.input, fixed.ranges.len(), count)?;
    let source = beat.source + range.start;
    Some((ABeat { source, ..beat }, Some(gate)))
}

// What a crossbar makes of a beat of a response, and the gate of its input afterwards.
fn bar_up(
    plan: &Plan,
    leaf: &Leaf,
    fixed: &Fixed,
    gates: &Gates,
    way: Way,
    beat: DBeat,
) -> Option<(DBeat, Option<Gate>)>
    requires fixed { fixed.now ≡ built.fixed_of plan.now leaf.now }
    requires size { beat.size ≤ 8 }
    requires width { IsTrue (is_width fixed.now.width) }
    ensures { result ≡ built.bar_up (built.bar_of plan.now leaf.now) gates.now way.input way.output beat }
{
    let _ = plan;
    let range = fixed.ranges.get(way.input as usize).copied()?;
    if !range.contains(beat.source) {
        return None;
    }
    let gate = gates.ins.get(way.input as usize).copied()?;
    let count = response_beats(beat.op, beat.size, fixed.width);
    let gate = passed_by(gate, way.output, leaf.outs.len(), count)?;
    let source = beat.source - range.start;
    Some((DBeat { source, ..beat }, Some(gate)))
}

/// What a leaf makes of the head of an input, and the gate through which it goes, if there is one.
pub(crate) fn leaf_down(
    plan: &Plan,
    leaf: &Leaf,
    fixed: &Fixed,
    gates: &Gates,
    way: Way,
    beat: ABeat,
) -> Option<(ABeat, Option<Gate>)>
    requires fixed { fixed.now ≡ built.fixed_of plan.now leaf.now }
    requires size { beat.size ≤ 8 }
    requires width { leaf.now.template ≡ Xbar → IsTrue (is_width fixed.now.width) }
    requires room { (range : TheRange) → leaf.now.template ≡ Xbar
        → slice_get fixed.now.ranges way.input ≡ Some range → beat.source + range.start < 2 ^ 32 }
    ensures { result ≡ built.leaf_down leaf.now.template (built.bar_of plan.now leaf.now) gates.now
        way.id way.input way.output beat }
{
    match leaf.template {
        Template::Xbar => {
            if way.id != 0 {
                return None;
            }
            bar_down(plan, leaf, fixed, gates, way, beat)
        }
        _ => {
            if way.id != 0 || way.input != 0 || way.output != 0 {
                return None;
            }
            Some((beat, None))
        }
    }
}

/// What a leaf makes of the head of an output, and the gate through which it goes, if there is one.
pub(crate) fn leaf_up(
    plan: &Plan,
    leaf: &Leaf,
    fixed: &Fixed,
    gates: &Gates,
    way: Way,
    beat: DBeat,
) -> Option<(DBeat, Option<Gate>)>
    requires fixed { fixed.now ≡ built.fixed_of plan.now leaf.now }
    requires size { beat.size ≤ 8 }
    requires width { leaf.now.template ≡ Xbar → IsTrue (is_width fixed.now.width) }
    ensures { result ≡ built.leaf_up leaf.now.template (built.bar_of plan.now leaf.now) gates.now
        way.input way.output beat }
{
    match leaf.template {
        Template::Xbar => bar_up(plan, leaf, fixed, gates, way, beat),
        _ => {
            if way.input != 0 || way.output != 0 {
                return None;
            }
            Some((beat, None))
        }
    }
}

/// The gates of all leaves.
#[derive(Drop)]
pub(crate) struct AllGates {
    all: Vec<Gates>,
}

impl Model for AllGates {
    ghost use Rattle.std.specs.Prelude.{List};
    ghost use Rattle.flow_core.specs.Crossing.{Gates};

    ghost Value = { List Gates };

    ghost view = { λ gates. gates.all.items };
}

impl AllGates {
    /// Open gates for each leaf of a plan.
    pub fn open(alloc: Global, plan: &Plan) -> Result<AllGates, Memory>
        ensures { IfOk result (λ gates. gates ≡ map built.open_gates plan.now.leaves) }
    {
        let mut all = Vec::new(alloc);
        for leaf in plan.leaves.as_slice() {
            all.push(Gates::open(alloc, leaf)?)?;
        }
        Ok(AllGates { all })
    }

    /// The gates of a leaf.
    pub fn of(&self, leaf: u32) -> Option<&Gates>
        ensures { option_copied result ≡ slice_get self.now leaf }
    {
        self.all.get(leaf as usize)
    }

    /// An output of a leaf has let something pass.
    pub fn pass_out(&mut self, leaf: u32, output: u32, gate: Option<Gate>)
        ensures { self.new ≡ built.passed_out self.old leaf output gate }
    {
        if let Some(gate) = gate {
            if (leaf as usize) < self.all.len() {
                let own = &mut self.all[leaf as usize];
                own.set_out(output, gate);
            }
        }
    }

    /// An input of a leaf has let something pass.
    pub fn pass_in(&mut self, leaf: u32, input: u32, gate: Option<Gate>)
        ensures { self.new ≡ built.passed_in self.old leaf input gate }
    {
        if let Some(gate) = gate {
            if (leaf as usize) < self.all.len() {
                let own = &mut self.all[leaf as usize];
                own.set_in(input, gate);
            }
        }
    }
}
