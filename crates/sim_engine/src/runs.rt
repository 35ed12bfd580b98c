ghost use Rattle.std.specs.Prelude.{◌≡◌, ◌+◌, ◌-◌, ◌^◌, ◌/◌, ◌%◌, ◌<◌, ◌≤◌, IfOk, length};
ghost use Rattle.sim_engine.specs.Columns.{AreRuns, CanRun, HaveKind, kind_in, step_in};
ghost use Rattle.sim_engine.specs.Steps.{IsAmong, evaluated, kind_value, mask, step_value};

use crate::columns::Columns;
use crate::steps::{Kind, Step};
use dip_lists::Memory;
use std::alloc::Global;

/// Rows with one operator, up to a row.
#[derive(Clone, Copy, Debug, PartialEq, Eq)]
pub struct Run {
    /// The operator.
    pub kind: Kind,
    /// The row behind the last one.
    pub until: usize,
}

// Where the rows with the operator of a row end.
fn run_end(kinds: &[Kind], from: usize, kind: Kind) -> usize
    requires from { from < length kinds.now }
    requires kind { kind_in kinds.now from ≡ kind }
    ensures after { from < result }
    ensures within { result ≤ length kinds.now }
    ensures kinds { HaveKind kinds.now from result kind }
{
    for at in from + 1..kinds.len() {
        if kinds[at] != kind {
            return at;
        }
    }
    kinds.len()
}

/// The runs of some operators, in their order, each as long as it can be.
pub fn runs_of(alloc: Global, kinds: &[Kind]) -> Result<Vec<Run>, Memory>
    ensures { IfOk result (λ runs. AreRuns kinds.now 0 runs.items) }
{
    let mut runs = Vec::new(alloc);
    let mut from = 0;
    while from < kinds.len() {
        let kind = kinds[from];
        let until = run_end(kinds, from, kind);
        runs.push(Run { kind, until })?;
        from = until;
    }
    Ok(runs)
}

// The greatest number of 64 bits, less so many.
fn mask(short: u8) -> u64
    ensures { result ≡ mask short }
{
    u64::MAX.wrapping_shr(u32::from(short))
}

// The value of a constant, of the halves that its step keeps.
fn constant(step: Step) -> u64
    ensures { result ≡ kind_value Kind.Const step 0 0 0 }
{
    u64::from(step.y) * 4_294_967_296 + u64::from(step.x)
}

// The value of a step of this kind that isn't a constant, by the values of its operands.
fn kind_value(kind: Kind, step: Step, x: u64, y: u64, z: u64) -> u64
    ensures { result ≡ kind_value kind step x y z }
{
    let shift = u32::from(step.shift);
    match kind {
        Kind::Const => constant(step),
        // no operand has a bit that the mask lacks, so the difference inverts each bit
        Kind::Not => mask(step.short).saturating_sub(x),
        Kind::And => x & y,
        Kind::Or => x | y,
        Kind::Xor => x ^ y,
        Kind::Add => x.wrapping_add(y) & mask(step.short),
        Kind::Sub => x.wrapping_sub(y) & mask(step.short),
        Kind::Eq => u64::from(x == y),
        Kind::Less => u64::from(x < y),
        Kind::Mux => { if x == 1 { y } else { z } }
        Kind::Concat => x.wrapping_shl(shift) | y,
        Kind::Select => x.wrapping_shr(shift) & mask(step.short),
    }
}

// The value of a step of this kind, from all values.
fn step_value(kind: Kind, step: Step, values: &[u64]) -> u64
    requires kind { step.kind ≡ kind }
    requires among { IsAmong (length values.now) step }
    ensures { result ≡ step_value step values.now }
{
    if kind == Kind::Const {
        return constant(step);
    }
    let (x, y) = (values[step.x as usize], values[step.y as usize]);
    kind_value(kind, step, x, y, values[step.z as usize])
}

// Evaluates the rows from one up to another, which have one operator.
fn evaluate_as(
    values: &mut [u64],
    first: usize,
    kind: Kind,
    columns: &Columns,
    from: usize,
    until: usize,
)
    requires can { CanRun columns.now first (length values.old) }
    requires ordered { from ≤ until }
    requires within { until ≤ length columns.now.kind.items }
    requires kinds { HaveKind columns.now.kind.items from until kind }
    ensures { values.new ≡ evaluated (step_in columns.now) first from (until - from) values.old }
{
    let (xs, ys, zs) = (
        columns.x.as_slice(),
        columns.y.as_slice(),
        columns.z.as_slice(),
    );
    let (shifts, shorts) = (columns.shift.as_slice(), columns.short.as_slice());
    for row in from..until {
        let step = Step {
            x: xs[row],
            y: ys[row],
            z: zs[row],
            shift: shifts[row],
            short: shorts[row],
            kind,
        };
        values[first + row] = step_value(kind, step, values);
    }
}

// Evaluates the rows of a run, from one on. Each arm is a loop of its own, compiled for its operator, so that
// no row branches on it.
fn evaluate_run(values: &mut [u64], first: usize, run: Run, columns: &Columns, from: usize)
    requires can { CanRun columns.now first (length values.old) }
    requires ordered { from ≤ run.until }
    requires within { run.until ≤ length columns.now.kind.items }
    requires kinds { HaveKind columns.now.kind.items from run.until run.kind }
    ensures { values.new ≡ evaluated (step_in columns.now) first from (run.until - from) values.old }
{
    let until = run.until;
    match run.kind {
        Kind::Const => evaluate_as(values, first, Kind::Const, columns, from, until),
        Kind::Not => evaluate_as(values, first, Kind::Not, columns, from, until),
        Kind::And => evaluate_as(values, first, Kind::And, columns, from, until),
        Kind::Or => evaluate_as(values, first, Kind::Or, columns, from, until),
        Kind::Xor => evaluate_as(values, first, Kind::Xor, columns, from, until),
        Kind::Add => evaluate_as(values, first, Kind::Add, columns, from, until),
        Kind::Sub => evaluate_as(values, first, Kind::Sub, columns, from, until),
        Kind::Eq => evaluate_as(values, first, Kind::Eq, columns, from, until),
        Kind::Less => evaluate_as(values, first, Kind::Less, columns, from, until),
        Kind::Mux => evaluate_as(values, first, Kind::Mux, columns, from, until),
        Kind::Concat => evaluate_as(values, first, Kind::Concat, columns, from, until),
        Kind::Select => evaluate_as(values, first, Kind::Select, columns, from, until),
    }
}

// Evaluates all rows, run by run.
fn evaluate_all(values: &mut [u64], first: usize, columns: &Columns, runs: &[Run])
    requires can { CanRun columns.now first (length values.old) }
    requires runs { AreRuns columns.now.kind.items 0 runs.now }
    ensures { values.new ≡ evaluated (step_in columns.now) first 0 (length columns.now.kind.items)
        values.old }
{
    let mut from = 0;
    for run in runs {
        evaluate_run(values, first, *run, columns, from);
        from = run.until;
    }
}

/// Evaluates all rows, whose runs these are; the value of row 0 is put at the first place.
pub fn evaluate(values: &mut Vec<u64>, first: usize, columns: &Columns, runs: &[Run])
    requires can { CanRun columns.now first (length values.old.items) }
    requires runs { AreRuns columns.now.kind.items 0 runs.now }
    ensures { values.new.items ≡ evaluated (step_in columns.now) first 0 (length columns.now.kind.items)
        values.old.items }
{
    evaluate_all(values, first, columns, runs);
}
