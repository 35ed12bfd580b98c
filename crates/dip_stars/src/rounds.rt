ghost use Rattle.std.specs.Prelude.{◌≡◌, ◌+ℤ◌, ◌-ℤ◌, pos, length, IfOk};
ghost use Rattle.dip_graph.specs.Kinds.{kind_at};
ghost use Rattle.dip_stars.specs.Rounds as spec;

use dip_graph::{BindEntry, NodeEntry, NodeKind, Star, kind_at, ruled_kind_at};
use dip_lists::{Items, Memory, Same};
use dip_rule::{Rules, Stating};
use std::alloc::Global;

/// A bind, and how many edges it makes where that is known.
#[derive(Clone, Copy, Debug, PartialEq, Eq)]
pub struct Counted {
    pub bind: BindEntry,
    pub number: Option<i64>,
}

/// Binds in order.
pub type Counts = Items<Counted>;

impl Same for Counted {
    fn same(&self, other: &Counted) -> bool {
        *self == *other
    }
}

/// The node that decides how many edges a bind makes.
pub fn decider(bind: &BindEntry) -> Option<u32>
    ensures { result ≡ spec.decider bind.now }
{
    match bind.star {
        Star::One => None,
        Star::FromStar => Some(bind.from),
        Star::ToStar => Some(bind.to),
    }
}

// A bind before any round: one edge where no node decides, or a nexus.
fn first_count(rules: &Rules, nodes: &[NodeEntry], bind: &BindEntry) -> Counted
    ensures { result ≡ spec.first_count (⟦<Rules as Stating>⟧.stated rules.now) nodes.now bind.now }
{
    let number = match decider(bind) {
        None => Some(1),
        Some(node) => {
            if rules.is_nexus_kind(ruled_kind_at(nodes, node)) {
                Some(1)
            } else {
                None
            }
        }
    };
    Counted {
        bind: *bind,
        number,
    }
}

// All binds before any round.
fn first_counts(
    alloc: Global,
    rules: &Rules,
    nodes: &[NodeEntry],
    binds: &[BindEntry],
) -> Result<Counts, Memory>
    ensures { IfOk result (λ counts. counts ≡ spec.first_counts (⟦<Rules as Stating>⟧.stated rules.now)
        nodes.now binds.now) }
{
    let mut counts = Items::new(alloc);
    for bind in binds {
        counts.push(first_count(rules, nodes, bind))?;
    }
    Ok(counts)
}

fn waits_at(node: u32, count: &Counted) -> bool
    ensures { result ≡ spec.waits_at node count.now }
{
    count.number.is_none() && (count.bind.to == node || count.bind.from == node)
}

fn unknown_at(node: u32, counts: &[Counted]) -> usize
    ensures { result ≡ spec.unknown_at node counts.now }
{
    counts.iter().filter(|count| waits_at(node, count)).count()
}

/// How many edges a bind makes, 0 where that isn't known.
pub fn known_number(count: &Counted) -> i64
    ensures { result ≡ spec.known_number count.now }
{
    count.number.unwrap_or(0)
}

// No sum of a design comes near 2^63, since each node decides one bind at most; one that did would be taken
// as want of memory.
fn plus(a: i64, b: i64) -> Result<i64, Memory>
    ensures { IfOk result (λ sum. sum ≡ a +ℤ b) }
{
    match a.checked_add(b) {
        Some(sum) => Ok(sum),
        None => Err(Memory),
    }
}

/// A count as a signed number.
pub fn signed(count: usize) -> Result<i64, Memory>
    ensures { IfOk result (λ number. number ≡ pos count) }
{
    match i64::try_from(count) {
        Ok(number) => Ok(number),
        Err(_) => Err(Memory),
    }
}

// The difference; one that doesn't fit is taken as want of memory.
fn minus(a: i64, b: i64) -> Result<i64, Memory>
    ensures { IfOk result (λ rest. rest ≡ a -ℤ b) }
{
    match a.checked_sub(b) {
        Some(rest) => Ok(rest),
        None => Err(Memory),
    }
}

/// How many edges go to a node by the binds that are known.
pub fn sum_to(node: u32, counts: &[Counted]) -> Result<i64, Memory>
    ensures { IfOk result (λ sum. sum ≡ spec.sum_to node counts.now) }
{
    let mut sum = 0;
    for count in counts {
        if count.bind.to == node {
            sum = plus(sum, known_number(count))?;
        }
    }
    Ok(sum)
}

/// How many edges come from a node by the binds that are known.
pub fn sum_from(node: u32, counts: &[Counted]) -> Result<i64, Memory>
    ensures { IfOk result (λ sum. sum ≡ spec.sum_from node counts.now) }
{
    let mut sum = 0;
    for count in counts {
        if count.bind.from == node {
            sum = plus(sum, known_number(count))?;
        }
    }
    Ok(sum)
}

// What the binds from a node have to sum up to: the ports of a source, and what comes to another node.
fn due_from(nodes: &[NodeEntry], node: u32, counts: &[Counted]) -> Result<i64, Memory>
    ensures { IfOk result (λ due. due ≡ spec.due_from node (kind_at nodes.now node) counts.now) }
{
    match kind_at(nodes, node) {
        Some(NodeKind::Source { ports, .. }) => Ok(*ports as i64),
        Some(NodeKind::Ruled { .. }) => sum_to(node, counts),
        _ => Ok(0),
    }
}

// What the binds to a node have to sum up to: the ports of a sink, and what comes from another node.
fn due_to(nodes: &[NodeEntry], node: u32, counts: &[Counted]) -> Result<i64, Memory>
    ensures { IfOk result (λ due. due ≡ spec.due_to node (kind_at nodes.now node) counts.now) }
{
    match kind_at(nodes, node) {
        Some(NodeKind::Sink { ports, .. }) => signed(ports.len()),
        Some(NodeKind::Ruled { .. }) => sum_from(node, counts),
        _ => Ok(0),
    }
}

// What is left for a star at its deciding node, whose other binds are known.
fn left_for(nodes: &[NodeEntry], counts: &[Counted], bind: &BindEntry) -> Result<i64, Memory>
    ensures { IfOk result (λ left. left ≡ spec.left_for nodes.now counts.now bind.now.star bind.now) }
{
    match bind.star {
        Star::One => Ok(1),
        Star::FromStar => {
            let due = due_from(nodes, bind.from, counts)?;
            minus(due, sum_from(bind.from, counts)?)
        }
        Star::ToStar => {
            let due = due_to(nodes, bind.to, counts)?;
            minus(due, sum_to(bind.to, counts)?)
        }
    }
}

// Whether a star is the only bind of its deciding node that isn't known.
fn is_last(counts: &[Counted], node: Option<u32>) -> bool
    ensures { result ≡ spec.is_last counts.now node }
{
    match node {
        None => true,
        Some(node) => unknown_at(node, counts) == 1,
    }
}

// What is left for a star, where it is decided in this round.
fn decided(nodes: &[NodeEntry], counts: &[Counted], bind: &BindEntry) -> Result<Option<i64>, Memory>
    ensures { IfOk result (λ number. number ≡ spec.decided nodes.now counts.now bind.now) }
{
    if is_last(counts, decider(bind)) {
        Ok(Some(left_for(nodes, counts, bind)?))
    } else {
        Ok(None)
    }
}

// A bind after a round: what is known stays.
fn next_count(nodes: &[NodeEntry], counts: &[Counted], count: &Counted) -> Result<Counted, Memory>
    ensures { IfOk result (λ next. next ≡ spec.next_count nodes.now counts.now count.now) }
{
    let number = match count.number {
        Some(number) => Some(number),
        None => decided(nodes, counts, &count.bind)?,
    };
    Ok(Counted {
        bind: count.bind,
        number,
    })
}

// All binds after a round, each from the counts of the round before.
fn next_counts(alloc: Global, nodes: &[NodeEntry], counts: &[Counted]) -> Result<Counts, Memory>
    ensures { IfOk result (λ next. next ≡ spec.next_counts nodes.now counts.now) }
{
    let mut next = Items::new(alloc);
    for count in counts {
        next.push(next_count(nodes, counts, count)?)?;
    }
    Ok(next)
}

// So many rounds; the rounds after one that changes nothing change nothing either.
#[tactic(auto, using(crate::proofs::Turns::one_more, crate::proofs::Turns::still))]
fn after_rounds(
    alloc: Global,
    nodes: &[NodeEntry],
    rounds: usize,
    first: Counts,
) -> Result<Counts, Memory>
    ensures { IfOk result (λ counts. counts ≡ spec.after_rounds nodes.now rounds first) }
{
    let mut counts = first;
    for _round in 0..rounds {
        let next = next_counts(alloc, nodes, counts.as_slice())?;
        if next.same(&counts) {
            return Ok(counts);
        }
        counts = next;
    }
    Ok(counts)
}

/// The binds with their numbers, after as many rounds as there are binds.
#[tactic(auto, using(crate::proofs::Turns::counts_long))]
pub fn counts_of(
    alloc: Global,
    rules: &Rules,
    nodes: &[NodeEntry],
    binds: &[BindEntry],
) -> Result<Counts, Memory>
    ensures value { IfOk result (λ counts. counts ≡ spec.counts_of (⟦<Rules as Stating>⟧.stated
        rules.now) nodes.now binds.now) }
    ensures long { IfOk result (λ counts. length counts ≡ length binds.now) }
{
    let first = first_counts(alloc, rules, nodes, binds)?;
    after_rounds(alloc, nodes, binds.len(), first)
}
