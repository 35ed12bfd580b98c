ghost use Rattle.std.specs.Prelude.{◌≡◌, ◌++◌, ◌∷◌, [], Some, length, map, IfOk, OnOk};
ghost use Rattle.dip_plan.specs.Building.{leaves_by};
ghost use Rattle.dip_plan.specs.DesignPlans as spec;

use dip_graph::{NodeEntry, NodeKind, Numbers};
use dip_lists::{Items, Memory};
use dip_rule::{Rules, Stating};
use std::alloc::Global;
use tl_edge::{Leaf, Leaves};
use tl_params::{Args, Template};

// One number alone.
fn alone(alloc: Global, number: u32) -> Result<Numbers, Memory>
    ensures { IfOk result (λ numbers. numbers ≡ number ∷ []) }
{
    let mut numbers = Items::new(alloc);
    numbers.push(number)?;
    Ok(numbers)
}

// The leaf of one port of an adapter.
fn add_between(
    alloc: Global,
    leaves: &mut Leaves,
    template: Template,
    args: &Args,
    above: u32,
    below: u32,
) -> Result<(), Memory>
    ensures { OnOk result (leaves.new ≡ leaves.old ++ spec.leaf_of template args.now (above ∷ [])
        (below ∷ []) ∷ []) }
{
    leaves.push(Leaf {
        template,
        ins: alone(alloc, above)?,
        outs: alone(alloc, below)?,
        args: args.copy(alloc)?,
    })?;
    Ok(())
}

// The leaves of an adapter's ports.
fn add_each_between(
    alloc: Global,
    leaves: &mut Leaves,
    template: Template,
    args: &Args,
    ins: &[u32],
    outs: &[u32],
) -> Result<(), Memory>
    ensures { OnOk result (leaves.new ≡ leaves.old ++ spec.leaves_between template args.now ins.now
        outs.now) }
{
    for place in 0..ins.len().min(outs.len()) {
        add_between(alloc, leaves, template, args, ins[place], outs[place])?;
    }
    Ok(())
}

// What is built for a node.
fn add_built(
    alloc: Global,
    leaves: &mut Leaves,
    template: Template,
    args: &Args,
    ins: &Numbers,
    outs: &Numbers,
) -> Result<(), Memory>
    ensures { OnOk result (leaves.new ≡ leaves.old ++ spec.built_leaves (Some template) args.now ins.now
        outs.now) }
{
    if template.is_nexus() {
        leaves.push(Leaf {
            template,
            ins: ins.copy(alloc)?,
            outs: outs.copy(alloc)?,
            args: args.copy(alloc)?,
        })?;
        return Ok(());
    }
    add_each_between(
        alloc,
        leaves,
        template,
        args,
        ins.as_slice(),
        outs.as_slice(),
    )
}

fn add_of_kind(
    alloc: Global,
    leaves: &mut Leaves,
    rules: &Rules,
    kind: &NodeKind,
    ins: &Numbers,
    outs: &Numbers,
) -> Result<(), Memory>
    ensures { OnOk result (leaves.new ≡ leaves.old ++ spec.kind_leaves (⟦<Rules as Stating>⟧.stated
        rules.now) kind.now ins.now outs.now) }
{
    let NodeKind::Ruled { kind, args } = kind else {
        return Ok(());
    };
    let Some(template) = rules.template_of(kind) else {
        return Ok(());
    };
    add_built(alloc, leaves, template, args, ins, outs)
}

/// The leaves of all nodes, which have these edges.
pub fn leaves_by(
    alloc: Global,
    rules: &Rules,
    nodes: &[NodeEntry],
    ins: &[Numbers],
    outs: &[Numbers],
) -> Result<Leaves, Memory>
    requires ins { length ins.now ≡ length nodes.now }
    requires outs { length outs.now ≡ length nodes.now }
    ensures { IfOk result (λ leaves. leaves ≡ leaves_by (⟦<Rules as Stating>⟧.stated rules.now) nodes.now
        ins.now outs.now) }
{
    let mut leaves = Items::new(alloc);
    for (node, entry) in nodes.iter().enumerate() {
        add_of_kind(
            alloc,
            &mut leaves,
            rules,
            &entry.kind,
            &ins[node],
            &outs[node],
        )?;
    }
    Ok(leaves)
}
