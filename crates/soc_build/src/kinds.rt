ghost use Rattle.std.specs.Prelude.{◌≡◌, None, IfErr, OnOk};
ghost use Rattle.dip_lists.specs.First.{first, first_failing, places};
ghost use Rattle.dip_graph.specs.Faults.{IsFaultOf};
ghost use Rattle.soc_build.specs.Kinds as spec;

use dip_graph::{Design, Fault, NodeEntry, NodeKind};
use dip_rule::{Rules, Stating};
use net_leaves::is_buildable;

// Whether there is no hardware yet for nodes of a kind.
fn kind_is_unbuilt(rules: &Rules, kind: &NodeKind) -> bool
    ensures { result ≡ spec.kind_is_unbuilt (⟦<Rules as Stating>⟧.stated rules.now) kind.now }
{
    let NodeKind::Ruled { kind, .. } = kind else {
        return false;
    };
    match rules.template_of(kind) {
        Some(template) => !is_buildable(template),
        None => false,
    }
}

// The least node for which there is none.
fn unbuilt_node(rules: &Rules, nodes: &[NodeEntry]) -> Option<u64>
    ensures { result ≡ first (places (λ number node. spec.kind_is_unbuilt (⟦<Rules as Stating>⟧.stated
        rules.now) node.kind) 0 nodes.now) }
{
    for (number, node) in nodes.iter().enumerate() {
        if kind_is_unbuilt(rules, &node.kind) {
            return Some(number as u64);
        }
    }
    None
}

/// Check 19: there is hardware for what each node's rule makes of it. `Fault::Check` names the least node for
/// which there is none yet.
pub fn kinds_are_built(design: &Design, rules: &Rules) -> Result<(), Fault>
    ensures passes { OnOk result (first_failing (spec.hardware_checks (⟦<Rules as Stating>⟧.stated
        rules.now) design.now) ≡ None) }
    ensures err { IfErr result (IsFaultOf (first_failing (spec.hardware_checks
        (⟦<Rules as Stating>⟧.stated rules.now) design.now))) }
{
    match unbuilt_node(rules, design.nodes.as_slice()) {
        Some(subject) => Err(Fault::Check {
            number: 19,
            subject,
        }),
        None => Ok(()),
    }
}
