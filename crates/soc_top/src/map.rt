ghost use Rattle.std.specs.Prelude.{◌≡◌, None, IfOk, IfErr, All};
ghost use Rattle.dip_lists.specs.First.{first_failing};
ghost use Rattle.dip_io.specs.Outside.{SameContent};
ghost use Rattle.tl_params.specs.Apart.{HasDisjointSets};
ghost use Rattle.dip_graph.specs.Faults.{IsFaultOf};
ghost use Rattle.dip_graph.specs.WellStated.{IsWellStated};
ghost use Rattle.dip_negotiate.specs.Negotiation.{IsOnlySolution};
ghost use Rattle.dip_checks.specs.Checks.{design_checks};
ghost use Rattle.dip_plan.specs.DesignPlans.{accepted_of};
ghost use Rattle.soc_report.specs.MapText.{map_text};
ghost use Rattle.soc_report.specs.declared.status.Status.TheVariants.{Done};
ghost use Rattle.soc_top.specs.Designs.{answer_of, called_for, first_failure, map_of, HasSoundPlan, IsMapOf};
ghost use Rattle.soc_top.specs.Printing.{PrintedIfMemory};
ghost use Rattle.soc_top.specs.Worlds.{world};
ghost use Rattle.soc_top.specs.Answers.{MapAnswered};

use crate::printing::{finish, print_text};
use dip_graph::{Design, Fault};
use dip_io::{Files, LoadFault, Out};
use dip_lists::Bytes;
use dip_plan::check;
use dip_rule::{Rules, Stating};
use soc_design::{MOST_BYTES, read_design};
use soc_report::{Status, map_text};
use std::alloc::Global;

/// The most bytes of a design file that are loaded: one more than a design may have.
pub const MOST_LOADED: usize = MOST_BYTES + 1;

// The map of a design, or the first check that it fails.
fn map_of_design(alloc: Global, design: &Design, rules: &Rules) -> Result<Bytes, Fault>
    requires { IsWellStated design.now }
    ensures passes { IfOk result (λ _. first_failing (design_checks (⟦<Rules as Stating>⟧.stated
        rules.now) design.now) ≡ None) }
    ensures map { IfOk result (λ text. text ≡ map_text design.now (accepted_of
        (⟦<Rules as Stating>⟧.stated rules.now) design.now)) }
    ensures err { IfErr result (IsFaultOf (first_failing (design_checks (⟦<Rules as Stating>⟧.stated
        rules.now) design.now))) }
    ensures only { IfOk result (λ _. IsOnlySolution (⟦<Rules as Stating>⟧.stated rules.now) design.now
        (accepted_of (⟦<Rules as Stating>⟧.stated rules.now) design.now).edges
        (accepted_of (⟦<Rules as Stating>⟧.stated rules.now) design.now).solution) }
    ensures apart { IfOk result (λ _. All HasDisjointSets (accepted_of (⟦<Rules as Stating>⟧.stated
        rules.now) design.now).solution.up) }
    ensures planned { IfOk result (λ _. HasSoundPlan design.now (accepted_of
        (⟦<Rules as Stating>⟧.stated rules.now) design.now)) }
{
    let accepted = check(alloc, design, rules)?;
    let text = map_text(alloc, design, &accepted)?;
    Ok(text)
}

// The map of a design file, or the first check that it fails.
fn map_of(alloc: Global, bytes: &[u8], rules: &Rules) -> Result<Bytes, Fault>
    ensures passes { IfOk result (λ _. first_failure (⟦<Rules as Stating>⟧.stated rules.now) bytes.now ≡
        None) }
    ensures map { IfOk result (λ text. text ≡ map_of (⟦<Rules as Stating>⟧.stated rules.now) bytes.now) }
    ensures err { IfErr result (IsFaultOf (first_failure (⟦<Rules as Stating>⟧.stated rules.now)
        bytes.now)) }
    ensures mapped { IfOk result (λ text. IsMapOf (⟦<Rules as Stating>⟧.stated rules.now) bytes.now
        text) }
{
    let design = read_design(alloc, bytes)?;
    map_of_design(alloc, &design, rules)
}

// Runs on the bytes of a design file.
fn run_on<O: Out>(alloc: Global, bytes: &[u8], rules: &Rules, out: &mut O) -> Status
    ensures runs { PrintedIfMemory (called_for (⟦<Rules as Stating>⟧.stated rules.now) bytes.now)
        (answer_of (first_failure (⟦<Rules as Stating>⟧.stated rules.now) bytes.now)) result
        (O.seen out.old) (O.seen out.new) }
    ensures mapped { result ≡ Status.Done → IsMapOf (⟦<Rules as Stating>⟧.stated rules.now) bytes.now
        (map_of (⟦<Rules as Stating>⟧.stated rules.now) bytes.now) }
{
    match map_of(alloc, bytes, rules) {
        Ok(text) => print_text(text.as_slice(), Status::Done, out),
        Err(Fault::Check { number, subject }) => finish(
            Status::Refused {
                check: number,
                subject,
            },
            out,
        ),
        Err(Fault::Memory) => Status::Memory,
    }
}

/// Prints the map of the design file of this name, or the first check that it fails.
pub fn answer_map<F: Files, O: Out>(
    alloc: Global,
    name: &str,
    files: &mut F,
    out: &mut O,
    rules: &Rules,
) -> Status
    ensures files { SameContent (F.seen files.old) (F.seen files.new) }
    ensures answered { MapAnswered (⟦<Rules as Stating>⟧.stated rules.now) name.now
        (world (F.seen files.old) (O.seen out.old)) (world (F.seen files.new) (O.seen out.new)) result }
{
    let mut bytes = Vec::new(alloc);
    match files.load(name, MOST_LOADED, &mut bytes) {
        Ok(()) => run_on(alloc, bytes.as_slice(), rules, out),
        Err(LoadFault::Failed) => finish(Status::ReadFailed, out),
        Err(LoadFault::Memory) => Status::Memory,
    }
}
