ghost use Rattle.std.specs.Prelude.{◌≡◌, Some, None, IfOk, IfErr};
ghost use Rattle.dip_io.specs.Outside.{OthersSame};
ghost use Rattle.dip_graph.specs.Faults.{IsFaultOf};
ghost use Rattle.net_cells.specs.Rules.{IsWellFormed};
ghost use Rattle.ver_text.specs.Spelling.{layout};
ghost use Rattle.soc_top.specs.Answers.{VerilogAnswered};
ghost use Rattle.soc_top.specs.Building.{BuildRuns, IsSaved, SavesNetlist};
ghost use Rattle.soc_top.specs.Netlists.{build_failure, IsNetlistOfFile};
ghost use Rattle.soc_top.specs.Words.{build_files};
ghost use Rattle.soc_top.specs.Worlds.{world};

use crate::map::MOST_LOADED;
use crate::printing::{finish, print_netlist};
use crate::words::BuildFiles;
use dip_graph::Fault;
use dip_io::{Failed, Files, LoadFault, Out};
use dip_lists::Memory;
use dip_rule::{Rules, Stating};
use net_cells::Netlist;
use soc_build::build_design;
use soc_design::read_design;
use soc_report::Status;
use std::alloc::Global;
use ver_text::print;

// The netlist of a design file, or the first check that it fails.
fn netlist_of(alloc: Global, bytes: &[u8], rules: &Rules) -> Result<Netlist, Fault>
    ensures passes { IfOk result (λ _. build_failure (⟦<Rules as Stating>⟧.stated rules.now) bytes.now ≡
        None) }
    ensures made { IfOk result (λ netlist. IsNetlistOfFile (⟦<Rules as Stating>⟧.stated rules.now)
        bytes.now netlist) }
    ensures err { IfErr result (IsFaultOf (build_failure (⟦<Rules as Stating>⟧.stated rules.now)
        bytes.now)) }
{
    let design = read_design(alloc, bytes)?;
    build_design(alloc, &design, rules)
}

// Saves the text of a netlist, and prints the netlist's line.
fn save_text<F: Files, O: Out>(
    netlist: &Netlist,
    text: &[u8],
    name: &str,
    files: &mut F,
    out: &mut O,
) -> Status
    ensures others { OthersSame name.now (F.seen files.old) (F.seen files.new) }
    ensures saved { IsSaved netlist.now text.now name.now (world (F.seen files.old) (O.seen out.old))
        (world (F.seen files.new) (O.seen out.new)) result }
{
    match files.save(name, text) {
        Ok(()) => print_netlist(netlist, out),
        Err(Failed) => Status::WriteFailed,
    }
}

// Saves a netlist as a text, and prints its line.
fn save_netlist<F: Files, O: Out>(
    alloc: Global,
    netlist: &Netlist,
    name: &str,
    files: &mut F,
    out: &mut O,
) -> Status
    requires { IsWellFormed netlist.now }
    ensures others { OthersSame name.now (F.seen files.old) (F.seen files.new) }
    ensures saved { SavesNetlist netlist.now (layout netlist.now) name.now (world (F.seen files.old)
        (O.seen out.old)) (world (F.seen files.new) (O.seen out.new)) result }
{
    match print(alloc, netlist) {
        Ok(text) => save_text(netlist, text.as_slice(), name, files, out),
        Err(Memory) => Status::Memory,
    }
}

// Runs on the bytes of a design file.
fn run_on<F: Files, O: Out>(
    alloc: Global,
    bytes: &[u8],
    name: &str,
    files: &mut F,
    out: &mut O,
    rules: &Rules,
) -> Status
    ensures others { OthersSame name.now (F.seen files.old) (F.seen files.new) }
    ensures runs { BuildRuns (⟦<Rules as Stating>⟧.stated rules.now) bytes.now name.now (world
        (F.seen files.old) (O.seen out.old)) (world (F.seen files.new) (O.seen out.new)) result }
{
    match netlist_of(alloc, bytes, rules) {
        Ok(netlist) => save_netlist(alloc, &netlist, name, files, out),
        Err(Fault::Check { number, subject }) => finish(
            Status::Refused {
                check: number,
                subject,
            },
            out,
        ),
        Err(Fault::Memory) => Status::Memory,
    }
}

/// Saves the text of the netlist of the design file of this name, and prints the netlist's line, or the first
/// check that the design fails.
pub fn answer_verilog<F: Files, O: Out>(
    alloc: Global,
    names: &BuildFiles<'_>,
    files: &mut F,
    out: &mut O,
    rules: &Rules,
) -> Status
    ensures others { OthersSame names.now.text.now (F.seen files.old) (F.seen files.new) }
    ensures answered { VerilogAnswered (⟦<Rules as Stating>⟧.stated rules.now) (build_files
        names.now.design.now names.now.text.now) (world (F.seen files.old) (O.seen out.old))
        (world (F.seen files.new) (O.seen out.new)) result }
{
    let mut bytes = Vec::new(alloc);
    match files.load(names.design, MOST_LOADED, &mut bytes) {
        Ok(()) => run_on(alloc, bytes.as_slice(), names.text, files, out, rules),
        Err(LoadFault::Failed) => finish(Status::ReadFailed, out),
        Err(LoadFault::Memory) => Status::Memory,
    }
}
