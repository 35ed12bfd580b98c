ghost use Rattle.std.specs.Prelude.{map};
ghost use Rattle.soc_top.specs.Words.{saved_named, words_of};
ghost use Rattle.soc_top.specs.Worlds.{world, KeepsOthers};
ghost use Rattle.soc_top.specs.Answers.{Answered, Completed};

use crate::map::answer_map;
use crate::printing::finish;
use crate::read::answer_read;
use crate::sim::answer_sim;
use crate::verilog::answer_verilog;
use crate::words::{file_of, files_of, three_of};
use dip_io::{Files, Out};
use dip_rule::{Rules, Stating};
use sim_ports::Device;
use soc_report::Status;
use std::alloc::Global;

// What `soc` does; its clause `completed` follows from the clauses that stand here.
fn answer<F: Files, O: Out>(
    alloc: Global,
    words: &[String],
    files: &mut F,
    out: &mut O,
    rules: &Rules,
    devices: Vec<Box<dyn Device>>,
) -> Status
    ensures files { KeepsOthers (saved_named (words_of words.now)) (F.seen files.old) (F.seen files.new) }
    ensures answered { Answered (⟦<Rules as Stating>⟧.stated rules.now) (map
        (λ device. ((⟦<dyn Device as Device>⟧ device.vtable).meaning device.value).says) devices.items)
        (words_of words.now) (world (F.seen files.old) (O.seen out.old))
        (world (F.seen files.new) (O.seen out.new)) result }
{
    if let Some(name) = file_of("map", words) {
        return answer_map(alloc, name, files, out, rules);
    }
    if let Some(name) = file_of("read", words) {
        return answer_read(alloc, name, files, out);
    }
    if let Some(names) = files_of("verilog", words) {
        return answer_verilog(alloc, &names, files, out, rules);
    }
    if let Some(names) = three_of("sim", words) {
        return answer_sim(alloc, &names, files, out, rules, devices);
    }
    finish(Status::Usage, out)
}

/// Does what the words ask: `map <design>` prints the map of a design file, or the first check that it
/// fails; `verilog <design> <text>` saves the text of the netlist of a design file and prints the netlist's
/// line, or the first check that the design fails; `sim <design> <stimulus> <text>` does the same, runs the
/// stimulus on that netlist, and prints the trace, or the first rule that the stimulus fails, or that there
/// are too few devices; `read <text>` prints the line of the netlist that a text spells, or the place at
/// which it is refused.
///
/// `words` doesn't hold the program's name, and `rules` are those of the kinds of nodes. Device k is that
/// of sink port k of a design's plan. No file changes but the text of `verilog` and `sim`, and that one
/// only where all before passed.
pub fn soc<F: Files, O: Out>(
    alloc: Global,
    words: &[String],
    files: &mut F,
    out: &mut O,
    rules: &Rules,
    devices: Vec<Box<dyn Device>>,
) -> Status
    ensures files { KeepsOthers (saved_named (words_of words.now)) (F.seen files.old) (F.seen files.new) }
    ensures answered { Answered (⟦<Rules as Stating>⟧.stated rules.now) (map
        (λ device. ((⟦<dyn Device as Device>⟧ device.vtable).meaning device.value).says) devices.items)
        (words_of words.now) (world (F.seen files.old) (O.seen out.old))
        (world (F.seen files.new) (O.seen out.new)) result }
    ensures completed { Completed (⟦<Rules as Stating>⟧.stated rules.now) (map
        (λ device. ((⟦<dyn Device as Device>⟧ device.vtable).meaning device.value).says) devices.items)
        (words_of words.now) (world (F.seen files.old) (O.seen out.old))
        (world (F.seen files.new) (O.seen out.new)) result }
{
    answer(alloc, words, files, out, rules, devices)
}
