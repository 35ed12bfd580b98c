ghost use Rattle.std.specs.Prelude.{◌≡◌, map, IfErr, IfOk};
ghost use Rattle.tl_rules.specs.Standard.{standard};
ghost use Rattle.soc_top.specs.Words.{saved_named, words_of};
ghost use Rattle.soc_top.specs.Worlds.{world, KeepsOthers};
ghost use Rattle.soc_top.specs.Answers.{Answered, Completed};

use crate::top::soc;
use dip_io::{Files, Out};
use dip_lists::Memory;
use sim_ports::Device;
use soc_report::Status;
use std::alloc::Global;
use tl_rules::boxed_standard_rules;

/// Does what `soc` does, by the rules of the standard kinds. The error is want of memory for these rules:
/// nothing was loaded and nothing printed.
pub fn soc_by_standard_rules<F: Files, O: Out>(
    alloc: Global,
    words: &[String],
    files: &mut F,
    out: &mut O,
    devices: Vec<Box<dyn Device>>,
) -> Result<Status, Memory>
    ensures files { KeepsOthers (saved_named (words_of words.now)) (F.seen files.old) (F.seen files.new) }
    ensures answered { IfOk result (λ status. Answered standard (map
        (λ device. ((⟦<dyn Device as Device>⟧ device.vtable).meaning device.value).says) devices.items)
        (words_of words.now) (world (F.seen files.old) (O.seen out.old))
        (world (F.seen files.new) (O.seen out.new)) status) }
    ensures completed { IfOk result (λ status. Completed standard (map
        (λ device. ((⟦<dyn Device as Device>⟧ device.vtable).meaning device.value).says) devices.items)
        (words_of words.now) (world (F.seen files.old) (O.seen out.old))
        (world (F.seen files.new) (O.seen out.new)) status) }
    ensures nothing { IfErr result (λ _. O.seen out.new ≡ O.seen out.old) }
    ensures unasked { IfErr result (λ _. F.seen files.new ≡ F.seen files.old) }
{
    let rules = boxed_standard_rules!(alloc);
    Ok(soc(alloc, words, files, out, &rules, devices))
}
