ghost use Rattle.dip_io.specs.Outside.{SameContent};
ghost use Rattle.ver_text.specs.Reading.{Gives};
ghost use Rattle.soc_top.specs.Texts.{answer_to, line_said, said_by};
ghost use Rattle.soc_top.specs.Printing.{PrintedIfMemory};
ghost use Rattle.soc_top.specs.Worlds.{world};
ghost use Rattle.soc_top.specs.Answers.{ReadAnswered};

use crate::printing::{finish, print_netlist};
use dip_io::{Files, LoadFault, Out};
use net_cells::Netlist;
use soc_report::Status;
use std::alloc::Global;
use ver_text::{TextFault, read};

/// The most bytes that a netlist text may have: 256 MiB.
const MOST_TEXT: usize = 268_435_456;

/// The most bytes of a text that are loaded: one more than it may have.
const MOST_LOADED: usize = MOST_TEXT + 1;

// The netlist of a text, or the place at which it is refused.
fn netlist_of(alloc: Global, bytes: &[u8]) -> Result<Netlist, TextFault>
    ensures said { Gives (said_by bytes.now) result }
{
    if bytes.len() > MOST_TEXT {
        return Err(TextFault::NotText { place: MOST_TEXT });
    }
    read(alloc, bytes)
}

// Runs on the bytes of a text.
fn run_on<O: Out>(alloc: Global, bytes: &[u8], out: &mut O) -> Status
    ensures { PrintedIfMemory (line_said (said_by bytes.now)) (answer_to (said_by bytes.now)) result
        (O.seen out.old) (O.seen out.new) }
{
    match netlist_of(alloc, bytes) {
        Ok(netlist) => print_netlist(&netlist, out),
        Err(TextFault::NotText { place }) => finish(
            Status::BadText {
                place: place as u64,
            },
            out,
        ),
        Err(TextFault::Memory) => Status::Memory,
    }
}

/// Prints the line of the netlist that the text of this name spells, or the place at which it is refused.
pub fn answer_read<F: Files, O: Out>(
    alloc: Global,
    name: &str,
    files: &mut F,
    out: &mut O,
) -> Status
    ensures files { SameContent (F.seen files.old) (F.seen files.new) }
    ensures answered { ReadAnswered name.now (world (F.seen files.old) (O.seen out.old))
        (world (F.seen files.new) (O.seen out.new)) result }
{
    let mut bytes = Vec::new(alloc);
    match files.load(name, MOST_LOADED, &mut bytes) {
        Ok(()) => run_on(alloc, bytes.as_slice(), out),
        Err(LoadFault::Failed) => finish(Status::ReadFailed, out),
        Err(LoadFault::Memory) => Status::Memory,
    }
}
