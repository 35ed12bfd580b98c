ghost use Rattle.std.specs.Prelude.{◌≢◌};
ghost use Rattle.soc_report.specs.Lines.{line_of};
ghost use Rattle.soc_report.specs.NetlistLine.{netlist_line};
ghost use Rattle.soc_report.specs.declared.status.Status.TheVariants.{Done};
ghost use Rattle.soc_top.specs.Printing.{Printed};

use dip_io::{Failed, Out, put_all};
use net_cells::Netlist;
use soc_report::{Status, fault_text, netlist_line};

/// Writes a text, and answers as wanted, or that a write failed.
pub fn print_text<O: Out>(text: &[u8], wanted: Status, out: &mut O) -> Status
    requires { wanted ≢ Status.WriteFailed }
    ensures { Printed text.now wanted result (O.seen out.old) (O.seen out.new) }
{
    match put_all(out, text) {
        Ok(()) => wanted,
        Err(Failed) => Status::WriteFailed,
    }
}

/// Writes the line of an answer.
pub fn finish<O: Out>(status: Status, out: &mut O) -> Status
    requires { status ≢ Status.WriteFailed }
    ensures { Printed (line_of status) status result (O.seen out.old) (O.seen out.new) }
{
    let mut line = [0u8; 256];
    let count = fault_text(&status, &mut line);
    print_text(&line[..count], status, out)
}

/// Prints the line of a netlist.
pub fn print_netlist<O: Out>(netlist: &Netlist, out: &mut O) -> Status
    ensures { Printed (netlist_line netlist.now) Done result (O.seen out.old) (O.seen out.new) }
{
    let mut line = [0u8; 256];
    let count = netlist_line(netlist, &mut line);
    print_text(&line[..count], Status::Done, out)
}
