ghost use Rattle.std.specs.Prelude.{◌≡◌, ◌≤◌, ◌<◌, ◌+◌, ℕ, length, map, take, OnOk, OnErr};
ghost use Rattle.dip_io.specs.Outside.{Rose, Writes, WritesPart};
ghost use Rattle.net_cells.specs.declared.netlist.Netlist.{Netlist};
ghost use Rattle.soc_report.specs.TraceLines.{trace_lines};
ghost use Rattle.sim_ports.specs.Sinks.{sinking};
ghost use Rattle.sim_events.specs.Setups.{Setup, run_events};
ghost use Rattle.sim_run.specs.Cycles.{IsGood};
ghost use Rattle.sim_drive.specs.Runs.{IsRunnable, IsRunOf};
ghost use Rattle.soc_trace.specs.Printing.{TriesToPrint};
ghost use Rattle.soc_trace.specs.Traces.{AllGood, WritesTrace, trace_text};

use crate::waiting::{print_end, print_events};
use dip_io::{Failed, Out};
use sim_drive::Run;
use sim_ports::Device;

// Runs one cycle, and puts the lines of what happens in it behind what waits. It answers how many bytes wait
// then.
fn print_cycle<O: Out>(
    out: &mut O,
    waiting: &mut [u8],
    used: usize,
    run: &mut Run,
) -> Result<usize, Failed>
    requires left { run.old.ran < run.old.cycles }
    requires ready { IsRunnable run.old
        (map (λ driver. sinking
        ((⟦<dyn Device as Device>⟧ driver.device.vtable).meaning driver.device.value) driver.port)
        run.old.sinks.items) }
    requires used { used ≤ length waiting.old }
    requires large { 160 ≤ length waiting.old }
    ensures ready { IsRunnable run.new
        (map (λ driver. sinking
        ((⟦<dyn Device as Device>⟧ driver.device.vtable).meaning driver.device.value) driver.port)
        run.new.sinks.items) }
    ensures ran { run.new.ran ≡ run.old.ran + 1 }
    ensures cycles { run.new.cycles ≡ run.old.cycles }
    ensures is { (setup : Setup) (netlist : Netlist) (cycle : ℕ) → IsRunOf setup netlist cycle run.old
        (map (λ driver. sinking
        ((⟦<dyn Device as Device>⟧ driver.device.vtable).meaning driver.device.value) driver.port)
        run.old.sinks.items)
        → IsGood setup netlist cycle → IsRunOf setup netlist (cycle + 1) run.new
        (map (λ driver. sinking
        ((⟦<dyn Device as Device>⟧ driver.device.vtable).meaning driver.device.value) driver.port)
        run.new.sinks.items) }
    ensures events { (setup : Setup) (netlist : Netlist) (cycle : ℕ) → IsRunOf setup netlist cycle run.old
        (map (λ driver. sinking
        ((⟦<dyn Device as Device>⟧ driver.device.vtable).meaning driver.device.value) driver.port)
        run.old.sinks.items)
        → IsGood setup netlist cycle → run.new.shown.items ≡ run_events setup cycle }
    ensures printed { TriesToPrint (trace_lines run.new.shown.items) (take used waiting.old) (O.seen out.old)
        result waiting.new (O.seen out.new) }
    ensures room { length waiting.new ≡ length waiting.old }
{
    run.cycle();
    print_events(out, waiting, used, run.events())
}

/// Runs all cycles of a run, and prints its trace: what happens in each cycle, and the last line. It goes out
/// in pieces as large as `waiting` is. It takes no memory.
///
/// `Failed` comes only where the count of faults rose. A first part of the trace, not all, was then written.
pub fn print_run<O: Out>(out: &mut O, waiting: &mut [u8], mut run: Run) -> Result<(), Failed>
    requires fresh { run.ran ≡ 0 }
    requires ready { IsRunnable run
        (map (λ driver. sinking
        ((⟦<dyn Device as Device>⟧ driver.device.vtable).meaning driver.device.value) driver.port)
        run.sinks.items) }
    requires large { 160 ≤ length waiting.old }
    ensures trace { OnOk result (WritesTrace run.cycles (O.seen out.old) (O.seen out.new)) }
    ensures ok { (setup : Setup) (netlist : Netlist) → IsRunOf setup netlist 0 run
        (map (λ driver. sinking
        ((⟦<dyn Device as Device>⟧ driver.device.vtable).meaning driver.device.value) driver.port)
        run.sinks.items)
        → AllGood setup netlist run.cycles
        → OnOk result (Writes (trace_text setup run.cycles) (O.seen out.old) (O.seen out.new)) }
    ensures refused { (setup : Setup) (netlist : Netlist) → IsRunOf setup netlist 0 run
        (map (λ driver. sinking
        ((⟦<dyn Device as Device>⟧ driver.device.vtable).meaning driver.device.value) driver.port)
        run.sinks.items)
        → AllGood setup netlist run.cycles
        → OnErr result (WritesPart (trace_text setup run.cycles) (O.seen out.old) (O.seen out.new)) }
    ensures later { (O.seen out.old).faults ≤ (O.seen out.new).faults }
    ensures cause { OnErr result (Rose (O.seen out.old).faults (O.seen out.new).faults) }
{
    let mut used = 0;
    for cycle in 0..run.cycles {
        used = print_cycle(out, waiting, used, &mut run)?;
    }
    let totals = run.finish();
    print_end(out, waiting, used, &totals)
}
