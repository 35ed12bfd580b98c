ghost use Rattle.std.specs.Prelude.{◌≡◌, ◌≤◌, ℕ, List, All, length, map, vec_len, IfOk, IfErr};
ghost use Rattle.dip_io.specs.Outside.{OthersSame};
ghost use Rattle.tl_edge.specs.SoundPlans.{IsSound};
ghost use Rattle.dip_graph.specs.Faults.{IsFaultOf};
ghost use Rattle.dip_graph.specs.WellStated.{IsWellStated};
ghost use Rattle.dip_plan.specs.Standing.{StandsTo};
ghost use Rattle.dip_rule.specs.Stated.{StatedRule};
ghost use Rattle.net_cells.specs.Loops.{HasNoLoop};
ghost use Rattle.net_cells.specs.Rules.{IsWellFormed};
ghost use Rattle.net_cells.specs.declared.netlist.Netlist.{Netlist};
ghost use Rattle.net_ports.specs.Implementing.{Implements};
ghost use Rattle.ver_text.specs.Spelling.{layout};
ghost use Rattle.sim_ports.specs.Sinks.{sinking};
ghost use Rattle.sim_events.specs.Setups.{Setup};
ghost use Rattle.soc_stimulus.specs.Stimuli.{IsLegalAsked};
ghost use Rattle.sim_drive.specs.Runs.{IsRunnable, IsRunOf};
ghost use Rattle.sim_drive.specs.Setting.{setup_of};
ghost use Rattle.soc_top.specs.Answers.{SimAnswered};
ghost use Rattle.soc_top.specs.Netlists.{build_failure};
ghost use Rattle.soc_top.specs.Simulating.{IsSimRun, LoadRuns, OpenRuns, SimRuns, StimulusRuns};
ghost use Rattle.soc_top.specs.Stimuli.{IsDesignOf};
ghost use Rattle.soc_top.specs.Words.{sim_files};
ghost use Rattle.soc_top.specs.Worlds.{world};

use crate::map::MOST_LOADED;
use crate::printing::finish;
use crate::words::SimFiles;
use dip_graph::{Design, Fault};
use dip_io::{Failed, Files, LoadFault, Out};
use dip_lists::Memory;
use dip_plan::Accepted;
use dip_rule::{Rules, Stating};
use net_cells::Netlist;
use sim_drive::{Run, RunFault};
use sim_ports::Device;
use soc_build::build_accepted;
use soc_design::read_design;
use soc_report::Status;
use soc_stimulus::{MOST_STIMULUS_BYTES, StimFault, Stimulus, read_stimulus};
use soc_trace::{WAITING, print_run};
use std::alloc::Global;
use tl_edge::Plan;
use ver_text::print;

// The most bytes of a stimulus file that are loaded: one more than it may have.
const MOST_STIMULUS_LOADED: usize = MOST_STIMULUS_BYTES + 1;

// A design that passes all checks, with what it has and its netlist.
#[derive(Drop)]
struct LoadedDesign {
    design: Design,
    accepted: Accepted,
    netlist: Netlist,
}

// The design of a file, or the first check that it fails.
fn design_of(alloc: Global, bytes: &[u8], rules: &Rules) -> Result<LoadedDesign, Fault>
    ensures ok { IfOk result (λ loaded. IsDesignOf (⟦<Rules as Stating>⟧.stated rules.now) bytes.now
        loaded.design loaded.accepted loaded.netlist) }
    ensures well { IfOk result (λ loaded. IsWellStated loaded.design) }
    ensures err { IfErr result (IsFaultOf (build_failure (⟦<Rules as Stating>⟧.stated rules.now)
        bytes.now)) }
{
    let design = read_design(alloc, bytes)?;
    let built = build_accepted(alloc, &design, rules)?;
    Ok(LoadedDesign {
        design,
        accepted: built.accepted,
        netlist: built.netlist,
    })
}

// Room for a piece of a trace.
fn room(alloc: Global) -> Result<Vec<u8>, Memory>
    ensures { IfOk result (λ room. 160 ≤ vec_len room) }
{
    Ok(vec![in alloc; 0; WAITING]?)
}

// Saves a text, and then runs all cycles of a run and prints its trace.
fn save_and_run<F: Files, O: Out>(
    text: &[u8],
    waiting: &mut [u8],
    run: Run,
    name: &str,
    files: &mut F,
    out: &mut O,
) -> Status
    requires fresh { run.ran ≡ 0 }
    requires ready { IsRunnable run
        (map (λ driver. sinking
        ((⟦<dyn Device as Device>⟧ driver.device.vtable).meaning driver.device.value) driver.port)
        run.sinks.items) }
    requires large { 160 ≤ length waiting.old }
    ensures others { OthersSame name.now (F.seen files.old) (F.seen files.new) }
    ensures ran { (setup : Setup) (netlist : Netlist) → IsRunOf setup netlist 0 run
        (map (λ driver. sinking
        ((⟦<dyn Device as Device>⟧ driver.device.vtable).meaning driver.device.value) driver.port)
        run.sinks.items)
        → IsSimRun setup netlist run.cycles text.now name.now
        (world (F.seen files.old) (O.seen out.old))
        (world (F.seen files.new) (O.seen out.new)) result }
{
    let Ok(()) = files.save(name, text) else {
        return Status::WriteFailed;
    };
    match print_run(out, waiting, run) {
        Ok(()) => Status::Done,
        Err(Failed) => Status::WriteFailed,
    }
}

// Opens a run of a netlist, saves the text of the netlist, and runs. All memory is taken before the save.
fn run_netlist<F: Files, O: Out>(
    alloc: Global,
    plan: &Plan,
    netlist: Netlist,
    stimulus: Stimulus,
    name: &str,
    files: &mut F,
    out: &mut O,
    devices: Vec<Box<dyn Device>>,
) -> Status
    requires sound { IsSound plan.now }
    requires well { IsWellFormed netlist }
    requires no_loop { HasNoLoop netlist }
    requires implements { Implements plan.now netlist }
    requires few { length stimulus.requests ≤ 10000 }
    requires legal { All (IsLegalAsked plan.now) stimulus.requests }
    requires settings { length stimulus.devices ≡ length plan.now.sinks }
    ensures others { OthersSame name.now (F.seen files.old) (F.seen files.new) }
    ensures runs { OpenRuns (setup_of plan.now stimulus (map
        (λ device. ((⟦<dyn Device as Device>⟧ device.vtable).meaning device.value).says) devices.items))
        netlist stimulus.cycles (length plan.now.sinks) (vec_len devices) (layout netlist) name.now
        (world (F.seen files.old) (O.seen out.old))
        (world (F.seen files.new) (O.seen out.new)) result }
{
    let Ok(text) = print(alloc, &netlist) else {
        return Status::Memory;
    };
    let Ok(mut waiting) = room(alloc) else {
        return Status::Memory;
    };
    match Run::open(alloc, plan, netlist, stimulus, devices) {
        Ok(run) => save_and_run(
            text.as_slice(),
            waiting.as_mut_slice(),
            run,
            name,
            files,
            out,
        ),
        Err(RunFault::NoDevice { needed, given }) => finish(
            Status::NoDevice { needed, given },
            out,
        ),
        Err(RunFault::Memory) => Status::Memory,
    }
}

// Runs on the bytes of a stimulus file.
fn run_on_stimulus<F: Files, O: Out>(
    alloc: Global,
    loaded: LoadedDesign,
    bytes: &[u8],
    name: &str,
    files: &mut F,
    out: &mut O,
    devices: Vec<Box<dyn Device>>,
) -> Status
    requires well { IsWellStated loaded.design }
    requires sound { IsSound loaded.accepted.plan }
    requires stands { StandsTo loaded.design loaded.accepted.edges loaded.accepted.solution
        loaded.accepted.plan }
    requires formed { IsWellFormed loaded.netlist }
    requires no_loop { HasNoLoop loaded.netlist }
    requires implements { Implements loaded.accepted.plan loaded.netlist }
    ensures others { OthersSame name.now (F.seen files.old) (F.seen files.new) }
    ensures runs { (rules : List StatedRule) (design_file : List ℕ) → IsDesignOf rules design_file
        loaded.design loaded.accepted loaded.netlist → StimulusRuns rules (map
        (λ device. ((⟦<dyn Device as Device>⟧ device.vtable).meaning device.value).says) devices.items)
        design_file bytes.now name.now (world (F.seen files.old) (O.seen out.old))
        (world (F.seen files.new) (O.seen out.new))
        result }
{
    let LoadedDesign {
        design,
        accepted,
        netlist,
    } = loaded;
    match read_stimulus(alloc, bytes, &design, &accepted) {
        Ok(stimulus) => run_netlist(
            alloc,
            &accepted.plan,
            netlist,
            stimulus,
            name,
            files,
            out,
            devices,
        ),
        Err(StimFault::Line { rule, entry }) => finish(Status::BadStimulus { rule, entry }, out),
        Err(StimFault::Memory) => Status::Memory,
    }
}

// Loads the stimulus, and runs on it.
fn load_stimulus<F: Files, O: Out>(
    alloc: Global,
    loaded: LoadedDesign,
    names: &SimFiles<'_>,
    files: &mut F,
    out: &mut O,
    devices: Vec<Box<dyn Device>>,
) -> Status
    requires well { IsWellStated loaded.design }
    requires sound { IsSound loaded.accepted.plan }
    requires stands { StandsTo loaded.design loaded.accepted.edges loaded.accepted.solution
        loaded.accepted.plan }
    requires formed { IsWellFormed loaded.netlist }
    requires no_loop { HasNoLoop loaded.netlist }
    requires implements { Implements loaded.accepted.plan loaded.netlist }
    ensures others { OthersSame names.now.text.now (F.seen files.old) (F.seen files.new) }
    ensures runs { (rules : List StatedRule) (design_file : List ℕ) → IsDesignOf rules design_file
        loaded.design loaded.accepted loaded.netlist → LoadRuns rules (map
        (λ device. ((⟦<dyn Device as Device>⟧ device.vtable).meaning device.value).says) devices.items)
        design_file names.now.stimulus.now names.now.text.now
        (world (F.seen files.old) (O.seen out.old))
        (world (F.seen files.new) (O.seen out.new)) result }
{
    let mut bytes = Vec::new(alloc);
    match files.load(names.stimulus, MOST_STIMULUS_LOADED, &mut bytes) {
        Ok(()) => run_on_stimulus(
            alloc,
            loaded,
            bytes.as_slice(),
            names.text,
            files,
            out,
            devices,
        ),
        Err(LoadFault::Failed) => finish(Status::ReadFailed, out),
        Err(LoadFault::Memory) => Status::Memory,
    }
}

// Runs on the bytes of a design file.
fn run_on_design<F: Files, O: Out>(
    alloc: Global,
    bytes: &[u8],
    names: &SimFiles<'_>,
    files: &mut F,
    out: &mut O,
    rules: &Rules,
    devices: Vec<Box<dyn Device>>,
) -> Status
    ensures others { OthersSame names.now.text.now (F.seen files.old) (F.seen files.new) }
    ensures runs { SimRuns (⟦<Rules as Stating>⟧.stated rules.now) (map
        (λ device. ((⟦<dyn Device as Device>⟧ device.vtable).meaning device.value).says) devices.items)
        bytes.now names.now.stimulus.now names.now.text.now
        (world (F.seen files.old) (O.seen out.old))
        (world (F.seen files.new) (O.seen out.new)) result }
{
    match design_of(alloc, bytes, rules) {
        Ok(loaded) => load_stimulus(alloc, loaded, names, files, out, devices),
        Err(Fault::Check { number, subject }) => finish(
            Status::Refused {
                check: number,
                subject,
            },
            out,
        ),
        Err(Fault::Memory) => Status::Memory,
    }
}

/// Runs the stimulus of this name on the netlist of the design file of this name, with these devices: saves
/// the text of the netlist, and prints the trace; or prints the line of what stands in the way.
///
/// Device k is that of sink port k of the design's plan; the others are dropped.
pub fn answer_sim<F: Files, O: Out>(
    alloc: Global,
    names: &SimFiles<'_>,
    files: &mut F,
    out: &mut O,
    rules: &Rules,
    devices: Vec<Box<dyn Device>>,
) -> Status
    ensures others { OthersSame names.now.text.now (F.seen files.old) (F.seen files.new) }
    ensures answered { SimAnswered (⟦<Rules as Stating>⟧.stated rules.now) (map
        (λ device. ((⟦<dyn Device as Device>⟧ device.vtable).meaning device.value).says) devices.items)
        (sim_files names.now.design.now names.now.stimulus.now names.now.text.now)
        (world (F.seen files.old) (O.seen out.old))
        (world (F.seen files.new) (O.seen out.new)) result }
{
    let mut bytes = Vec::new(alloc);
    match files.load(names.design, MOST_LOADED, &mut bytes) {
        Ok(()) => run_on_design(alloc, bytes.as_slice(), names, files, out, rules, devices),
        Err(LoadFault::Failed) => finish(Status::ReadFailed, out),
        Err(LoadFault::Memory) => Status::Memory,
    }
}
