//! The chosen moves of cycles of two networks, one under each policy: an edge, a crossbar of two inputs and
//! an output, and one of three inputs and two outputs. Each line of the input says which network goes on and
//! what its ports offer and hold. The program prints the chosen moves, each beat at a port by its id and
//! data, compares them with those found by trying every move, and makes them from the last to the first.
#![tactic(auto)]

ghost use Rattle.std.specs.Prelude.{◌≡◌};
ghost use Rattle.flow_choice.specs.Numbered.{IsNumbered};

mod made;
mod offered;
mod searched;

use dip_lists::{Items, Memory};
use flow_choice::choose;
use flow_core::{Move, Moves, Network};
use std::alloc::Global;
use std::fmt::Write;
use std::io;
use tl_params::Policy;

// The id and the data of the beat that a move carries past a port.
fn beat_of(network: &Network, step: &Move) -> Option<(u32, u64)> {
    match *step {
        Move::Enter { beat, .. } => Some((beat.source, beat.payload)),
        Move::Reply { beat, .. } => Some((beat.source, beat.payload)),
        Move::Leave { port } => match network.leaving(port) {
            None => None,
            Some((beat, _)) => Some((beat.source, beat.payload)),
        },
        Move::Return { port } => match network.returning(port) {
            None => None,
            Some((beat, _)) => Some((beat.source, beat.payload)),
        },
        _ => None,
    }
}

// Writes what a move is.
fn show(text: &mut String, step: &Move) -> Result<(), Memory> {
    Ok(match *step {
        Move::Enter { port, .. } => write!(text, " enter {port}")?,
        Move::Leave { port } => write!(text, " leave {port}")?,
        Move::Reply { port, .. } => write!(text, " reply {port}")?,
        Move::Return { port } => write!(text, " return {port}")?,
        Move::AbsorbA { leaf } | Move::AbsorbD { leaf } => write!(text, " absorb {leaf}")?,
        Move::ForwardA {
            leaf,
            input,
            output,
            ..
        } => write!(text, " down {leaf} {input} {output}")?,
        Move::ForwardD {
            leaf,
            input,
            output,
        } => write!(text, " up {leaf} {input} {output}")?,
    })
}

// Writes the chosen moves.
fn show_all(network: &Network, steps: &[Move], text: &mut String) -> Result<(), Memory> {
    for step in steps {
        show(text, step)?;
        if let Some((id, payload)) = beat_of(network, step) {
            write!(text, " {id} {payload:x}")?;
        }
    }
    Ok(())
}

// Makes a move where it may be made, and says whether it is.
#[tactic(auto, using(crate::proofs::Kept::same_plan))]
fn make(network: &mut Network, step: &Move) -> bool
    ensures { network.new.plan ≡ network.old.plan }
{
    let may = network.enabled(step);
    if may {
        network.apply(step);
    }
    may
}

// Makes moves from the last to the first, and says whether each could be made.
fn make_all(network: &mut Network, steps: &[Move]) -> bool
    ensures { network.new.plan ≡ network.old.plan }
{
    let mut all = true;
    for step in steps.iter().rev() {
        all = make(network, step) && all;
    }
    all
}

// The chosen moves of a cycle.
fn chosen(alloc: Global, network: &Network, line: &str, text: &mut String) -> Result<Moves, Memory>
    requires { IsNumbered network.now.plan }
{
    let offers = offered::offers(alloc, line)?;
    let mut steps = Items::new(alloc);
    choose(alloc, network, &offers, &mut steps)?;
    let found = searched::moves(alloc, network, &offers)?;
    if steps.as_slice() != found.as_slice() {
        write!(text, " otherwise")?;
    }
    show_all(network, steps.as_slice(), text)?;
    Ok(steps)
}

// Runs a cycle.
fn cycle(alloc: Global, network: &mut Network, line: &str, text: &mut String) -> Result<(), Memory>
    requires { IsNumbered network.old.plan }
    ensures { network.new.plan ≡ network.old.plan }
{
    let steps = chosen(alloc, network, line, text)?;
    if !make_all(network, steps.as_slice()) {
        write!(text, " refused")?;
    }
    Ok(())
}

// Runs a cycle of the network that a line names.
fn go_on(
    alloc: Global,
    lowest: &mut Network,
    round: &mut Network,
    line: &str,
    text: &mut String,
) -> Result<(), Memory>
    requires lowest { IsNumbered lowest.old.plan }
    requires round { IsNumbered round.old.plan }
    ensures lowest { lowest.new.plan ≡ lowest.old.plan }
    ensures round { round.new.plan ≡ round.old.plan }
{
    match line.split_once(": ") {
        None => Ok(()),
        Some(("round", offers)) => cycle(alloc, round, offers, text),
        Some((_, offers)) => cycle(alloc, lowest, offers, text),
    }
}

// Runs the cycles of the input.
fn run(rt: &HostRuntime, lowest: &mut Network, round: &mut Network) -> io::Result<()>
    requires lowest { IsNumbered lowest.old.plan }
    requires round { IsNumbered round.old.plan }
{
    for line in rt.lines(rt.alloc()) {
        let line = line?;
        let mut text = String::new(rt.alloc());
        if go_on(rt.alloc(), lowest, round, line.as_str(), &mut text).is_err() {
            return println!(rt; "out of memory");
        }
        println!(rt; "{line} ->{text}")?;
    }
    Ok(())
}

fn main(rt: HostRuntime) -> io::Result<()> {
    let Ok(low_plan) = made::plan(rt.alloc(), Policy::Lowest) else {
        return println!(rt; "out of memory");
    };
    let Ok(round_plan) = made::plan(rt.alloc(), Policy::Round) else {
        return println!(rt; "out of memory");
    };
    let Ok(mut lowest) = Network::open(rt.alloc(), &low_plan) else {
        return println!(rt; "out of memory");
    };
    let Ok(mut round) = Network::open(rt.alloc(), &round_plan) else {
        return println!(rt; "out of memory");
    };
    run(&rt, &mut lowest, &mut round)
}
