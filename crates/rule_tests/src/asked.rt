use crate::broken::Broken;
use crate::own::closed;
use crate::ports::{downs, ups};
use crate::show::{end, show_down, show_up};
use crate::text::{halves, name, numbers};
use dip_graph::Numbers;
use dip_lists::Memory;
use dip_rule::{RuleFault, Rules};
use std::alloc::Global;
use tl_params::{DownPort, Template, UpPort};
use tl_rules::fits;

/// The place of a kind among the rules, what is built for its nodes, and whether these join all ports.
pub fn ask_kind(rt: &HostRuntime, rules: &Rules, text: &str) -> Result<(), Broken> {
    let kind = name(rt.alloc(), text)?;
    match (rules.find(&kind), rules.template_of(&kind)) {
        (Some(place), Some(template)) => print!(rt; " {place} {template:?}")?,
        _ => print!(rt; " no rule")?,
    }
    let joins = rules.is_nexus_kind(Some(&kind));
    Ok(println!(rt; " {joins}")?)
}

// What a rule answers down to `KIND ARGS PORTS`.
fn down_of(alloc: Global, rules: &Rules, text: &str) -> Result<DownPort, RuleFault> {
    let (kind, rest) = halves(text, ' ');
    let (args, ports) = halves(rest, ' ');
    let kind = name(alloc, kind)?;
    let args = numbers(alloc, args)?;
    let ins = downs(alloc, ports)?;
    rules.ask_down(&kind, &args, ins.as_slice())
}

// What a rule answers up to `KIND ARGS PORTS`.
fn up_of(alloc: Global, rules: &Rules, text: &str) -> Result<UpPort, RuleFault> {
    let (kind, rest) = halves(text, ' ');
    let (args, ports) = halves(rest, ' ');
    let kind = name(alloc, kind)?;
    let args = numbers(alloc, args)?;
    let outs = ups(alloc, ports)?;
    rules.ask_up(&kind, &args, outs.as_slice())
}

fn show_refusal(rt: &HostRuntime, fault: RuleFault) -> Result<(), Broken> {
    match fault {
        RuleFault::Refused(number) => Ok(println!(rt; " refused {number}")?),
        RuleFault::Memory => Err(Broken::Memory),
    }
}

/// What a rule answers down; of more than eight masters only how many there are.
pub fn ask_down(rt: &HostRuntime, rules: &Rules, text: &str) -> Result<(), Broken> {
    match down_of(rt.alloc(), rules, text) {
        Ok(port) => {
            if port.masters.len() > 20 {
                return Ok(println!(rt; " {} masters", port.masters.len())?);
            }
            show_down(rt, &port)?;
            end(rt)
        }
        Err(fault) => show_refusal(rt, fault),
    }
}

/// What a rule answers up.
pub fn ask_up(rt: &HostRuntime, rules: &Rules, text: &str) -> Result<(), Broken> {
    match up_of(rt.alloc(), rules, text) {
        Ok(port) => {
            show_up(rt, &port)?;
            end(rt)
        }
        Err(fault) => show_refusal(rt, fault),
    }
}

// Whether a template fits between these edges, whose ports are `DOWNS | UPS`.
fn fits_ports(
    alloc: Global,
    template: Template,
    args: &Numbers,
    ins: &[u32],
    outs: &[u32],
    text: &str,
) -> Result<bool, Memory> {
    let (down, up) = text.split_once(" | ").unwrap_or((text, ""));
    let down = downs(alloc, down)?;
    let up = ups(alloc, up)?;
    Ok(fits(template, args, ins, outs, down.as_slice(), up.as_slice()))
}

// Whether it does of `ARGS INS OUTS PORTS`.
fn fits_text(alloc: Global, template: Template, text: &str) -> Result<bool, Memory> {
    let (args, rest) = halves(text, ' ');
    let (ins, rest) = halves(rest, ' ');
    let (outs, ports) = halves(rest, ' ');
    let args = numbers(alloc, args)?;
    let ins = numbers(alloc, ins)?;
    let outs = numbers(alloc, outs)?;
    fits_ports(
        alloc,
        template,
        &args,
        ins.as_slice(),
        outs.as_slice(),
        ports,
    )
}

/// Whether what is built for a kind fits.
pub fn ask_fits(rt: &HostRuntime, rules: &Rules, text: &str) -> Result<(), Broken> {
    let (kind, rest) = halves(text, ' ');
    let kind = name(rt.alloc(), kind)?;
    let Some(template) = rules.template_of(&kind) else {
        return Err(Broken::Memory);
    };
    let fits = fits_text(rt.alloc(), template, rest)?;
    Ok(println!(rt; " {fits}")?)
}

/// The numbers with which a rule of two closures refuses.
pub fn ask_closures(rt: &HostRuntime) -> Result<(), Broken> {
    let (down, up) = closed(rt.alloc());
    Ok(println!(rt; " refused {down} {up}")?)
}
