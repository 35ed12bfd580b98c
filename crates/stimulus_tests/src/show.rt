use crate::stated::Unread;
use sim_ports::{Role, Setting, Stall, StimRequest};
use soc_stimulus::Stimulus;
use std::io;
use tl_params::Op;

// The name of an operation.
fn op_name(op: Op) -> &'static str {
    match op {
        Op::PutFull => "put_full",
        Op::PutPartial => "put_partial",
        Op::Arithmetic => "arithmetic",
        Op::Logical => "logical",
        Op::Get => "get",
        Op::Intent => "intent",
    }
}

// The name of a role.
fn role_name(role: Role) -> &'static str {
    match role {
        Role::Ram => "ram",
        Role::Rom => "rom",
        Role::Deny => "deny",
    }
}

// Prints a mask, a digit for each flag.
fn show_mask(rt: &HostRuntime, flags: &[bool]) -> io::Result<()> {
    print!(rt; " mask ")?;
    for flag in flags {
        print!(rt; "{}", u8::from(*flag))?;
    }
    Ok(())
}

// Prints data, two hexadecimal digits for each byte.
fn show_data(rt: &HostRuntime, bytes: &[u8]) -> io::Result<()> {
    print!(rt; " data ")?;
    for byte in bytes {
        print!(rt; "{:x}{:x}", byte / 16, byte % 16)?;
    }
    Ok(())
}

// Prints a request.
fn show_request(rt: &HostRuntime, asked: &StimRequest) -> io::Result<()> {
    let request = &asked.request;
    print!(rt; "request port {} at {}", asked.port, asked.at)?;
    print!(rt; " {} {}", op_name(request.op), request.param)?;
    print!(rt; " size {} source {}", request.size, request.source)?;
    print!(rt; " address {:x}", request.address)?;
    show_mask(rt, request.mask.as_slice())?;
    show_data(rt, request.payload.as_slice())?;
    println!(rt; ".")
}

// Prints a stall.
fn show_stall(rt: &HostRuntime, stall: &Stall) -> io::Result<()> {
    let side = if stall.source { "source" } else { "sink" };
    let channel = if stall.on_a { "a" } else { "d" };
    print!(rt; "stall {side} {} on {channel}", stall.port)?;
    println!(rt; " from {} to {}", stall.start, stall.end)
}

// Prints the setting of a sink port.
fn show_setting(rt: &HostRuntime, port: usize, setting: Setting) -> io::Result<()> {
    println!(rt;
        "sink {port} {} delay {}",
        role_name(setting.role),
        setting.delay
    )
}

// Prints all of a stimulus.
fn show_stimulus(rt: &HostRuntime, stimulus: &Stimulus) -> io::Result<()> {
    println!(rt; "cycles {}", stimulus.cycles)?;
    for asked in stimulus.requests.as_slice() {
        show_request(rt, asked)?;
    }
    for stall in stimulus.stalls.as_slice() {
        show_stall(rt, stall)?;
    }
    for (port, setting) in stimulus.devices.as_slice().iter().enumerate() {
        show_setting(rt, port, *setting)?;
    }
    Ok(())
}

// Prints why there is no stimulus.
fn show_unread(rt: &HostRuntime, unread: Unread) -> io::Result<()> {
    match unread {
        Unread::Design => println!(rt; "no design"),
        Unread::Line { rule, entry } => println!(rt; "rule {rule} entry {entry}"),
        Unread::Memory => println!(rt; "no memory"),
    }
}

/// Prints all that a file states, or the rule and the entry.
pub fn show_whole(rt: &HostRuntime, read: Result<Stimulus, Unread>) -> io::Result<()> {
    match read {
        Ok(stimulus) => show_stimulus(rt, &stimulus),
        Err(unread) => show_unread(rt, unread),
    }
}

/// Prints whether a file states a stimulus, with the line that asks, or the rule and the entry.
pub fn show_whether(
    rt: &HostRuntime,
    line: &str,
    read: Result<Stimulus, Unread>,
) -> io::Result<()> {
    print!(rt; "{line} -> ")?;
    match read {
        Ok(stimulus) => println!(rt; "{} requests", stimulus.requests.len()),
        Err(unread) => show_unread(rt, unread),
    }
}
