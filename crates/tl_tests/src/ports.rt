use crate::made::{master_of, ops_of, slave_of};
use crate::words::{number, numbers, say, say_number, say_whether};
use dip_lists::{Items, Memory};
use std::alloc::Global;
use std::fmt::Write;
use tl_edge::{ack_of, brings_data, bundle_of, has_data, has_flags, has_param};
use tl_params::{
    Ack, DownPort, Op, Slaves, Template, UpPort, copy_down, copy_up, is_width, owner, same_down,
    same_up,
};

// The operations in the order of their codes.
const OPS: &[Op] = &[
    Op::PutFull,
    Op::PutPartial,
    Op::Arithmetic,
    Op::Logical,
    Op::Get,
    Op::Intent,
];

/// Which of some numbers are widths of a bus.
pub fn width(rest: &str, text: &mut String) -> Result<(), Memory> {
    for word in rest.split(' ') {
        say_whether(text, is_width(number(word).min(1000) as u32))?;
    }
    Ok(())
}

/// Which templates are nexuses: buffer, width, fragmenter, shrinker, crossbar.
pub fn nexus(text: &mut String) -> Result<(), Memory> {
    say_whether(text, Template::Buffer.is_nexus())?;
    say_whether(text, Template::Width.is_nexus())?;
    say_whether(text, Template::Fragmenter.is_nexus())?;
    say_whether(text, Template::Shrinker.is_nexus())?;
    say_whether(text, Template::Xbar.is_nexus())
}

// The params below 8 that an operation may have, as bits.
fn params_of(op: Op) -> u64 {
    let mut bits = 0;
    for param in 0..8u32 {
        if has_param(op, param) {
            bits |= 1u64 << param;
        }
    }
    bits
}

/// The params of each operation.
pub fn params(text: &mut String) -> Result<(), Memory> {
    for op in OPS {
        say_number(text, params_of(*op))?;
    }
    Ok(())
}

// The name of an answer.
fn name_of(ack: Ack) -> &'static str {
    match ack {
        Ack::Ack => "ack",
        Ack::AckData => "data",
        Ack::HintAck => "hint",
    }
}

/// What answers each operation: `+` in front where it has data, `?` behind where it has flags, `!` where
/// the answer brings data.
pub fn answers(text: &mut String) -> Result<(), Memory> {
    for op in OPS {
        let ack = ack_of(*op);
        let data = if has_data(*op) { "+" } else { "" };
        let flags = if has_flags(*op) { "?" } else { "" };
        let brings = if brings_data(ack) { "!" } else { "" };
        write!(text, " {data}{}{flags}{brings}", name_of(ack))?;
    }
    Ok(())
}

/// The largest size of ports at which one operation alone is large, and that operation's own largest size.
pub fn largest(text: &mut String) -> Result<(), Memory> {
    for op in OPS {
        let ops = ops_of(*op);
        write!(text, " {}/{}", ops.largest(), ops.of(*op).max())?;
    }
    Ok(())
}

// Four slaves, of which the second and the third share addresses, and the last one's set has a hole.
fn slaves(alloc: Global) -> Result<Slaves, Memory> {
    let mut slaves = Items::new(alloc);
    slaves.push(slave_of(alloc, 0x8000_0000, 0xffff, 64)?)?;
    slaves.push(slave_of(alloc, 0x1000_0000, 0xfff, 64)?)?;
    slaves.push(slave_of(alloc, 0x1000_0000, 0x1fff, 64)?)?;
    slaves.push(slave_of(alloc, 0x2000_0000, 0x10ff, 64)?)?;
    Ok(slaves)
}

// The up port with these slaves and a bus of so many bytes.
fn up_port(slaves: Slaves, beat: u32) -> UpPort {
    UpPort { slaves, beat }
}

/// The owner of each address.
pub fn owners(alloc: Global, rest: &str, text: &mut String) -> Result<(), Memory> {
    let port = up_port(slaves(alloc)?, 8);
    for word in rest.split(' ') {
        match owner(&port, number(word)) {
            Some(place) => say_number(text, place as u64)?,
            None => say(text, "-")?,
        }
    }
    Ok(())
}

// The down port whose masters have the ids from 0 to before an end and from there to before another one.
fn down_port(alloc: Global, end: u32, last: u32) -> Result<DownPort, Memory> {
    let mut masters = Items::new(alloc);
    masters.push(master_of(0, end))?;
    masters.push(master_of(end, last))?;
    Ok(DownPort { masters })
}

// The widths of an edge whose slave has a base, a mask and a greatest size, with masters up to two ends.
fn add_bundle(
    alloc: Global,
    slaves: Slaves,
    end: u64,
    last: u64,
    text: &mut String,
) -> Result<(), Memory> {
    let down = down_port(alloc, end.min(2000) as u32, last.min(2000) as u32)?;
    let bundle = bundle_of(&down, &up_port(slaves, 8));
    Ok(write!(
        text,
        " {} {} {} {}",
        bundle.address_bits, bundle.data_bytes, bundle.source_bits, bundle.size_bits
    )?)
}

/// The widths of an edge: the base, the mask and the greatest size of its slave, and two ends of its
/// masters' ids.
pub fn bundle(alloc: Global, rest: &str, text: &mut String) -> Result<(), Memory> {
    let numbers = numbers(alloc, rest)?;
    let [base, mask, most, end, last] = numbers.as_slice() else {
        return say(text, "not five numbers");
    };
    let mut slaves = Items::new(alloc);
    if *most > 0 {
        slaves.push(slave_of(alloc, *base, *mask, (*most).min(1000) as u32)?)?;
    }
    add_bundle(alloc, slaves, *end, *last, text)
}

// Whether a copy of an up port is the same, and one with a wider bus isn't.
fn copies_up(alloc: Global, text: &mut String) -> Result<(), Memory> {
    let port = up_port(slaves(alloc)?, 4);
    let copy = copy_up(alloc, &port)?;
    say_whether(text, same_up(&copy, &port))?;
    say_whether(text, same_up(&up_port(copy.slaves, 8), &port))
}

/// Whether copies of ports are the same, and ports that differ aren't.
pub fn copies(alloc: Global, text: &mut String) -> Result<(), Memory> {
    copies_up(alloc, text)?;
    let port = down_port(alloc, 4, 6)?;
    say_whether(text, same_down(&copy_down(alloc, &port)?, &port))?;
    say_whether(text, same_down(&down_port(alloc, 4, 7)?, &port))
}
