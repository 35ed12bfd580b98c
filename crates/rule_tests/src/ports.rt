use crate::text::{halves, number};
use dip_lists::{Few, Items, Memory};
use dip_sets::{AddressSet, IdRange, Sizes};
use std::alloc::Global;
use tl_params::{Addresses, DownPort, DownPorts, Master, Ops, Slave, UpPort, UpPorts};

/// Gets of these sizes, atomics of 4 to 8 bytes, and nothing else.
pub fn ops(least: u32, greatest: u32) -> Ops {
    let none = Sizes::none();
    Ops {
        get: Sizes::new(least, greatest).unwrap_or(none),
        put_full: none,
        put_partial: none,
        arithmetic: Sizes::new(4, 8).unwrap_or(none),
        logical: none,
        intent: none,
    }
}

/// The addresses of a page of 4,096 bytes.
pub fn page(alloc: Global, number: u32) -> Result<Addresses, Memory> {
    let mut addresses = Few::new(alloc);
    if let Ok(set) = AddressSet::new(u64::from(number) * 4096, 4095) {
        addresses.push(set)?;
    }
    Ok(addresses)
}

// A master `START-END-GREATEST`: its ids and the greatest size of its gets.
fn master(text: &str) -> Master {
    let (start, rest) = halves(text, '-');
    let (end, greatest) = halves(rest, '-');
    Master {
        node: 7,
        port: 1,
        ids: IdRange {
            start: number(start),
            end: number(end),
        },
        emits: ops(1, number(greatest)),
    }
}

// What goes down: masters between commas, none for `-`.
fn down_port(alloc: Global, text: &str) -> Result<DownPort, Memory> {
    let mut masters = Items::new(alloc);
    if text == "-" {
        return Ok(DownPort { masters });
    }
    for part in text.split(',') {
        masters.push(master(part))?;
    }
    Ok(DownPort { masters })
}

// A slave `PAGE:LEAST-GREATEST`: its page and the sizes of its gets.
fn slave(alloc: Global, text: &str) -> Result<Slave, Memory> {
    let (place, sizes) = halves(text, ':');
    let (least, greatest) = halves(sizes, '-');
    Ok(Slave {
        node: 9,
        port: 0,
        addresses: page(alloc, number(place))?,
        supports: ops(number(least), number(greatest)),
    })
}

// What goes up, `BEAT@` and slaves between commas.
fn up_port(alloc: Global, text: &str) -> Result<UpPort, Memory> {
    let (beat, rest) = halves(text, '@');
    let mut slaves = Items::new(alloc);
    for part in rest.split(',') {
        slaves.push(slave(alloc, part)?)?;
    }
    Ok(UpPort {
        slaves,
        beat: number(beat),
    })
}

/// What goes down at ports, a word each; `PORT*N` stands for N of them, and no text for none.
pub fn downs(alloc: Global, text: &str) -> Result<DownPorts, Memory> {
    let mut ports = Items::new(alloc);
    for word in text.split(' ') {
        let (word, times) = halves(word, '*');
        let times = times.parse::<u32>().unwrap_or(1);
        for _ in 0..times {
            add_down(alloc, &mut ports, word)?;
        }
    }
    Ok(ports)
}

fn add_down(alloc: Global, ports: &mut DownPorts, word: &str) -> Result<(), Memory> {
    if word.is_empty() {
        return Ok(());
    }
    ports.push(down_port(alloc, word)?)
}

/// What goes up at ports, a word each.
pub fn ups(alloc: Global, text: &str) -> Result<UpPorts, Memory> {
    let mut ports = Items::new(alloc);
    if text.is_empty() {
        return Ok(ports);
    }
    for word in text.split(' ') {
        ports.push(up_port(alloc, word)?)?;
    }
    Ok(ports)
}
