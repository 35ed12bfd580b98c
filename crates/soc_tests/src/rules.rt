ghost use Rattle.soc_tests.specs.GivenPorts.{given_port};

use dip_lists::{Items, Memory};
use dip_rule::{Rule, RuleFault};
use dip_sets::{AddressSet, IdRange, Sizes};
use std::alloc::Global;
use tl_params::{
    Addresses, Args, DownPort, Master, Masters, Ops, Slave, Slaves, UpPort, copy_down, copy_up,
};

// The number at a place of a list with commas; 0 where there is none.
fn field(list: &str, place: usize) -> u64 {
    for (at, text) in list.split(',').enumerate() {
        if at == place {
            return text.parse::<u64>().unwrap_or(0);
        }
    }
    0
}

// The same, of numbers below 2^32.
fn short(list: &str, place: usize) -> u32 {
    field(list, place).min(4_294_967_295) as u32
}

// Reads of up to so many bytes.
fn reads_to(most: u32) -> Ops {
    let none = Sizes::none();
    Ops {
        get: Sizes::new(1, most).unwrap_or(none),
        put_full: none,
        put_partial: none,
        arithmetic: none,
        logical: none,
        intent: none,
    }
}

// So many masters with the same ids: `MASTERS,START,END`.
fn masters(alloc: Global, list: &str) -> Result<Masters, Memory> {
    let mut masters = Items::new(alloc);
    for _ in 0..short(list, 0) {
        masters.push(Master {
            node: 0,
            port: 0,
            ids: IdRange {
                start: short(list, 1),
                end: short(list, 2),
            },
            emits: reads_to(8),
        })?;
    }
    Ok(masters)
}

// The address set `..,BASE,MASK`.
fn addresses(alloc: Global, list: &str) -> Result<Addresses, Memory> {
    let mut addresses = Addresses::new(alloc);
    if let Ok(set) = AddressSet::new(field(list, 3), field(list, 4)) {
        addresses.push(set)?;
    }
    Ok(addresses)
}

// So many slaves with the same set, at a node, which are read by so many bytes at most.
fn slaves(alloc: Global, list: &str) -> Result<Slaves, Memory> {
    let mut slaves = Items::new(alloc);
    for _ in 0..short(list, 0) {
        slaves.push(Slave {
            node: short(list, 5),
            port: 0,
            addresses: addresses(alloc, list)?,
            supports: reads_to(short(list, 2)),
        })?;
    }
    Ok(slaves)
}

/// Gives the same ports whatever comes to it, and refuses with 9 where it has none.
#[derive(Drop)]
pub struct Fixed {
    alloc: Global,
    down: Option<DownPort>,
    up: Option<UpPort>,
}

impl Rule for Fixed {
    ghost says_down = { λ s. given_port s.down };

    ghost says_up = { λ s. given_port s.up };

    fn down(&self, _args: &Args, _ins: &[DownPort]) -> Result<DownPort, RuleFault> {
        match &self.down {
            Some(port) => Ok(copy_down(self.alloc, port)?),
            None => Err(RuleFault::Refused(9)),
        }
    }

    fn up(&self, _args: &Args, _outs: &[UpPort]) -> Result<UpPort, RuleFault> {
        match &self.up {
            Some(port) => Ok(copy_up(self.alloc, port)?),
            None => Err(RuleFault::Refused(9)),
        }
    }
}

/// The rule that gives these: down `MASTERS,START,END`, up `SLAVES,BEAT,MOST,BASE,MASK,NODE`; nothing
/// for `-`.
pub fn fixed_rule(alloc: Global, down: &str, up: &str) -> Result<Fixed, Memory> {
    let mut fixed = Fixed {
        alloc,
        down: None,
        up: None,
    };
    if down != "-" {
        fixed.down = Some(DownPort {
            masters: masters(alloc, down)?,
        });
    }
    if up != "-" {
        fixed.up = Some(UpPort {
            slaves: slaves(alloc, up)?,
            beat: short(up, 1),
        });
    }
    Ok(fixed)
}
