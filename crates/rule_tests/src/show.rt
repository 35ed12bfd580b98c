use crate::broken::Broken;
use dip_graph::Edge;
use tl_params::{DownPort, Master, Slave, UpPort};

// The ids of a master, and the sizes of its gets and atomics.
fn show_master(rt: &HostRuntime, master: &Master) -> Result<(), Broken> {
    let (ids, get, atomics) = (master.ids, master.emits.get, master.emits.arithmetic);
    print!(rt; " {}-{}", ids.start, ids.end)?;
    Ok(print!(rt;
        "/{}-{}/{}-{}",
        get.min(),
        get.max(),
        atomics.min(),
        atomics.max()
    )?)
}

/// The masters of a port.
pub fn show_down(rt: &HostRuntime, port: &DownPort) -> Result<(), Broken> {
    for master in port.masters.as_slice() {
        show_master(rt, master)?;
    }
    Ok(())
}

// The first page of a slave and the sizes of its gets.
fn show_slave(rt: &HostRuntime, slave: &Slave) -> Result<(), Broken> {
    let get = slave.supports.get;
    let place = match slave.addresses.get(0) {
        Some(set) => set.base() / 4096,
        None => 0,
    };
    Ok(print!(rt; " {place}:{}-{}", get.min(), get.max())?)
}

/// The width of the bus of a port and its slaves.
pub fn show_up(rt: &HostRuntime, port: &UpPort) -> Result<(), Broken> {
    print!(rt; " {}@", port.beat)?;
    for slave in port.slaves.as_slice() {
        show_slave(rt, slave)?;
    }
    Ok(())
}

/// The ends of an edge.
pub fn show_edge(rt: &HostRuntime, edge: &Edge) -> Result<(), Broken> {
    Ok(print!(rt;
        " {}.{}-{}.{}",
        edge.from, edge.from_port, edge.to, edge.to_port
    )?)
}

/// Ends an answer.
pub fn end(rt: &HostRuntime) -> Result<(), Broken> {
    Ok(println!(rt)?)
}
