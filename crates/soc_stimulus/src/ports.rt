ghost use Rattle.std.specs.Prelude.{◌≡◌, ◌≤◌, ◌<◌, ◌^◌, length, IfSome};
ghost use Rattle.toml.specs.View.{table_view};
ghost use Rattle.soc_stimulus.specs.Ports as spec;
ghost use Rattle.soc_stimulus.specs.Requests as requests;

use dip_names::Names;
use tl_edge::PlanPort;
use tl_params::{DownPort, Master, Slave, UpPort};
use toml::Table;
use toml_shape::name_under;

// The number of a node's port among the source ports or the sink ports of a plan.
fn port_number(ports: &[PlanPort], node: usize, port: u32) -> Option<u32>
    requires { length ports.now ≤ 1024 }
    ensures { result ≡ spec.port_number ports.now node port }
{
    for (number, at) in ports.iter().enumerate() {
        if at.node as usize == node && at.port == port {
            return Some(number as u32);
        }
    }
    None
}

/// The number of the port that a table names by the name of its node.
pub fn named_port(names: &Names, ports: &[PlanPort], port: u32, table: &Table) -> Option<u32>
    requires { length ports.now ≤ 1024 }
    ensures { result ≡ spec.named_port names.now ports.now port (table_view table.now) }
{
    let node = names.number_of(name_under(table, "node")?)?;
    port_number(ports, node, port)
}

/// Who may request on the edge of a source port.
pub fn masters_at<'a>(sources: &[PlanPort], downs: &'a [DownPort], port: u32) -> &'a [Master]
    ensures { result.now ≡ requests.masters_at sources.now downs.now port }
{
    match sources.get(port as usize) {
        Some(at) => match downs.get(at.edge as usize) {
            Some(down) => down.masters.as_slice(),
            None => &[],
        },
        None => &[],
    }
}

/// Who answers on the edge of a source port.
pub fn slaves_at<'a>(sources: &[PlanPort], ups: &'a [UpPort], port: u32) -> &'a [Slave]
    ensures { result.now ≡ requests.slaves_at sources.now ups.now port }
{
    match sources.get(port as usize) {
        Some(at) => match ups.get(at.edge as usize) {
            Some(up) => up.slaves.as_slice(),
            None => &[],
        },
        None => &[],
    }
}
