ghost use Rattle.std.specs.Prelude.{◌≡◌, ◌≤◌, ◌+◌, length, map, vec_len, vec_capacity};
ghost use Rattle.sim_events.specs.Setups.{holds_up, is_stalled};
ghost use Rattle.sim_run.specs.Offering as spec;

use sim_events::{SinkOffer, SourceOffer};
use sim_ports::{SinkDriver, SinkPort, SourceDriver, Stall};

// Whether a stall holds a channel of a port in a cycle.
fn holds_up(stall: &Stall, source: bool, port: u32, on_a: bool, cycle: u32) -> bool
    ensures { result ≡ holds_up source port on_a cycle stall.now }
{
    stall.source == source
        && stall.port == port
        && stall.on_a == on_a
        && stall.start <= cycle
        && cycle < stall.end
}

// Whether one of some stalls does.
fn is_stalled(stalls: &[Stall], source: bool, port: u32, on_a: bool, cycle: u32) -> bool
    ensures { result ≡ is_stalled stalls.now source port on_a cycle }
{
    for stall in stalls {
        if holds_up(stall, source, port, on_a, cycle) {
            return true;
        }
    }
    false
}

// What a source port offers and takes in a cycle, by its driver.
fn driver_offer(stalls: &[Stall], cycle: u32, port: u32, driver: &SourceDriver) -> SourceOffer
    ensures { result ≡ spec.driver_offer stalls.now cycle port driver.now }
{
    SourceOffer {
        beat: driver.offer(cycle, is_stalled(stalls, true, port, true, cycle)),
        takes: !is_stalled(stalls, true, port, false, cycle),
    }
}

// What a sink port takes and offers in a cycle.
fn server_offer(stalls: &[Stall], cycle: u32, port: u32, server: &SinkPort) -> SinkOffer
    ensures { result ≡ spec.server_offer stalls.now cycle port server.now }
{
    SinkOffer {
        takes: server.takes(is_stalled(stalls, false, port, true, cycle)),
        beat: server.offer(cycle, is_stalled(stalls, false, port, false, cycle)),
    }
}

/// What all source ports offer and take in a cycle, in order, by their drivers and the stalls. It takes no
/// memory.
pub fn fill_sources(
    offers: &mut Vec<SourceOffer>,
    stalls: &[Stall],
    cycle: u32,
    drivers: &[SourceDriver],
)
    requires room { length drivers.now ≤ vec_capacity offers.old }
    requires few { length drivers.now ≤ 1024 }
    ensures offers { offers.new.items ≡ spec.driver_offers stalls.now cycle 0 drivers.now }
    ensures long { length offers.new.items ≡ length drivers.now }
    ensures room { vec_capacity offers.new ≡ vec_capacity offers.old }
{
    offers.clear();
    for port in 0..drivers.len() {
        offers.push_reserved(driver_offer(stalls, cycle, port as u32, &drivers[port]));
    }
}

/// What all sink ports take and offer in a cycle, in order. It takes no memory.
pub fn fill_sinks(offers: &mut Vec<SinkOffer>, stalls: &[Stall], cycle: u32, drivers: &[SinkDriver])
    requires room { length drivers.now ≤ vec_capacity offers.old }
    requires few { length drivers.now ≤ 1024 }
    ensures offers { offers.new.items
        ≡ spec.server_offers stalls.now cycle 0 (map (λ driver. driver.port) drivers.now) }
    ensures long { length offers.new.items ≡ length drivers.now }
    ensures room { vec_capacity offers.new ≡ vec_capacity offers.old }
{
    offers.clear();
    for port in 0..drivers.len() {
        offers.push_reserved(server_offer(stalls, cycle, port as u32, &drivers[port].port));
    }
}
