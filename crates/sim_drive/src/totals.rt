ghost use Rattle.std.specs.Prelude.{◌≡◌, ◌≤◌, ◌+◌, ◌*◌, ◌%◌, ◌^◌, List, length};
ghost use Rattle.tl_edge.specs.declared.beat.Event.{Event};
ghost use Rattle.sim_ports.specs.Sinks.{Sinking};
ghost use Rattle.sim_events.specs.Setups.{Setup};
ghost use Rattle.sim_run.specs.Standing.{AreTold};
ghost use Rattle.sim_drive.specs.Totals as spec;

use sim_ports::SourceDriver;
use tl_edge::{Event, What};

/// How many requests have begun at all source ports.
pub fn requests_begun(drivers: &[SourceDriver]) -> u32
    requires { length drivers.now ≤ 1024 }
    ensures { (setup : Setup) (history : List Event) (sinks : List Sinking)
        → length setup.requests ≤ 10000 → AreTold setup history drivers.now sinks
        → result ≡ spec.requests_begun setup history }
{
    let mut begun: u32 = 0;
    for driver in drivers {
        begun = begun.saturating_add(driver.begun());
    }
    begun
}

/// How many requests have returned at all source ports.
pub fn requests_returned(drivers: &[SourceDriver]) -> u32
    requires { length drivers.now ≤ 1024 }
    ensures { (setup : Setup) (history : List Event) (sinks : List Sinking)
        → length setup.requests ≤ 10000 → AreTold setup history drivers.now sinks
        → result ≡ spec.requests_returned setup history }
{
    let mut returned: u32 = 0;
    for driver in drivers {
        returned = returned.saturating_add(driver.finished());
    }
    returned
}

// The sum of the bytes of a number.
fn byte_sum(number: u64) -> u64
    ensures sum { result ≡ spec.byte_sum 8 number }
    ensures few { result ≤ 2040 }
{
    let mut sum = 0;
    let mut rest = number;
    for _place in 0..8u32 {
        sum += rest % 256;
        rest /= 256;
    }
    sum
}

// The sum of the bytes that a beat gives back.
fn bytes_returned(what: &What) -> u64
    ensures { result ≡ spec.bytes_returned what.now }
{
    match what {
        What::Return(beat) => byte_sum(beat.payload),
        _ => 0,
    }
}

/// A sum, modulo 2^64, with the bytes that the beats of some events give back.
pub fn with_data(sum: u64, events: &[Event]) -> u64
    ensures { result ≡ (sum + spec.data_returned events.now) % 2 ^ 64 }
{
    let mut sum = sum;
    for event in events {
        sum = sum.wrapping_add(bytes_returned(&event.what));
    }
    sum
}
