ghost use Rattle.std.specs.Prelude.{◌≡◌, ◌≤◌, ◌<◌, ◌+◌, ◌*◌, ◌∷◌, ◌++◌, [], ℕ, IsSome, List, None, Some, length, map, false, get_or, vec_len, vec_capacity};
ghost use Rattle.tl_edge.specs.declared.beat.ABeat.{ABeat};
ghost use Rattle.tl_edge.specs.declared.beat.Event.{Event};
ghost use Rattle.tl_edge.specs.declared.beat.What.TheVariants.{Enter, Return, Leave, Reply};
ghost use Rattle.sim_ports.specs.Prepared.{ArePrepared, IsPreparedAt};
ghost use Rattle.sim_ports.specs.Sinks.{served, sinking, sink_offers};
ghost use Rattle.sim_ports.specs.Sources.{Script, Sending, Sends, offers_now};
ghost use Rattle.sim_events.specs.Passing.{happening, sink_events, source_events};
ghost use Rattle.sim_events.specs.Reading.{sink_events_from, sink_outputs_count, source_events_from, source_outputs_count};
ghost use Rattle.sim_run.specs.Telling as spec;

use sim_events::{SinkOffer, SinkView, SourceOffer, SourceView, sink_view, source_view};
use sim_ports::{Device, Prepared, SinkDriver, SourceDriver};
use tl_edge::{ABeat, DBeat, Event, What};

// Adds an event to those of a cycle, for which there is room.
fn show(shown: &mut Vec<Event>, cycle: u32, port: u32, what: What)
    requires { vec_len shown.old < vec_capacity shown.old }
    ensures events { shown.new.items
        ≡ shown.old.items ++ record { cycle = cycle; port = port; what = what } ∷ [] }
    ensures long { vec_len shown.new ≡ vec_len shown.old + 1 }
    ensures room { vec_capacity shown.new ≡ vec_capacity shown.old }
{
    shown.push_reserved(Event { cycle, port, what });
}

// A beat that a source port offers enters, if one does.
fn enter(
    driver: &mut SourceDriver,
    shown: &mut Vec<Event>,
    cycle: u32,
    port: u32,
    beat: Option<ABeat>,
)
    requires offered { IsSome beat → IsSome (offers_now driver.old cycle) }
    requires room { vec_len shown.old < vec_capacity shown.old }
    ensures events { shown.new.items ≡ shown.old.items ++ happening cycle port Enter beat }
    ensures heard { (script : Script) (history : List Event) → Sends script history driver.old
        → Sends script (history ++ happening cycle port Enter beat) driver.new }
    ensures long { vec_len shown.new ≤ vec_len shown.old + 1 }
    ensures room { vec_capacity shown.new ≡ vec_capacity shown.old }
{
    if let Some(beat) = beat {
        driver.entered(cycle);
        show(shown, cycle, port, What::Enter(beat));
    }
}

// A beat returns to a source port, if one does and its id is busy.
fn give_back(
    driver: &mut SourceDriver,
    shown: &mut Vec<Event>,
    cycle: u32,
    port: u32,
    beat: Option<DBeat>,
)
    requires room { vec_len shown.old < vec_capacity shown.old }
    ensures events { spec.Hears (happening cycle port Return beat) driver.old
        → shown.new.items ≡ shown.old.items ++ happening cycle port Return beat }
    ensures heard { spec.HasHeard (happening cycle port Return beat) driver.old driver.new }
    ensures long { vec_len shown.new ≤ vec_len shown.old + 1 }
    ensures room { vec_capacity shown.new ≡ vec_capacity shown.old }
{
    if let Some(beat) = beat
        && driver.try_return(&beat)
    {
        show(shown, cycle, port, What::Return(beat));
    }
}

// Tells the driver of a source port what happens there in a cycle.
fn tell_source(
    driver: &mut SourceDriver,
    shown: &mut Vec<Event>,
    cycle: u32,
    port: u32,
    offer: &SourceOffer,
    view: &SourceView,
)
    requires offered { IsSome offer.now.beat → IsSome (offers_now driver.old cycle) }
    requires room { vec_len shown.old + 2 ≤ vec_capacity shown.old }
    ensures events { spec.Hears (source_events cycle port offer.now view.now) driver.old
        → shown.new.items ≡ shown.old.items ++ source_events cycle port offer.now view.now }
    ensures heard { spec.HasHeard (source_events cycle port offer.now view.now) driver.old driver.new }
    ensures long { vec_len shown.new ≤ vec_len shown.old + 2 }
    ensures room { vec_capacity shown.new ≡ vec_capacity shown.old }
{
    enter(driver, shown, cycle, port, offer.enters(view));
    give_back(driver, shown, cycle, port, offer.returns(view));
}

// A beat leaves at a sink port, if one does and is the next one of a request that the device may be asked;
// with the last one of a request the device answers.
fn leave(
    driver: &mut SinkDriver,
    prepared: &Prepared,
    shown: &mut Vec<Event>,
    cycle: u32,
    port: u32,
    beat: Option<ABeat>,
)
    requires prepared { IsPreparedAt prepared.now.addresses
        (sinking ((⟦<dyn Device as Device>⟧ driver.old.device.vtable).meaning driver.old.device.value)
        driver.old.port) }
    requires room { vec_len shown.old < vec_capacity shown.old }
    ensures events { spec.MayServeAll (sinking
        ((⟦<dyn Device as Device>⟧ driver.old.device.vtable).meaning driver.old.device.value) driver.old.port)
        (happening cycle port Leave beat)
        → shown.new.items ≡ shown.old.items ++ happening cycle port Leave beat }
    ensures served { spec.MayServeAll (sinking
        ((⟦<dyn Device as Device>⟧ driver.old.device.vtable).meaning driver.old.device.value) driver.old.port)
        (happening cycle port Leave beat)
        → (sinking
        ((⟦<dyn Device as Device>⟧ driver.new.device.vtable).meaning driver.new.device.value) driver.new.port)
        ≡ served (sinking
        ((⟦<dyn Device as Device>⟧ driver.old.device.vtable).meaning driver.old.device.value) driver.old.port)
        (happening cycle port Leave beat) }
    ensures none { beat ≡ None → driver.new.port ≡ driver.old.port }
    ensures prepared { IsPreparedAt prepared.now.addresses
        (sinking ((⟦<dyn Device as Device>⟧ driver.new.device.vtable).meaning driver.new.device.value)
        driver.new.port) }
    ensures long { vec_len shown.new ≤ vec_len shown.old + 1 }
    ensures room { vec_capacity shown.new ≡ vec_capacity shown.old }
{
    if let Some(beat) = beat
        && driver.try_leave(cycle, &beat, prepared)
    {
        show(shown, cycle, port, What::Leave(beat));
    }
}

// A beat that a sink port offers is replied, if one is.
fn reply(
    driver: &mut SinkDriver,
    shown: &mut Vec<Event>,
    cycle: u32,
    port: u32,
    beat: Option<DBeat>,
)
    requires offered { IsSome beat → IsSome (sink_offers driver.old.port cycle false) }
    requires room { vec_len shown.old < vec_capacity shown.old }
    ensures events { shown.new.items ≡ shown.old.items ++ happening cycle port Reply beat }
    ensures served { (sinking
        ((⟦<dyn Device as Device>⟧ driver.new.device.vtable).meaning driver.new.device.value) driver.new.port)
        ≡ served (sinking
        ((⟦<dyn Device as Device>⟧ driver.old.device.vtable).meaning driver.old.device.value) driver.old.port)
        (happening cycle port Reply beat) }
    ensures prepared { (addresses : List ℕ) → IsPreparedAt addresses
        (sinking ((⟦<dyn Device as Device>⟧ driver.old.device.vtable).meaning driver.old.device.value)
        driver.old.port) → IsPreparedAt addresses
        (sinking ((⟦<dyn Device as Device>⟧ driver.new.device.vtable).meaning driver.new.device.value)
        driver.new.port) }
    ensures long { vec_len shown.new ≤ vec_len shown.old + 1 }
    ensures room { vec_capacity shown.new ≡ vec_capacity shown.old }
{
    if let Some(beat) = beat {
        driver.replied(cycle);
        show(shown, cycle, port, What::Reply(beat));
    }
}

/// Tells the drivers of all source ports what happens there in a cycle, by what they offer and take and by
/// the outputs of the netlist. It takes no memory.
pub fn tell_sources(
    drivers: &mut [SourceDriver],
    shown: &mut Vec<Event>,
    cycle: u32,
    offers: &[SourceOffer],
    outputs: &[u64],
)
    requires long { length offers.now ≡ length drivers.old }
    requires few { length drivers.old ≤ 1024 }
    requires outputs { source_outputs_count * length drivers.old ≤ length outputs.now }
    requires room { vec_len shown.old + 2 * length drivers.old ≤ vec_capacity shown.old }
    requires offered { spec.AreOffering cycle offers.now drivers.old }
    ensures events { spec.AllHear cycle offers.now outputs.now (length drivers.old) drivers.old
        → shown.new.items ≡ shown.old.items ++ source_events_from cycle 0 offers.now outputs.now }
    ensures heard { spec.AllHeard cycle offers.now outputs.now (length drivers.old) drivers.old drivers.new }
    ensures same { length drivers.new ≡ length drivers.old }
    ensures long { vec_len shown.new ≤ vec_len shown.old + 2 * length drivers.old }
    ensures room { vec_capacity shown.new ≡ vec_capacity shown.old }
{
    for port in 0..offers.len() {
        let view = source_view(&outputs[7 * port..]);
        tell_source(
            &mut drivers[port],
            shown,
            cycle,
            port as u32,
            &offers[port],
            &view,
        );
    }
}

// Tells the driver of a sink port what happens there in a cycle and may be told.
fn tell_sink(
    driver: &mut SinkDriver,
    prepared: &Prepared,
    shown: &mut Vec<Event>,
    cycle: u32,
    port: u32,
    offer: &SinkOffer,
    view: &SinkView,
)
    requires offered { spec.IsServing cycle offer.now driver.old.port }
    requires prepared { IsPreparedAt prepared.now.addresses
        (sinking ((⟦<dyn Device as Device>⟧ driver.old.device.vtable).meaning driver.old.device.value)
        driver.old.port) }
    requires room { vec_len shown.old + 2 ≤ vec_capacity shown.old }
    ensures events { spec.MayServeAll (sinking
        ((⟦<dyn Device as Device>⟧ driver.old.device.vtable).meaning driver.old.device.value) driver.old.port)
        (sink_events cycle port offer.now view.now)
        → shown.new.items ≡ shown.old.items ++ sink_events cycle port offer.now view.now }
    ensures served { spec.MayServeAll (sinking
        ((⟦<dyn Device as Device>⟧ driver.old.device.vtable).meaning driver.old.device.value) driver.old.port)
        (sink_events cycle port offer.now view.now)
        → (sinking
        ((⟦<dyn Device as Device>⟧ driver.new.device.vtable).meaning driver.new.device.value) driver.new.port)
        ≡ served (sinking
        ((⟦<dyn Device as Device>⟧ driver.old.device.vtable).meaning driver.old.device.value) driver.old.port)
        (sink_events cycle port offer.now view.now) }
    ensures prepared { IsPreparedAt prepared.now.addresses
        (sinking ((⟦<dyn Device as Device>⟧ driver.new.device.vtable).meaning driver.new.device.value)
        driver.new.port) }
    ensures long { vec_len shown.new ≤ vec_len shown.old + 2 }
    ensures room { vec_capacity shown.new ≡ vec_capacity shown.old }
{
    leave(driver, prepared, shown, cycle, port, offer.leaves(view));
    reply(driver, shown, cycle, port, offer.replies(view));
}

/// Tells the drivers of all sink ports what happens there in a cycle and may be told, and lets their devices
/// answer. It takes no memory.
pub fn tell_sinks(
    drivers: &mut [SinkDriver],
    prepared: &[Prepared],
    shown: &mut Vec<Event>,
    cycle: u32,
    offers: &[SinkOffer],
    outputs: &[u64],
)
    requires long { length offers.now ≡ length drivers.old }
    requires few { length drivers.old ≤ 1024 }
    requires outputs { sink_outputs_count * length drivers.old ≤ length outputs.now }
    requires room { vec_len shown.old + 2 * length drivers.old ≤ vec_capacity shown.old }
    requires offered { spec.AllServing cycle offers.now (map (λ driver. driver.port) drivers.old) }
    requires prepared { ArePrepared prepared.now (map (λ driver. sinking
        ((⟦<dyn Device as Device>⟧ driver.device.vtable).meaning driver.device.value) driver.port)
        drivers.old) }
    ensures events { spec.AllMayServe cycle offers.now outputs.now (map (λ driver. sinking
        ((⟦<dyn Device as Device>⟧ driver.device.vtable).meaning driver.device.value) driver.port)
        drivers.old)
        → shown.new.items ≡ shown.old.items ++ sink_events_from cycle 0 offers.now outputs.now }
    ensures served { spec.AllMayServe cycle offers.now outputs.now (map (λ driver. sinking
        ((⟦<dyn Device as Device>⟧ driver.device.vtable).meaning driver.device.value) driver.port)
        drivers.old)
        → spec.AllServed cycle offers.now outputs.now (length drivers.old) (map (λ driver. sinking
        ((⟦<dyn Device as Device>⟧ driver.device.vtable).meaning driver.device.value) driver.port)
        drivers.old) (map (λ driver. sinking
        ((⟦<dyn Device as Device>⟧ driver.device.vtable).meaning driver.device.value) driver.port)
        drivers.new) }
    ensures prepared { ArePrepared prepared.now (map (λ driver. sinking
        ((⟦<dyn Device as Device>⟧ driver.device.vtable).meaning driver.device.value) driver.port)
        drivers.new) }
    ensures same { length drivers.new ≡ length drivers.old }
    ensures long { vec_len shown.new ≤ vec_len shown.old + 2 * length drivers.old }
    ensures room { vec_capacity shown.new ≡ vec_capacity shown.old }
{
    for port in 0..offers.len() {
        let view = sink_view(&outputs[9 * port..]);
        tell_sink(
            &mut drivers[port],
            &prepared[port],
            shown,
            cycle,
            port as u32,
            &offers[port],
            &view,
        );
    }
}
