ghost use Rattle.std.specs.Prelude.{◌≡◌, ◌≤◌, ◌<◌, ◌^◌, length, All, IfOk, IfErr, IfSome, None, Some};
ghost use Rattle.toml.specs.View.{table_view, view, items_view};
ghost use Rattle.dip_lists.specs.First.{first_failing};
ghost use Rattle.dip_graph.specs.Faults.{IsFaultOf};
ghost use Rattle.tl_edge.specs.Messages.{AreBytes};
ghost use Rattle.toml_shape.specs.Entries.{all_of};
ghost use Rattle.soc_stimulus.specs.Requests as spec;

use crate::edge::failing_rule;
use crate::limits::{LimitedRequest, numbers_in};
use crate::loads::{data_bytes, mask_flags};
use crate::ports::{masters_at, named_port, slaves_at};
use dip_graph::Fault;
use dip_lists::{Items, Memory};
use dip_names::Names;
use sim_ports::{StimRequest, StimRequests};
use std::alloc::Global;
use tl_edge::{PlanPort, Request};
use tl_params::{DownPort, UpPort};
use toml::{Table, Value};
use toml_shape::text_under;

// The text under a key, none of it where there is no text.
fn text_there<'a>(table: &'a Table, key: &str) -> &'a str
    ensures { result.now ≡ spec.text_there key.now (table_view table.now) }
{
    match text_under(table, key) {
        Some(text) => text,
        None => "",
    }
}

// The message of a request with these numbers.
fn message_of(alloc: Global, numbers: LimitedRequest, table: &Table) -> Result<Request, Memory>
    ensures value { IfOk result (λ request. request ≡ spec.message_of (table_view table.now) numbers) }
    ensures bytes { IfOk result (λ request. AreBytes request.payload) }
{
    let mask = mask_flags(alloc, text_there(table, "mask").as_bytes())?;
    let payload = data_bytes(alloc, text_there(table, "data").as_bytes())?;
    Ok(Request {
        op: numbers.op,
        param: numbers.param,
        size: numbers.size,
        source: numbers.source,
        address: numbers.address,
        mask,
        payload,
    })
}

// The request of a table, if its numbers are within the limits and it names a source port.
fn asked_in(
    alloc: Global,
    names: &Names,
    sources: &[PlanPort],
    table: &Table,
) -> Result<Option<StimRequest>, Memory>
    requires { length sources.now ≤ 1024 }
    ensures value { IfOk result (λ asked. asked ≡ spec.asked_in names.now sources.now
        (table_view table.now)) }
    ensures size { IfOk result (λ found. IfSome found (λ asked. asked.request.size ≤ 8)) }
    ensures bytes { IfOk result (λ found. IfSome found (λ asked. AreBytes asked.request.payload)) }
{
    let Some(numbers) = numbers_in(table) else {
        return Ok(None);
    };
    let Some(port) = named_port(names, sources, numbers.port, table) else {
        return Ok(None);
    };
    let request = message_of(alloc, numbers, table)?;
    Ok(Some(StimRequest {
        port,
        at: numbers.at,
        request,
    }))
}

// The same of a value.
fn asked_request(
    alloc: Global,
    names: &Names,
    sources: &[PlanPort],
    value: &Value,
) -> Result<Option<StimRequest>, Memory>
    requires { length sources.now ≤ 1024 }
    ensures value { IfOk result (λ asked. asked ≡ spec.asked_request names.now sources.now
        (view value.now)) }
    ensures size { IfOk result (λ found. IfSome found (λ asked. asked.request.size ≤ 8)) }
    ensures bytes { IfOk result (λ found. IfSome found (λ asked. AreBytes asked.request.payload)) }
{
    match value {
        Value::Table(table) => asked_in(alloc, names, sources, table),
        _ => Ok(None),
    }
}

// The request of the table of an entry. `Fault::Check` names the first of the rules 4 to 9 that it fails.
fn legal_request(
    alloc: Global,
    names: &Names,
    sources: &[PlanPort],
    downs: &[DownPort],
    ups: &[UpPort],
    value: &Value,
    entry: u64,
) -> Result<StimRequest, Fault>
    requires { length sources.now ≤ 1024 }
    ensures ok { IfOk result (λ asked. spec.asked_request names.now sources.now (view value.now) ≡ Some
        asked) }
    ensures legal { IfOk result (spec.IsLegalThere sources.now downs.now ups.now) }
    ensures passes { IfOk result (λ _. first_failing (spec.request_rules names.now sources.now downs.now
        ups.now entry (view value.now)) ≡ None) }
    ensures err { IfErr result (IsFaultOf (first_failing (spec.request_rules names.now sources.now
        downs.now ups.now entry (view value.now)))) }
{
    let Some(asked) = asked_request(alloc, names, sources, value)? else {
        return Err(Fault::Check {
            number: 4,
            subject: entry,
        });
    };
    let masters = masters_at(sources, downs, asked.port);
    let slaves = slaves_at(sources, ups, asked.port);
    match failing_rule(masters, slaves, &asked.request) {
        Some(number) => Err(Fault::Check {
            number,
            subject: entry,
        }),
        None => Ok(asked),
    }
}

/// The requests of some tables, of which the first one is entry 1. `Fault::Check` names the first of the
/// rules 4 to 9 that fails, table by table.
pub fn legal_requests(
    alloc: Global,
    names: &Names,
    sources: &[PlanPort],
    downs: &[DownPort],
    ups: &[UpPort],
    tables: &[Value],
) -> Result<StimRequests, Fault>
    requires { length sources.now ≤ 1024 }
    ensures ok { IfOk result (λ stated. all_of (spec.asked_request names.now sources.now)
        (items_view tables.now) ≡ Some stated) }
    ensures legal { IfOk result (All (spec.IsLegalThere sources.now downs.now ups.now)) }
    ensures passes { IfOk result (λ _. first_failing (spec.rules_of_each (spec.request_rules names.now
        sources.now downs.now ups.now) 1 (items_view tables.now)) ≡ None) }
    ensures err { IfErr result (IsFaultOf (first_failing (spec.rules_of_each (spec.request_rules names.now
        sources.now downs.now ups.now) 1 (items_view tables.now)))) }
{
    let mut stated = Items::new(alloc);
    for (place, value) in tables.iter().enumerate() {
        let entry = 1 + place as u64;
        let request = legal_request(alloc, names, sources, downs, ups, value, entry)?;
        stated.push(request)?;
    }
    Ok(stated)
}
