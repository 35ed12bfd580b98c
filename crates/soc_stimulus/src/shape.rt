ghost use Rattle.std.specs.Prelude.{◌≡◌, codes};
ghost use Rattle.std.specs.List.{list_all};
ghost use Rattle.toml.specs.Data.{get_member};
ghost use Rattle.toml.specs.View.{table_view, view};
ghost use Rattle.tl_edge.specs.Messages as messages;
ghost use Rattle.toml_shape.specs.Shapes.{has, is_one_of};
ghost use Rattle.soc_stimulus.specs.Shape as spec;

use crate::tables::Part;
use tl_edge::{has_data, has_flags};
use tl_params::Op;
use toml::{Table, Value};
use toml_shape::{
    integer_under, keys_among, may_have_integer, may_have_text, name_under, tables_under,
    text_under, under,
};

// The keys of the top table, of a request, of a stall and of a device.
const STIMULUS_KEYS: [&str; 4] = ["cycles", "request", "stall", "device"];

const REQUEST_KEYS: [&str; 10] = [
    "node", "op", "address", "bytes", "source", "port", "at", "param", "data", "mask",
];

const STALL_KEYS: [&str; 5] = ["node", "side", "from", "to", "port"];

const DEVICE_KEYS: [&str; 4] = ["node", "port", "role", "delay"];

// Whether a byte is a digit of data.
fn is_data_digit(byte: u8) -> bool
    ensures { result ≡ spec.is_data_digit byte }
{
    byte.is_ascii_digit() || (b'a' <= byte && byte <= b'f')
}

// Whether each byte of a text is a digit of data.
fn has_data_digits(text: &[u8]) -> bool
    ensures { result ≡ list_all spec.is_data_digit text.now }
{
    text.iter().all(|byte| is_data_digit(*byte))
}

// Whether a text has two digits of data for each byte.
fn is_data_text(text: &[u8]) -> bool
    ensures { result ≡ spec.is_data_text text.now }
{
    has_data_digits(text) && text.len() % 2 == 0
}

// Whether a byte is a digit of a mask.
fn is_flag_digit(byte: u8) -> bool
    ensures { result ≡ spec.is_flag_digit byte }
{
    byte == b'0' || byte == b'1'
}

// Whether a text has a digit of a mask for each byte.
fn is_flag_text(text: &[u8]) -> bool
    ensures { result ≡ spec.is_flag_text text.now }
{
    text.iter().all(|byte| is_flag_digit(*byte))
}

// Whether a text of data stands under a key.
fn has_data_text(table: &Table, key: &str) -> bool
    ensures { result ≡ has spec.is_data (get_member key.now (table_view table.now)) }
{
    match under(table, key) {
        Some(Value::String(text)) => is_data_text(text.as_str().as_bytes()),
        _ => false,
    }
}

// Whether a text of a mask stands under a key.
fn has_flag_text(table: &Table, key: &str) -> bool
    ensures { result ≡ has spec.is_mask (get_member key.now (table_view table.now)) }
{
    match under(table, key) {
        Some(Value::String(text)) => is_flag_text(text.as_str().as_bytes()),
        _ => false,
    }
}

// The operation with a name.
fn op_named(text: &str) -> Option<Op>
    ensures { result ≡ spec.op_named text.now }
{
    match text {
        "get" => Some(Op::Get),
        "put_full" => Some(Op::PutFull),
        "put_partial" => Some(Op::PutPartial),
        "arithmetic" => Some(Op::Arithmetic),
        "logical" => Some(Op::Logical),
        "intent" => Some(Op::Intent),
        _ => None,
    }
}

/// The operation of a request, if its name is one.
pub fn op_in(table: &Table) -> Option<Op>
    ensures { result ≡ spec.op_in (table_view table.now) }
{
    op_named(text_under(table, "op")?)
}

// Whether the data that an operation needs stands there, and none where it needs none.
fn has_due_data(op: Op, table: &Table) -> bool
    ensures { result ≡ spec.has_where_due (messages.has_data op) spec.is_data (get_member (codes "data")
        (table_view table.now)) }
{
    if has_data(op) {
        has_data_text(table, "data")
    } else {
        under(table, "data").is_none()
    }
}

// Whether the mask that an operation needs stands there, and none where it needs none.
fn has_due_mask(op: Op, table: &Table) -> bool
    ensures { result ≡ spec.has_where_due (messages.has_flags op) spec.is_mask (get_member (codes "mask")
        (table_view table.now)) }
{
    if has_flags(op) {
        has_flag_text(table, "mask")
    } else {
        under(table, "mask").is_none()
    }
}

// Whether the data and the mask that the operation needs stand there, and no others.
fn has_load(table: &Table) -> bool
    ensures { result ≡ spec.has_load (spec.op_in (table_view table.now)) (table_view table.now) }
{
    match op_in(table) {
        Some(op) => has_due_data(op, table) && has_due_mask(op, table),
        None => false,
    }
}

/// Whether the top table has its shape.
pub fn stimulus_has_shape(table: &Table) -> bool
    ensures { result ≡ spec.stimulus_has_shape (table_view table.now) }
{
    keys_among(&STIMULUS_KEYS, table)
        && integer_under(table, "cycles").is_some()
        && tables_under(table, "request").is_some()
        && tables_under(table, "stall").is_some()
        && tables_under(table, "device").is_some()
}

// Whether the numbers of a request stand there.
fn has_request_numbers(table: &Table) -> bool
    ensures { result ≡ spec.has_request_numbers (table_view table.now) }
{
    integer_under(table, "address").is_some()
        && integer_under(table, "bytes").is_some()
        && integer_under(table, "source").is_some()
        && may_have_integer(table, "port")
        && may_have_integer(table, "at")
        && may_have_integer(table, "param")
}

// Whether a value has the shape of a request.
fn request_has_shape(value: &Value) -> bool
    ensures { result ≡ spec.request_has_shape (view value.now) }
{
    let Value::Table(table) = value else {
        return false;
    };
    keys_among(&REQUEST_KEYS, table)
        && name_under(table, "node").is_some()
        && has_request_numbers(table)
        && has_load(table)
}

// Whether the name of a channel stands under a key.
fn has_channel(table: &Table, key: &str) -> bool
    ensures { result ≡ has (is_one_of spec.channels) (get_member key.now (table_view table.now)) }
{
    under(table, key).is_some() && may_have_text(table, key, &["a", "d"])
}

// Whether a value has the shape of a stall.
fn stall_has_shape(value: &Value) -> bool
    ensures { result ≡ spec.stall_has_shape (view value.now) }
{
    let Value::Table(table) = value else {
        return false;
    };
    keys_among(&STALL_KEYS, table)
        && name_under(table, "node").is_some()
        && has_channel(table, "side")
        && integer_under(table, "from").is_some()
        && integer_under(table, "to").is_some()
        && may_have_integer(table, "port")
}

// Whether a value has the shape of a device.
fn device_has_shape(value: &Value) -> bool
    ensures { result ≡ spec.device_has_shape (view value.now) }
{
    let Value::Table(table) = value else {
        return false;
    };
    keys_among(&DEVICE_KEYS, table)
        && name_under(table, "node").is_some()
        && may_have_integer(table, "port")
        && may_have_text(table, "role", &["ram", "rom", "deny"])
        && may_have_integer(table, "delay")
}

/// Whether a value has the shape of a request, a stall or a device.
pub fn table_has_shape(part: Part, value: &Value) -> bool
    ensures { result ≡ spec.table_has_shape part (view value.now) }
{
    match part {
        Part::Request => request_has_shape(value),
        Part::Stall => stall_has_shape(value),
        Part::Device => device_has_shape(value),
    }
}
