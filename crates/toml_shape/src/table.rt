ghost use Rattle.std.specs.Prelude.{◌≡◌, ◌≤◌, map, is_some, IsTrue, IfSome};
ghost use Rattle.std.specs.Option.{option_map};
ghost use Rattle.std.specs.List.{list_any};
ghost use Rattle.std.specs.Str.{bytes_eq};
ghost use Rattle.toml.specs.Data.{get_member};
ghost use Rattle.toml.specs.View.{table_view, view, items_view};
ghost use Rattle.dip_sets.specs.Names as names;
ghost use Rattle.toml_shape.specs.KeysLaw.{KeysLaw};
ghost use Rattle.toml_shape.specs.Shapes as spec;

use crate::number_within;
use dip_sets::is_name;
use toml::{Table, Value};

// The most bytes of a name in a file.
const MOST_NAME: usize = 32;

/// The value under a key.
pub fn under<'a>(table: &'a Table, key: &str) -> Option<&'a Value>
    ensures { option_map (λ value. view value.now) result ≡ get_member key.now (table_view table.now) }
{
    table.get(key)
}

// Whether a text is one of these.
fn is_among(keys: &[&str], key: &str) -> bool
    ensures { result ≡ list_any (bytes_eq key.now) (map (λ k. k.now) keys.now) }
{
    for one in keys {
        if key == *one {
            return true;
        }
    }
    false
}

/// Whether each key of a table is among these.
pub fn keys_among(keys: &[&str], table: &Table) -> bool
    ensures { result ≡ spec.keys_among (map (λ k. k.now) keys.now) (table_view table.now) }
{
    for (key, _) in table {
        if !is_among(keys, key.as_str()) {
            return false;
        }
    }
    true
}

/// What it means that each key of a table is among some: whatever stands in the table stands under one of
/// them.
pub fn keys_law()
    ensures { KeysLaw }
{}

/// The text under a key, if there is one.
pub fn text_under<'a>(table: &'a Table, key: &str) -> Option<&'a str>
    ensures { option_map (λ text. text.now) result ≡ spec.text_under key.now (table_view table.now) }
{
    match under(table, key) {
        Some(Value::String(text)) => Some(text.as_str()),
        _ => None,
    }
}

// Whether a text is a name of at most 32 bytes.
fn is_short_name(text: &str) -> bool
    ensures { result ≡ is_some (spec.short_name text.now) }
{
    is_name(text) && text.len() <= MOST_NAME
}

/// The text under a key, if it is a name of at most 32 bytes.
pub fn name_under<'a>(table: &'a Table, key: &str) -> Option<&'a str>
    ensures value { option_map (λ name. name.now) result ≡ spec.name_under key.now (table_view table.now) }
    ensures form { IfSome result (λ name. IsTrue (names.is_name name.now)) }
{
    let text = text_under(table, key)?;
    if is_short_name(text) {
        Some(text)
    } else {
        None
    }
}

/// The integer under a key, if there is one.
pub fn integer_under(table: &Table, key: &str) -> Option<i64>
    ensures { result ≡ spec.integer_under key.now (table_view table.now) }
{
    match under(table, key) {
        Some(Value::Integer(integer)) => Some(*integer),
        _ => None,
    }
}

/// The number under a key, if there is one from `least` to `most`.
pub fn number_under(table: &Table, key: &str, least: u64, most: u64) -> Option<u64>
    ensures value { result ≡ spec.number_under key.now least most (table_view table.now) }
    ensures within { IfSome result (λ number. (least ≤ number) × (number ≤ most)) }
{
    number_within(integer_under(table, key)?, least, most)
}

/// The table under a key, if there is one.
pub fn table_under<'a>(table: &'a Table, key: &str) -> Option<&'a Table>
    ensures { option_map (λ t. table_view t.now) result ≡ spec.table_under key.now (table_view table.now) }
{
    match under(table, key) {
        Some(Value::Table(inner)) => Some(inner),
        _ => None,
    }
}

// Whether a value is a table.
fn is_table(value: &Value) -> bool
    ensures { result ≡ spec.is_table (view value.now) }
{
    matches!(value, Value::Table(_))
}

// Whether each item is a table.
fn are_tables(items: &[Value]) -> bool
    ensures { result ≡ spec.are_tables (items_view items.now) }
{
    for item in items {
        if !is_table(item) {
            return false;
        }
    }
    true
}

/// The items of the array of tables under a key, none where the key is missing; `None` where another
/// value stands there.
pub fn tables_under<'a>(table: &'a Table, key: &str) -> Option<&'a [Value]>
    ensures { option_map (λ items. items_view items.now) result ≡ spec.tables_under key.now
        (table_view table.now) }
{
    match under(table, key) {
        None => Some(&[]),
        Some(Value::Array(items)) if are_tables(items.as_slice()) => Some(items.as_slice()),
        Some(_) => None,
    }
}

/// Whether a key is missing or has an integer.
pub fn may_have_integer(table: &Table, key: &str) -> bool
    ensures { result ≡ spec.may_have spec.is_integer (get_member key.now (table_view table.now)) }
{
    match under(table, key) {
        None | Some(Value::Integer(_)) => true,
        Some(_) => false,
    }
}

/// Whether a key is missing or has a name of at most 32 bytes.
pub fn may_have_name(table: &Table, key: &str) -> bool
    ensures { result ≡ spec.may_have spec.is_short_name (get_member key.now (table_view table.now)) }
{
    match under(table, key) {
        None => true,
        Some(Value::String(text)) => is_short_name(text.as_str()),
        Some(_) => false,
    }
}

/// Whether a key is missing or has one of these texts.
pub fn may_have_text(table: &Table, key: &str, texts: &[&str]) -> bool
    ensures { result ≡ spec.may_have (spec.is_one_of (map (λ t. t.now) texts.now))
        (get_member key.now (table_view table.now)) }
{
    match under(table, key) {
        None => true,
        Some(Value::String(text)) => is_among(texts, text.as_str()),
        Some(_) => false,
    }
}
