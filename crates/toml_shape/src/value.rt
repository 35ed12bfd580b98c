ghost use Rattle.std.specs.Prelude.{◌≡◌, ◌≤◌, IfSome};
ghost use Rattle.toml.specs.View.{view, items_view};
ghost use Rattle.toml_shape.specs.Shapes as spec;

use toml::Value;

/// The number that an integer is, if it is one from `least` to `most`.
pub fn number_within(integer: i64, least: u64, most: u64) -> Option<u64>
    ensures value { result ≡ spec.number_within least most integer }
    ensures within { IfSome result (λ number. (least ≤ number) × (number ≤ most)) }
{
    let Ok(number) = u64::try_from(integer) else {
        return None;
    };
    if least <= number && number <= most {
        Some(number)
    } else {
        None
    }
}

// The integer that a value is, if it is one.
fn integer(value: &Value) -> Option<i64>
    ensures { result ≡ spec.integer_of (view value.now) }
{
    match value {
        Value::Integer(integer) => Some(*integer),
        _ => None,
    }
}

// The two integers of exactly two items.
fn pair_of_items(items: &[Value]) -> Option<(i64, i64)>
    ensures { result ≡ spec.pair_of_items (items_view items.now) }
{
    match items {
        [first, second] => Some((integer(first)?, integer(second)?)),
        _ => None,
    }
}

/// The two integers of an array of exactly two.
pub fn pair(value: &Value) -> Option<(i64, i64)>
    ensures { result ≡ spec.pair_of (view value.now) }
{
    match value {
        Value::Array(items) => pair_of_items(items.as_slice()),
        _ => None,
    }
}
