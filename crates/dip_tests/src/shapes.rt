use crate::words::{say, say_number, say_some, say_whether};
use dip_lists::Memory;
use std::alloc::Global;
use std::fmt::Write;
use toml::Table;
use toml_shape::{
    integer_under, keys_among, may_have_integer, may_have_name, may_have_text, name_under,
    number_under, pair, table_under, tables_under, text_under, under,
};

const TREE: &str = "
fits = \"a2345678_2345678_2345678_2345678\"
long = \"a2345678_2345678_2345678_23456789\"
digit = \"0a\"
low = -1
high = 7
two = [3, -4]
three = [1, 2, 3]
mixed = [{}, 1]
inner = { a = 1, b = \"x\" }
[[tables]]
[[tables]]
";

// The two integers under a key.
fn pair_under(tree: &Table, key: &str) -> Option<(i64, i64)> {
    pair(under(tree, key)?)
}

// Adds two integers to an answer, or `-` where there are none.
fn add_pair(text: &mut String, found: Option<(i64, i64)>) -> Result<(), Memory> {
    match found {
        Some((first, second)) => Ok(write!(text, " {first},{second}")?),
        None => say(text, "-"),
    }
}

// The integer, the number from 0 to 7 and the two integers under a key.
fn numbers_under(tree: &Table, key: &str, text: &mut String) -> Result<(), Memory> {
    match integer_under(tree, key) {
        Some(integer) => write!(text, " {integer}")?,
        None => say(text, "-")?,
    }
    say_some(text, number_under(tree, key, 0, 7))?;
    say_some(text, number_under(tree, key, 7, 9))?;
    add_pair(text, pair_under(tree, key))
}

// What may stand under a key: an integer, a name, one of two texts.
fn may_have(tree: &Table, key: &str, text: &mut String) -> Result<(), Memory> {
    say_whether(text, may_have_integer(tree, key))?;
    say_whether(text, may_have_name(tree, key))?;
    say_whether(text, may_have_text(tree, key, &["0", "0a"]))
}

// The tables under a key, and whether the keys of the one table there are among some.
fn tables_at(tree: &Table, key: &str, text: &mut String) -> Result<(), Memory> {
    say_some(
        text,
        tables_under(tree, key).map(|tables| tables.len() as u64),
    )?;
    match table_under(tree, key) {
        Some(inner) => {
            say_whether(text, keys_among(&["b", "c", "a"], inner))?;
            say_whether(text, keys_among(&["b"], inner))
        }
        None => say(text, "-"),
    }
}

/// What stands under a key of the tree.
pub fn under_key(alloc: Global, key: &str, text: &mut String) -> Result<(), Memory> {
    let Ok(tree) = toml::table_from_str(alloc, TREE) else {
        return say(text, "not read");
    };
    say_number(text, text_under(&tree, key).unwrap_or("").len() as u64)?;
    say_whether(text, name_under(&tree, key).is_some())?;
    numbers_under(&tree, key, text)?;
    tables_at(&tree, key, text)?;
    may_have(&tree, key, text)
}
