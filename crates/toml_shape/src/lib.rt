//! Typed reading of TOML trees: keys, texts, names, integers, pairs and arrays of tables, each equal to a
//! definition on the tree's data.
#![tactic(auto)]

mod entries;
mod table;
mod value;

pub use entries::{first_past, tables_in};
pub use table::{
    integer_under, keys_among, keys_law, may_have_integer, may_have_name, may_have_text,
    name_under, number_under, table_under, tables_under, text_under, under,
};
pub use value::{number_within, pair};
