//! The standard rules: how buffers, width adapters, fragmenters, shrinkers and crossbars make their ports of
//! those that they are given.
#![tactic(auto)]

mod buffer;
mod fit;
mod fit_xbar;
mod fragmenter;
mod laws;
mod ports;
mod shrinker;
mod sides;
mod standard;
mod width;
mod xbar;

pub use buffer::{buffer_down, buffer_up};
pub use dip_rule::Rule;
pub use fit::fits;
pub use fragmenter::{fragmenter_down, fragmenter_up};
pub use laws::{pieces_law, rules_answer_law, rules_fit_law, shifted_ids_law};
pub use shrinker::{shrinker_down, shrinker_up};
pub use sides::{
    BufferRule, BufferSides, FragmenterRule, FragmenterSides, ShrinkerRule, ShrinkerSides,
    WidthRule, WidthSides, XbarRule, XbarSides, buffer_rule, fragmenter_rule, shrinker_rule,
    width_rule, xbar_rule,
};
pub use standard::standard_rules;
pub use width::{width_down, width_up};
pub use xbar::{xbar_down, xbar_up};
