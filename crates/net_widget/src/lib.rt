//! The width adapter as a leaf: what it does in a cycle, and in wires when a head passes it.
#![tactic(auto)]

mod flows;
mod laws;

pub use flows::{
    Passing, answers_with_data, asks_with_data, pass_narrowing, pass_widening, uses_up,
};
pub use laws::widget_law;
