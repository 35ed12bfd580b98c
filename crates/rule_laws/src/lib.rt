//! What the standard rules refuse, rule by rule and in designs, as laws.
#![tactic(auto)]

mod laws;

pub use laws::{design_refusals_law, refusal_examples_law, rule_refusals_law};
