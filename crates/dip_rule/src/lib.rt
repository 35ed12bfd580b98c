//! Rules, by which nodes make their ports of those that they are given, and rules made of two closures.
#![tactic(auto)]

mod asked;
mod fault;
mod rule;
mod rules;
mod stored;

pub use asked::{AskedDown, AskedUp, ByDown, ByUp};
pub use fault::RuleFault;
pub use rule::Rule;
pub use rules::{RuleEntries, RuleEntry, Rules, Stating};
pub use stored::{Says, Stored};
