//! A text that grows at its end, which contracts see as its bytes.
#![tactic(auto)]

mod text;

pub use text::Text;
