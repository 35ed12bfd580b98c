//! Requests cut into pieces, and replies put together from the answers to them; and how beats belong
//! together: those of pieces with those of their request, those on a narrow bus with those on a wide one.
#![tactic(auto)]

mod cut;
mod laws;
mod reply;

pub use cut::{cut_at, is_cut, may_be_cut, piece_at, piece_count};
pub use laws::{cut_law, kept_law, last_law, narrow_law, piece_beats_law, reply_law, wide_law};
pub use reply::reply_to;
