use dip_lists::Items;
use tl_edge::{ABeat, DBeat, Flags, Tag};

/// For each source port the beat that it offers, with its tag, if it offers one.
pub type Enters = Items<Option<(ABeat, Tag)>>;

/// For each sink port the beat that it offers, with its tag, if it offers one.
pub type Replies = Items<Option<(DBeat, Tag)>>;

/// What the ports of a network offer and take in one cycle.
#[derive(Drop)]
pub struct Offers {
    /// The beats of requests, by source port.
    pub enter: Enters,
    /// Whether it takes a beat of a response, by source port.
    pub take_d: Flags,
    /// Whether it takes a beat of a request, by sink port.
    pub take_a: Flags,
    /// The beats of responses, by sink port.
    pub reply: Replies,
}
