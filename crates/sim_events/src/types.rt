use tl_edge::{ABeat, DBeat};

/// What a source port does in a cycle.
#[derive(Clone, Copy, Debug, PartialEq, Eq)]
pub struct SourceOffer {
    /// The beat of a request that it offers, if it offers one.
    pub beat: Option<ABeat>,
    /// Whether it takes a beat of a response.
    pub takes: bool,
}

/// What a sink port does in a cycle.
#[derive(Clone, Copy, Debug, PartialEq, Eq)]
pub struct SinkOffer {
    /// Whether it takes a beat of a request.
    pub takes: bool,
    /// The beat of a response that it offers, if it offers one.
    pub beat: Option<DBeat>,
}

/// What a source port sees of the network in a cycle.
#[derive(Clone, Copy, Debug, PartialEq, Eq)]
pub struct SourceView {
    /// Whether there is room for a beat of a request.
    pub room: bool,
    /// The beat of a response that waits there, if one does.
    pub head: Option<DBeat>,
}

/// What a sink port sees of the network in a cycle.
#[derive(Clone, Copy, Debug, PartialEq, Eq)]
pub struct SinkView {
    /// The beat of a request that waits there, if one does.
    pub head: Option<ABeat>,
    /// Whether there is room for a beat of a response.
    pub room: bool,
}
