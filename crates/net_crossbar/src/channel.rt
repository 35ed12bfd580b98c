/// A channel of an edge.
#[derive(Debug, Clone, Copy)]
pub enum Channel {
    /// Requests.
    A,
    /// Responses.
    D,
}
