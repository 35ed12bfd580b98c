use dip_graph::Edges;
use dip_negotiate::Solution;

/// What a design agrees on whose checks pass: its edges, and what goes down and up each of them.
#[derive(Drop)]
pub struct Agreed {
    pub edges: Edges,
    pub solution: Solution,
}
