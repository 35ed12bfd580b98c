use net_build::Wire;
use net_queue::Put;
use net_slots::{SlotMoves, Slots};

/// What becomes of a response in a cycle.
#[derive(Debug, Clone, Copy)]
pub struct Answering {
    /// 1 where a beat of it passes.
    pub goes: Wire,
    /// 1 where its last beat does.
    pub frees: Wire,
    /// The register that tells how many of its beats are left, 0 where none is in progress.
    pub left: Wire,
    /// How many beats follow the head, where it begins a message.
    pub rest: Wire,
}

/// A shrinker between the queues of two edges.
#[derive(Debug, Drop)]
pub struct Shrunk {
    /// What is put to the requests below.
    pub down: Put,
    /// What is put to the responses above.
    pub up: Put,
    /// What the slots go by.
    pub moves: SlotMoves,
    /// The registers of the slots.
    pub slots: Slots,
    /// What becomes of a response.
    pub answering: Answering,
}
