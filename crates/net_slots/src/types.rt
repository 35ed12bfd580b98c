use net_build::{Wire, Wires};

/// The first of some wires that isn't 1.
#[derive(Debug, Clone, Copy)]
pub struct Lowest {
    /// 1 where there is one.
    pub some: Wire,
    /// Its place, counted from 0, and 0 where there is none.
    pub place: Wire,
}

/// How many beats of a message are left.
#[derive(Debug, Clone, Copy)]
pub struct Counter {
    /// The register: 0 where none is in progress.
    pub left: Wire,
    /// 1 where none is left after this cycle.
    pub ends: Wire,
}

/// The registers of a shrinker's slots, or what is put before them.
#[derive(Debug, Drop)]
pub struct Slots {
    /// The new id of the request in progress; any value where none is.
    pub id: Wire,
    /// How many of its beats are left, 0 where none is in progress.
    pub asking: Wire,
    /// For each new id 1 where it isn't free.
    pub taken: Wires,
    /// For each new id the old id that it stands for; any value where it is free.
    pub olds: Wires,
}

/// What the slots go by.
#[derive(Debug, Clone, Copy)]
pub struct SlotMoves {
    /// 1 where a beat of a request is there, and room for it.
    pub wants: Wire,
    /// Its old id.
    pub old: Wire,
    /// How many beats follow it, where it begins a message.
    pub rest: Wire,
    /// 1 where the last beat of a response passes.
    pub frees: Wire,
    /// The new id of the response.
    pub new: Wire,
}

/// What the slots tell.
#[derive(Debug, Clone, Copy)]
pub struct SlotWires {
    /// 1 where the beat of the request passes.
    pub passes: Wire,
    /// Its new id.
    pub id: Wire,
    /// The old id of the response.
    pub old: Wire,
}
