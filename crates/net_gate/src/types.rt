use net_build::{Wire, Wires};

/// The registers of one gate.
#[derive(Debug, Drop)]
pub struct Registers {
    /// How many beats are left of the message that holds it.
    pub left: Wire,
    /// Whose message that is.
    pub mine: Wires,
    /// Those behind the last winner.
    pub late: Wires,
}

/// What one gate does.
#[derive(Debug, Drop)]
pub struct Serving {
    /// For each head 1 where it is taken.
    pub grants: Wires,
    /// 1 where a beat is put.
    pub valid: Wire,
    /// The beat's fields.
    pub items: Wires,
}
