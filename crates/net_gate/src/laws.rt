ghost use Rattle.net_gate.specs.Standing.{SideIsGate};

/// What the registers of a gate hold stands for the gate's state: it grants the head that the gate serves,
/// and what they hold next stands for the gate after that.
pub fn gate_law()
    ensures { SideIsGate }
{}
