ghost use Rattle.dip_checks.specs.Laws.{CheckOrderLaw, PortsLaw};

/// What the answered failure means, for all rules and each design.
///
/// Of all that fail among the checks 5 to 18 it has the lowest number, and of the subjects that are listed
/// for that check the lowest. The checks 11 and 12 list one subject: the node of the first refusal in the
/// order of the pass. Where none is answered, nothing fails.
pub fn check_order_law()
    ensures { CheckOrderLaw }
{}

/// What passes of the checks 13 and 15 mean: each master of an edge has ids of its own, below 1,024, and
/// each set is aligned to its slave's largest transfer.
pub fn ports_law()
    ensures { PortsLaw }
{}
