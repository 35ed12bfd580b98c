ghost use Rattle.soc_top.specs.FirstOfAll.{FirstOfAllLaw};

/// What the check means that a refusal names, for all bytes of a design file and all rules.
///
/// Of all that fail among the checks 1 to 18, and with `verilog` among the checks 1 to 19, it has the lowest
/// number, and of the subjects that are listed for that check the lowest. The checks 11 and 12 list one node:
/// that of the first refusal in the order of the pass. Where none is named, nothing fails.
pub fn first_of_all_law()
    ensures { FirstOfAllLaw }
{}
