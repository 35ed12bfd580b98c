ghost use Rattle.net_cells.specs.Loops.{EachCycleIsOne, EachRunIsOne};

/// Where no net of a well-formed netlist depends on itself through cells, there is exactly one assignment
/// of values to its nets for given values of its inputs and registers.
pub fn values_law()
    ensures { EachCycleIsOne }
{}

/// Where no net of a well-formed netlist depends on itself through cells, there is exactly one run from the
/// start, with all registers at 0, for inputs that have their widths.
pub fn runs_law()
    ensures { EachRunIsOne }
{}
