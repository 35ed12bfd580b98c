ghost use Rattle.soc_design.specs.Order.{FileOrderLaw};

/// What the answered failure of a file means, for all bytes.
///
/// Of all that fail among the checks 1 to 4 it has the lowest number, and within that the lowest entry.
/// Where none is answered, nothing fails.
pub fn file_order_law()
    ensures { FileOrderLaw }
{}
