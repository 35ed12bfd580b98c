ghost use Rattle.net_build.specs.Folds.{FirstsAreFirst};

/// Each of the firsts of a row of bits is true exactly where that bit is and none before it.
pub fn firsts_law()
    ensures { FirstsAreFirst }
{}
