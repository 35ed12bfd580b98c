ghost use Rattle.soc_build.specs.Kinds.{BuildableLaw};

/// Where check 19 passes, there is hardware for each leaf of the design's plan, for all rules.
pub fn buildable_law()
    ensures { BuildableLaw }
{}
