ghost use Rattle.net_shrink.specs.Shrinkers.{ShrinkerLaw};

/// What a shrinker does with heads and room at its edges, written out.
pub fn shrinker_law()
    ensures { ShrinkerLaw }
{}
