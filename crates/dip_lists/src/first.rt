ghost use Rattle.dip_lists.specs.FirstLaw.{FirstLaw};
ghost use Rattle.dip_lists.specs.PlacesLaw.{PlacesLaw};

/// What the first failing check means.
///
/// Where checks are in the order of their numbers, each with its failing subjects in order, it is a failure
/// with the lowest number, and of these with the lowest subject. Where there is none, nothing fails.
pub fn first_failing_law()
    ensures { FirstLaw }
{}

/// What the subjects at which a test fails mean: those of the items at which it does, in rising order.
pub fn places_law()
    ensures { PlacesLaw }
{}
