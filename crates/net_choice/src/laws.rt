ghost use Rattle.net_choice.specs.Choice.{GrantsArePick};

/// The granted request is the first in turn of those that may.
pub fn choice_law()
    ensures { GrantsArePick }
{}
