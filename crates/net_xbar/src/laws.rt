ghost use Rattle.net_xbar.specs.Gatewise.{CrossingIsGatewise};

/// What a crossbar does in a cycle is what its gates do, side by side: one for each output on channel A, and
/// one for each input on channel D; and so are their states afterwards.
pub fn crossing_law()
    ensures { CrossingIsGatewise }
{}
