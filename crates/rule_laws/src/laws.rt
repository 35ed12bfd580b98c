ghost use Rattle.rule_laws.specs.DesignRefusals.{EachHasSmallPieces, EachIsRefusedDown, NeverRefusedUp};
ghost use Rattle.rule_laws.specs.Examples.{RefusalExamples};
ghost use Rattle.rule_laws.specs.RuleRefusals.{EachRefusesArgumentsOrPorts, EachRefusesOnlyArguments};

/// What each standard rule refuses of as many ports as its nodes have.
///
/// On the way up nothing but its arguments, which it refuses both ways whatever the ports. So what it takes
/// on the way down it takes on the way up. On the way down its arguments, or ports that it can't use: a
/// shrinker's without masters, and a crossbar's inputs.
pub fn rule_refusals_law()
    ensures up { EachRefusesOnlyArguments }
    ensures down { EachRefusesArgumentsOrPorts }
{}

/// What the first failure of a design by the standard rules can be.
///
/// Of each design whose binds name nodes that exist, check 12 never is it: each rule that is asked on the way
/// up has taken the same arguments on the way down. Where a well stated design fails at check 11 first, the
/// node's rule refuses its arguments, or it is a crossbar one of whose in edges needs more than 1,024 ids.
/// Where it fails at check 17 first, the node is a fragmenter whose piece has fewer bytes than the bus behind
/// it.
pub fn design_refusals_law()
    ensures never { NeverRefusedUp }
    ensures down { EachIsRefusedDown }
    ensures fit { EachHasSmallPieces }
{}

/// What single rules refuse, and the first failures of four designs of a source, a node and a sink.
pub fn refusal_examples_law()
    ensures { RefusalExamples }
{}
