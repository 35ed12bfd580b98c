ghost use Rattle.tl_rules.specs.Pieces.{PiecesLaw};
ghost use Rattle.tl_rules.specs.RulesAnswer.{RulesAnswerLaw};
ghost use Rattle.tl_rules.specs.RulesFit.{RulesFitLaw};
ghost use Rattle.tl_rules.specs.ShiftedIds.{ShiftedIdsLaw};

/// Behind a crossbar the ids of each input are in the input's own range, and no id of one input is an id of
/// another: an id tells which input it came from.
pub fn shifted_ids_law()
    ensures { ShiftedIdsLaw }
{}

/// What a fragmenter's sizes are good for.
///
/// The test on its edges says that each size that it takes goes on, as it is or as pieces. Its rule
/// shows below the sizes that arrive there, and above sizes that go on, up to the largest transfer
/// where a piece does.
pub fn pieces_law()
    ensures { PiecesLaw }
{}

/// The ports that a standard rule answers fit what is built for its nodes, where a width adapter's bus below
/// has a width that buses may have, and a fragmenter's pieces have at least the bytes of one beat.
pub fn rules_fit_law()
    ensures { RulesFitLaw }
{}

/// The bus above a width adapter is as wide as its argument says, that above a crossbar as its first
/// output's, and what a master above a shrinker emits the one below emits too.
pub fn rules_answer_law()
    ensures { RulesAnswerLaw }
{}
