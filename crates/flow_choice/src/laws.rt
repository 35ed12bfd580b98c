ghost use Rattle.flow_choice.specs.BurstExamples.{BurstExample, StraightExample};
ghost use Rattle.flow_choice.specs.Chosen.{ChosenLaw};
ghost use Rattle.flow_choice.specs.Examples.{CycleExample, TurnsExample};
ghost use Rattle.flow_choice.specs.Laws.{CommuteLaw, StartLaw};
ghost use Rattle.flow_choice.specs.Numbered.{NumberedLaw};
ghost use Rattle.flow_choice.specs.OrderlyExamples.{PassedExample};

/// In every locally valid state of a sound plan, whatever the ports offer, the chosen moves of a cycle may be
/// made in any order: each is enabled when it is made, and the state afterwards is the same.
pub fn commute_law()
    ensures { CommuteLaw }
{}

/// In every state exactly those moves are chosen that may be made and are asked for: at a port what enters or
/// is replied is offered and the port takes what leaves or returns, and what goes to an output of a leaf, or
/// to one of its inputs, is the first in turn.
pub fn chosen_law()
    ensures { ChosenLaw }
{}

/// The network of every plan is locally valid at its start, so `commute_law` speaks of the first cycle of
/// every sound plan.
pub fn start_law()
    ensures { StartLaw }
{}

/// Who is asked first under each policy, all chosen moves of a cycle in an example in which every queue is
/// written out, what has passed the ports in a list of moves, and whole runs with the offers of every cycle.
pub fn choice_examples_law()
    ensures turns { TurnsExample }
    ensures cycle { CycleExample }
    ensures passed { PassedExample }
    ensures straight { StraightExample }
    ensures bursts { BurstExample }
{}

/// The ports, leaves, inputs and outputs of a sound plan have numbers of 32 bits, as `choose` needs.
pub fn numbered_law()
    ensures { NumberedLaw }
{}
