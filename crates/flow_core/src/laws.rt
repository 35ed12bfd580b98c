ghost use Rattle.flow_core.specs.BuiltPlans.{BuiltLaw};
ghost use Rattle.flow_core.specs.ExampleBursts.{
  CrossbarBursts,
  FragmenterBursts,
  LinesExample,
  ShrinkerBursts,
  WidthBursts,
};
ghost use Rattle.flow_core.specs.ExampleMoves.{CuttingExample, MovesExample};
ghost use Rattle.flow_core.specs.Examples.{
  CrossbarExample,
  FragmenterExample,
  ShrinkerExample,
  WidthExample,
};
ghost use Rattle.flow_core.specs.Shapes.{ShapeLaw};
ghost use Rattle.flow_core.specs.Tags.{TagsLaw};
ghost use Rattle.flow_core.specs.TurningLaws.{KeptAddressLaw, NarrowingBackLaw, NarrowingLaw, WideningBackLaw, WideningLaw};

/// No act of a leaf goes by the tags of beats.
pub fn tags_law()
    ensures { TagsLaw }
{}

/// What each machine does in examples in which every state and every beat is written out.
pub fn examples_law()
    ensures crossbar { CrossbarExample }
    ensures shrinker { ShrinkerExample }
    ensures width { WidthExample }
    ensures fragmenter { FragmenterExample }
{}

/// What each machine does on messages of several beats, and as a leaf with the tags of its beats.
pub fn bursts_law()
    ensures crossbar { CrossbarBursts }
    ensures shrinker { ShrinkerBursts }
    ensures width { WidthBursts }
    ensures fragmenter { FragmenterBursts }
    ensures lines { LinesExample }
{}

/// What single moves do in examples in which every queue is written out.
pub fn moves_law()
    ensures buffer { MovesExample }
    ensures fragmenter { CuttingExample }
{}

/// Whatever moves are made, in whatever order, each queue holds at most two beats, there are as many queues
/// and leaves as at the start, and the plan is the same.
pub fn shape_law()
    ensures { ShapeLaw }
{}

/// A sound plan is one of which a network is opened where all its leaves are buffers and crossbars, whatever
/// else it has, and no plan with another leaf is.
pub fn built_law()
    ensures { BuiltLaw }
{}

/// A width adapter makes of the beats of a message with data those of the same message on the other bus, for
/// requests and, by the address that it keeps, for their responses.
pub fn turning_law()
    ensures narrowing { NarrowingLaw }
    ensures widening { WideningLaw }
    ensures narrowing_back { NarrowingBackLaw }
    ensures widening_back { WideningBackLaw }
    ensures kept { KeptAddressLaw }
{}
