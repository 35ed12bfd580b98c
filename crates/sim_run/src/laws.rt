ghost use Rattle.sim_run.specs.Following.{DriversLaw, ToldLaw};
ghost use Rattle.sim_run.specs.Standing.{EngineLaw};
ghost use Rattle.sim_run.specs.Texts.{TraceTextsExample};

/// An engine that runs with what the ports of a run offer holds what a run of its netlist does; and where the
/// netlist is the network of the run's plan, it shows in each cycle what the network shows, as long as the
/// offers are orderly.
pub fn engine_law()
    ensures { EngineLaw }
{}

/// Drivers that have been told what happened offer and take what the definition of a run says; and what is
/// read off outputs that show the network's state are the run's events.
pub fn drivers_law()
    ensures { DriversLaw }
{}

/// What drivers have been told goes on with the events of each cycle.
pub fn told_law()
    ensures { ToldLaw }
{}

/// The text of events and of a trace's end, with each letter and number written out.
pub fn trace_texts_law()
    ensures { TraceTextsExample }
{}
