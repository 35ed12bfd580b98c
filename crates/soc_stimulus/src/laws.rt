ghost use Rattle.soc_stimulus.specs.PortsLaw.{StimulusPortsLaw};
ghost use Rattle.soc_stimulus.specs.RulesLaw.{RulesLaw};
ghost use Rattle.soc_stimulus.specs.SettingsLaw.{SettingsLaw};
ghost use Rattle.soc_stimulus.specs.StimulusExamples.{BytesExample, DevicesExample, FileExample, LimitsExample, RequestsExample, ShapesExample, TextsExample};

/// What the answered failure of a stimulus file means, for all bytes.
///
/// Rule 1 goes before rule 2 at any entry, and that before rule 3 at any entry. Of the rules 4 to 9 the
/// lowest entry that fails one goes first, and of that entry the lowest rule. Where no failure is answered,
/// nothing fails.
pub fn stimulus_rules_law()
    ensures { RulesLaw }
{}

/// Which ports the tables of a stimulus file can name: those of the design's sources, and those of its
/// sinks, each by the number that it has in the plan.
pub fn stimulus_ports_law()
    ensures { StimulusPortsLaw }
{}

/// A stimulus that a file states has a setting for each sink port of the plan: the one that a device's table
/// states for it, and where none does that of a memory that does all requests, without a delay.
pub fn stimulus_settings_law()
    ensures { SettingsLaw }
{}

/// What the definitions say in examples in which each table, text and number is written out.
pub fn stimulus_examples_law()
    ensures texts { TextsExample }
    ensures bytes { BytesExample }
    ensures shapes { ShapesExample }
    ensures limits { LimitsExample }
    ensures requests { RequestsExample }
    ensures devices { DevicesExample }
    ensures file { FileExample }
{}
