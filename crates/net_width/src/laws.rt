ghost use Rattle.net_width.specs.PlanWidths.{PlanWidgetLaw};

/// A width adapter of a plan begins as the network has it at the start.
pub fn plan_widget_law()
    ensures { PlanWidgetLaw }
{}
