ghost use Rattle.net_widget.specs.Widgets.{BothLaw, WidgetLaw};

/// What a width adapter does in a cycle, by the acts that the network states of it: on one channel, and in
/// locally valid states on both.
pub fn widget_law()
    ensures acts { WidgetLaw }
    ensures both { BothLaw }
{}
