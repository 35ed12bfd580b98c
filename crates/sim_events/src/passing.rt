ghost use Rattle.std.specs.Prelude.{◌≡◌};
ghost use Rattle.sim_events.specs.Passing as spec;

use crate::types::{SinkOffer, SinkView, SourceOffer, SourceView};
use tl_edge::{ABeat, DBeat};

impl SourceOffer {
    /// The beat that enters, where there is room for what is offered.
    pub fn enters(&self, view: &SourceView) -> Option<ABeat>
        ensures { result ≡ spec.if_room view.now.room self.now.beat }
    {
        if view.room { self.beat } else { None }
    }

    /// The beat that returns, where the port takes what waits.
    pub fn returns(&self, view: &SourceView) -> Option<DBeat>
        ensures { result ≡ spec.if_room self.now.takes view.now.head }
    {
        if self.takes { view.head } else { None }
    }
}

impl SinkOffer {
    /// The beat that leaves, where the port takes what waits.
    pub fn leaves(&self, view: &SinkView) -> Option<ABeat>
        ensures { result ≡ spec.if_room self.now.takes view.now.head }
    {
        if self.takes { view.head } else { None }
    }

    /// The beat that is replied, where there is room for what is offered.
    pub fn replies(&self, view: &SinkView) -> Option<DBeat>
        ensures { result ≡ spec.if_room view.now.room self.now.beat }
    {
        if view.room { self.beat } else { None }
    }
}
