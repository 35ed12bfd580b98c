ghost use Rattle.tl_edge.specs.declared.beat.ABeat.{ABeat};
ghost use Rattle.tl_edge.specs.declared.beat.DBeat.{DBeat};
ghost use Rattle.tl_edge.specs.declared.beat.Tag.{Tag};
ghost use Rattle.net_queue.specs.Adapters.{AdaptersAreGuarded};
ghost use Rattle.net_queue.specs.Queues.{MovesLaw};

/// What a list of at most two is after a cycle in which its head is taken or a beat put, or both.
pub fn moves_law()
    ensures requests { MovesLaw (ABeat × Tag) }
    ensures responses { MovesLaw (DBeat × Tag) }
{}

/// Whatever its state is, a leaf with one in edge and one out edge puts only with room and takes only a
/// head.
pub fn guarded_law()
    ensures { AdaptersAreGuarded }
{}
