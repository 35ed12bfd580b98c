ghost use Rattle.dip_sets.specs.MembersLaw.{MembersLaw};
ghost use Rattle.dip_sets.specs.WholeBlocks.{WholeBlocksLaw};

/// What the test of a set finds, for every number: its members, which are addresses of 48 bits.
pub fn members_law()
    ensures { MembersLaw }
{}

/// What the alignment of a set is good for: a block of a power of two of bytes, no more than the alignment,
/// that begins at a multiple of its size lies whole in the set or whole outside it.
pub fn whole_blocks_law()
    ensures { WholeBlocksLaw }
{}
