ghost use Rattle.tl_params.specs.Apart.{OneOwnerLaw, OnlyOwnerLaw};
ghost use Rattle.tl_params.specs.CarriedLaw.{CarriedLaw};
ghost use Rattle.tl_params.specs.CodesLaw.{CodesLaw};
ghost use Rattle.tl_params.specs.JoinedOwners.{JoinedOwnersLaw};
ghost use Rattle.tl_params.specs.OwnerLaw.{OwnersByMembers};
ghost use Rattle.tl_params.specs.Transfers.{TransfersLaw};

/// The codes and the way back: a code names an operation, or an answer, exactly where it is its code.
pub fn codes_law()
    ensures { CodesLaw }
{}

/// The owner of any number as an address is the slave one of whose sets has it: a computed place is the first
/// at which a slave does, and where none is computed no slave does.
pub fn owner_law()
    ensures { OwnersByMembers }
{}

/// Whose an address is, at every port where no address is in two sets: at most one slave has a set with it.
pub fn one_owner_law()
    ensures { OneOwnerLaw }
{}

/// The owner of any number as an address, among slaves where no address is in two sets: the one slave that
/// has it.
pub fn only_owner_law()
    ensures { OnlyOwnerLaw }
{}

/// The owner of an address among slaves that are joined from parts: it stands in one part, and no other part
/// has an owner.
pub fn joined_owners_law()
    ensures { JoinedOwnersLaw }
{}

/// All bytes of an aligned transfer that is no larger than its owner's largest have that one owner.
pub fn transfers_law()
    ensures { TransfersLaw }
{}

/// What it means that an edge carries what another one shows: the same slaves with the same addresses, and
/// each size of each operation, whole or, for gets and puts before a fragmenter, in pieces.
pub fn carried_law()
    ensures { CarriedLaw }
{}
