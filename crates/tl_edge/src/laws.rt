ghost use Rattle.tl_edge.specs.BeatLaws.{ActiveLaw, HeadsLaw, JoinLaw, LanesLaw, SameLaw};
ghost use Rattle.tl_edge.specs.Bundles.{BitsLaw, BundleLaw};
ghost use Rattle.tl_edge.specs.Legal.{LegalLaw};
ghost use Rattle.tl_edge.specs.Spelling.{MoreLaw, NextLaw, PrefixLaw, SpellingLaw};
ghost use Rattle.tl_edge.specs.Wires.{WiresLaw};

/// What the widths of a bundle's wires mean: they are least numbers of bits, of the greatest address that a
/// slave answers and of the exponent of the largest transfer that one supports.
pub fn bits_law()
    ensures { BitsLaw }
{}

/// The wires of a bundle hold the ids of its edge, the addresses of its slaves and the sizes of their
/// transfers, with no bit too many for ids and addresses.
pub fn bundle_law()
    ensures { BundleLaw }
{}

/// The control fields are constant over the beats of a message, of which there are as many as stated.
pub fn heads_law()
    ensures { HeadsLaw }
{}

/// Which lanes are active, and the mask that has them.
pub fn active_law()
    ensures { ActiveLaw }
{}

/// What each lane of each beat of a message holds.
pub fn lanes_law()
    ensures { LanesLaw }
{}

/// Put together, the beats of a message give it back.
pub fn join_law()
    ensures { JoinLaw }
{}

/// Messages with the same beats are the same, but for the data of a denied response.
pub fn same_law()
    ensures { SameLaw }
{}

/// A list of beats spells one list of messages at most, but for the data of denied responses.
pub fn spelling_law()
    ensures { SpellingLaw }
{}

/// The first of some beats in a row are those of the first messages, followed at most by the first beats of
/// the next one.
pub fn prefix_law()
    ensures { PrefixLaw }
{}

/// Each of some beats in a row is a beat of one of their messages: which one, and with which number.
pub fn next_law()
    ensures { NextLaw }
{}

/// What beats in a row spell when one more comes.
pub fn more_law()
    ensures { MoreLaw }
{}

/// A request that is legal by masters is legal on their edge, and an owned address has at most 48 bits.
pub fn legal_law()
    ensures { LegalLaw }
{}

/// Fields tell their beat, and the beats of a legal request and of an answer to it fit the wires and the
/// ids of their edge.
pub fn wires_law()
    ensures { WiresLaw }
{}
