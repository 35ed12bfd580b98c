ghost use Rattle.tl_pieces.specs.CutLaws.{CutLaw, PieceBeatsLaw, ReplyLaw};
ghost use Rattle.tl_pieces.specs.TwoBuses.{KeptLaw, LastLaw, NarrowLaw, WideLaw};

/// The pieces of a request are whole requests apart, with its bytes where they belong.
pub fn cut_law()
    ensures { CutLaw }
{}

/// The beats of the pieces in order have the lanes of the request's beats.
pub fn piece_beats_law()
    ensures { PieceBeatsLaw }
{}

/// The reply that answers to the pieces make is an answer to the request.
pub fn reply_law()
    ensures { ReplyLaw }
{}

/// Each beat on a narrow bus is cut out of a beat on a wide one.
pub fn narrow_law()
    ensures { NarrowLaw }
{}

/// Each beat on a wide bus is put together from beats on a narrow one.
pub fn wide_law()
    ensures { WideLaw }
{}

/// Which narrow beat is the last of a wide one.
pub fn last_law()
    ensures { LastLaw }
{}

/// What is kept of a wide beat and the next narrow one are put together by a bitwise or.
pub fn kept_law()
    ensures { KeptLaw }
{}
