ghost use Rattle.pgn_frames.specs.Laws.{CutsChangeNoSign, EachHasFrames, EachIsAsked, FramesReadBack, MoreMayFollow, NumbersGoOn, OneAsking, OneFraming, QueryStaysWhole};

/// An input's bytes have frames, and no others.
pub fn one_framing()
    ensures some { EachHasFrames }
    ensures one { OneFraming }
{}

/// Frames are put together.
pub fn together()
    // What is written frame by frame is read so.
    ensures read_back { FramesReadBack }
    // Where a client's bytes are cut into frames leaves no sign.
    ensures cuts { CutsChangeNoSign }
{}

/// A seat is asked something by the signs of its frames, and nothing else.
pub fn one_asking()
    ensures some { EachIsAsked }
    ensures one { OneAsking }
    // Its lines are numbered one after another.
    ensures numbers_go_on { NumbersGoOn }
{}

/// A message is told by its own bytes, whatever follows them: so whoever has the bytes of a whole one need not wait for more.
pub fn whole_messages()
    ensures query { QueryStaysWhole }
    ensures parting { MoreMayFollow }
{}
