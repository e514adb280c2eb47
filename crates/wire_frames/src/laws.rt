//! Laws of frames on a wire: each is the contract of a function that does nothing.
ghost use Rattle.wire_frames.specs.Laws.{FramesAreReadOnce, NoneDoesNotGoOn, PartDoesNotGoOn, PartIsOne, TooLongDoesNotGoOn, TooLongIsNoPart, TooLongIsOne};

/// An input is read as frames in one way: of two readings one goes on where the other ended, or they are the same.
pub fn frames_are_read_once()
    ensures { FramesAreReadOnce }
{}

/// What has no byte, ends inside a frame or begins with too long a length doesn't go on with a frame; and at most one
/// of these holds, in one way.
pub fn inputs_end_in_one_way()
    ensures none { NoneDoesNotGoOn }
    ensures part { PartDoesNotGoOn }
    ensures too_long { TooLongDoesNotGoOn }
    ensures apart { TooLongIsNoPart }
    ensures one_part { PartIsOne }
    ensures one_length { TooLongIsOne }
{}
