//! The laws of beats, as contracts of calls that do nothing.

ghost use Rattle.beat_core.specs.Laws.{AreInverse, ComeInOrder, PassThePorts};

/// Beats and frames are each other's inverse.
pub fn beats_and_frames()
    ensures { AreInverse }
{}

/// Frames that are offered one after the other come in their order.
pub fn frames_in_order()
    ensures { ComeInOrder }
{}

/// Frames and answers pass a design's ports as they are.
pub fn ports()
    ensures { PassThePorts }
{}
