//! What holds of control. Each function's contract is a law; it computes nothing.

ghost use Rattle.control_net.specs.Control.{StartsSound, StaysSound};
ghost use Rattle.control_net.specs.Places.{FlushesPlaces, MovesPlaces, KeepsPlaces};

/// What control counts stays in order, in every clock: no more frames are inside than there are slots, those in the places are those that entered, have not
/// left and were not sent back, and each packet that may be sent back has the number of its frame.
pub fn sound()
    ensures starts { StartsSound }
    ensures stays { StaysSound }
{}

/// Of places that hold packets of any kind control knows which hold one, after some are sent back and after all have moved on.
pub fn places<X>()
    ensures flushes { FlushesPlaces X }
    ensures moves { MovesPlaces X }
{}

/// Where none is sent back, each place holds what it held.
pub fn kept()
    ensures { KeepsPlaces }
{}
