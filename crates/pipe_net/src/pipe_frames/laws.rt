//! What holds of the parts of frames. Each function's contract is a law; it computes nothing.

ghost use Rattle.pipe_net.specs.PipeFrames.Returning.{PlacesReturn};
ghost use Rattle.pipe_net.specs.PipeFrames.Following.{FramesFollow, FramesBegin};

/// By which packets must reload it is shown which places send back.
pub fn places_return()
    ensures { PlacesReturn }
{}

/// By what the other parts say in a clock the parts of frames show what the machine does, and store what its next state says; so they do before the first
/// clock.
pub fn frames_follow()
    ensures clock { FramesFollow }
    ensures first { FramesBegin }
{
    control_net::laws::sound();
}
