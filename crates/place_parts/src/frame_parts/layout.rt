//! What the parts of frames are made for.

use block_core::name::Name;
use control_net::ring_net::shape::ControlShape;
use frame_net::Kept;
use pipe_net::parts::{Part, Sizes};
use row_net::place_net::Outputs;

/// What the parts of frames are made for: how many parts of each sort there are, and the sizes of control; what is kept of frames, the words of a frame that may change, and what stands
/// for the answer of the packet in the last place; the nets that say whether the packet at a place must reload, up to the commit place, and the net that says whether packets
/// stay where they are.
#[derive(Clone, Copy)]
pub struct FrameLayout<'a> {
    pub sizes: Sizes,
    pub shape: &'a ControlShape,
    pub kept: &'a [Kept],
    pub words: &'a [u8],
    pub answer: &'a Outputs<Name<Part>>,
    pub reload: &'a [Name<Part>],
    pub stays: Name<Part>,
}
