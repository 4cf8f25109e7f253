//! The parts of frames.

ghost use Rattle.std.specs.Prelude.{IfOk};
ghost use Rattle.block_core.specs.Blocks.{Whole};
ghost use Rattle.pipe_net.specs.declared.parts.Part.{Part};
ghost use Rattle.pipe_net.specs.Layout.{Layout};
ghost use Rattle.pipe_net.specs.PipeFrames.Parts.{AreFrameParts};
ghost use Rattle.place_parts.specs.FrameParts.Blocks.{IsFrameLayout, IsFor, HasBlocks, ArePlaced};

use crate::frame_parts::blocks::{answers, control, gather, returns, scatter, sources};
use crate::frame_parts::layout::FrameLayout;
use block_core::block::Placed;
use pipe_net::parts::{Part, scatter as scatter_part};
use std::alloc::{AllocError, Global};

/// The parts that deal with frames, each with its block.
#[derive(Drop)]
pub struct FrameParts {
    /// Gives the beats of answers.
    pub scatter: Placed<Part>,
    /// Says which places send back.
    pub returns: Placed<Part>,
    /// Shows of a frame what its packet takes in.
    pub sources: Placed<Part>,
    /// Counts frames, and moves packets from place to place.
    pub control: Placed<Part>,
    /// Takes the beats of frames.
    pub gather: Placed<Part>,
    /// Keeps the answers of packets that leave.
    pub exit: Placed<Part>,
}

/// The parts of frames: in every pipeline that is laid out so and has these blocks for them they do what is to be done with frames.
pub fn frame_parts(alloc: Global, layout: &FrameLayout<'_>) -> Result<FrameParts, AllocError>
    requires { IsFrameLayout layout.now }
    ensures placed { IfOk result (ArePlaced layout.now.sizes) }
    ensures parts { (l : Layout) (d : Whole Part) → IsFor l layout.now → IfOk result (λ r. HasBlocks d layout.now.sizes r → AreFrameParts l d) }
{
    let sizes = layout.sizes;
    Ok(FrameParts {
        scatter: Placed {
            part: scatter_part(),
            block: scatter(alloc, layout)?,
        },
        returns: Placed {
            part: sizes.returns(),
            block: returns(alloc, layout)?,
        },
        sources: Placed {
            part: sizes.sources(),
            block: sources(alloc, layout)?,
        },
        control: Placed {
            part: sizes.control(),
            block: control(alloc, layout)?,
        },
        gather: Placed {
            part: sizes.gather(),
            block: gather(alloc, layout)?,
        },
        exit: Placed {
            part: sizes.exit(),
            block: answers(alloc, layout)?,
        },
    })
}
