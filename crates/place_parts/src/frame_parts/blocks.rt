//! The blocks of the parts of frames.

ghost use Rattle.std.specs.Prelude.{◌≡◌, IfOk};
ghost use Rattle.block_core.specs.View.{block_of};
ghost use Rattle.control_net.specs.declared.ring_net.names.Counter.TheVariants as counter;
ghost use Rattle.control_net.specs.declared.names.Wire.TheVariants as wire;
ghost use Rattle.control_net.specs.Block.{IsControl};
ghost use Rattle.control_net.specs.Returns.{IsReturns};
ghost use Rattle.frame_net.specs.Gather.{IsGather};
ghost use Rattle.frame_net.specs.Sources.{IsSources};
ghost use Rattle.frame_net.specs.ScatterNet.Scatter.{IsScatter};
ghost use Rattle.row_net.specs.PlaceNet.Exit.{IsExit, byte_numbers};
ghost use Rattle.pipe_net.specs.Parts as part;
ghost use Rattle.pipe_net.specs.Parts.{IsSmall};
ghost use Rattle.pipe_net.specs.PipeFrames.Parts.{told_by, next_slot};
ghost use Rattle.place_parts.specs.FrameParts.Blocks.{nets_of_control, IsFrameLayout};

use crate::frame_parts::layout::FrameLayout;
use block_core::block::Block;
use block_core::name::Name;
use control_net::names::{ControlNets, Wire, wire_name};
use control_net::ring_net::names::{Counter, Register, register_name};
use frame_net::scatter_net::last_name;
use pipe_net::parts::{Part, Sizes, scatter as scatter_part};
use row_net::place_net::{Outputs, exit};
use std::alloc::{AllocError, Global};

// A wire of control.
fn told(sizes: &Sizes, wire: Wire) -> Name<Part>
    requires { IsSmall sizes.now }
    ensures { result ≡ told_by sizes.now wire }
{
    wire_name(sizes.control(), wire)
}

// The slot of the next frame that is to be counted.
fn slot(sizes: &Sizes, counter: Counter) -> Name<Part>
    requires { IsSmall sizes.now }
    ensures { result ≡ next_slot sizes.now counter }
{
    register_name(sizes.control(), Register::Slot(counter))
}

// The numbers of the bytes that may change.
fn byte_numbers(alloc: Global, answer: &Outputs<Name<Part>>) -> Result<Vec<u8>, AllocError>
    ensures { IfOk result (λ r. r.items ≡ byte_numbers answer.now) }
{
    let mut numbers = Vec::new(alloc);
    for byte in &answer.bytes {
        numbers.push(byte.at)?;
    }
    Ok(numbers)
}

/// The block that gives the beats of answers.
pub(crate) fn scatter(
    alloc: Global,
    layout: &FrameLayout<'_>,
) -> Result<Block<Name<Part>>, AllocError>
    requires { IsFrameLayout layout.now }
    ensures { IfOk result (λ b. IsScatter part.scatter (part.gather layout.now.sizes) (part.exit layout.now.sizes) layout.now.shape.now.slot_bits layout.now.kept.now layout.now.words.now (byte_numbers layout.now.answer.now) (told_by layout.now.sizes wire.Taken) (next_slot layout.now.sizes counter.Given) (block_of b)) }
{
    let sizes = layout.sizes;
    let bytes = byte_numbers(alloc, layout.answer)?;
    let block = frame_net::scatter_net::scatter(
        alloc,
        scatter_part(),
        sizes.gather(),
        sizes.exit(),
        layout.shape.slot_bits,
        layout.kept,
        layout.words,
        &bytes,
        told(&sizes, Wire::Taken),
        slot(&sizes, Counter::Given),
    )?;
    Ok(block)
}

/// The block that says which places send back.
pub(crate) fn returns(
    alloc: Global,
    layout: &FrameLayout<'_>,
) -> Result<Block<Name<Part>>, AllocError>
    requires { IsFrameLayout layout.now }
    ensures { IfOk result (λ b. IsReturns layout.now.shape.now (part.returns layout.now.sizes) (part.control layout.now.sizes) layout.now.reload.now (block_of b)) }
{
    let sizes = layout.sizes;
    let block = control_net::returns::returns(
        alloc,
        sizes.returns(),
        layout.shape,
        sizes.control(),
        layout.reload,
    )?;
    Ok(block)
}

/// The block that shows the next frame that is injected.
pub(crate) fn sources(
    alloc: Global,
    layout: &FrameLayout<'_>,
) -> Result<Block<Name<Part>>, AllocError>
    requires { IsFrameLayout layout.now }
    ensures { IfOk result (λ b. IsSources (part.sources layout.now.sizes) (part.gather layout.now.sizes) layout.now.shape.now.slot_bits layout.now.kept.now (next_slot layout.now.sizes counter.Injected) (block_of b)) }
{
    let sizes = layout.sizes;
    let block = frame_net::sources(
        alloc,
        sizes.sources(),
        sizes.gather(),
        layout.shape.slot_bits,
        layout.kept,
        slot(&sizes, Counter::Injected),
    )?;
    Ok(block)
}

// The nets of other parts that control reads.
fn control_nets(sizes: &Sizes, stays: Name<Part>) -> ControlNets<Part>
    requires { IsSmall sizes.now }
    ensures { result ≡ nets_of_control sizes.now stays }
{
    ControlNets {
        partial: Name::Register(sizes.gather(), 0),
        last: last_name(scatter_part()),
        stalls: stays,
    }
}

/// The block of control.
pub(crate) fn control(
    alloc: Global,
    layout: &FrameLayout<'_>,
) -> Result<Block<Name<Part>>, AllocError>
    requires { IsFrameLayout layout.now }
    ensures { IfOk result (λ b. IsControl layout.now.shape.now (part.control layout.now.sizes) (part.returns layout.now.sizes) (nets_of_control layout.now.sizes layout.now.stays) (block_of b)) }
{
    let sizes = layout.sizes;
    let nets = control_nets(&sizes, layout.stays);
    let block = control_net::control::control(
        alloc,
        sizes.control(),
        layout.shape,
        sizes.returns(),
        &nets,
    )?;
    Ok(block)
}

/// The block that takes the beats of frames.
pub(crate) fn gather(
    alloc: Global,
    layout: &FrameLayout<'_>,
) -> Result<Block<Name<Part>>, AllocError>
    requires { IsFrameLayout layout.now }
    ensures { IfOk result (λ b. IsGather (part.gather layout.now.sizes) layout.now.shape.now.slot_bits layout.now.kept.now (told_by layout.now.sizes wire.Over) (next_slot layout.now.sizes counter.Gathered) (block_of b)) }
{
    let sizes = layout.sizes;
    let block = frame_net::gather(
        alloc,
        sizes.gather(),
        layout.shape.slot_bits,
        layout.kept,
        told(&sizes, Wire::Over),
        slot(&sizes, Counter::Gathered),
    )?;
    Ok(block)
}

/// The block that keeps answers.
pub(crate) fn answers(
    alloc: Global,
    layout: &FrameLayout<'_>,
) -> Result<Block<Name<Part>>, AllocError>
    requires { IsFrameLayout layout.now }
    ensures { IfOk result (λ b. IsExit layout.now.shape.now.slot_bits layout.now.words.now (told_by layout.now.sizes wire.Exits) (next_slot layout.now.sizes counter.Answered) layout.now.answer.now (block_of b)) }
{
    let sizes = layout.sizes;
    let block = exit(
        alloc,
        layout.shape.slot_bits,
        layout.words,
        told(&sizes, Wire::Exits),
        slot(&sizes, Counter::Answered),
        layout.answer,
    )?;
    Ok(block)
}
