//! The part that says which operation commits.

ghost use Rattle.std.specs.Prelude.{ℕ, ◌≡◌, ◌<◌, ◌≤◌, ◌^◌, All, IfOk, length};
ghost use Rattle.commit_net.specs.MapBlock.Forms.{FormFits};
ghost use Rattle.pipe_net.specs.Parts.{IsSmall};
ghost use Rattle.pipe_parts.specs.PipeDraft.PipelinePlan.{IsPipelinePlan};
ghost use Rattle.pipe_parts.specs.TurnParts.Sites.{IsActionShape};
ghost use Rattle.pipe_parts.specs.TurnParts.Nets.{action_nets_of};
ghost use Rattle.pipe_parts.specs.TurnParts.Records.{AreRecordsOf};
ghost use Rattle.pipe_parts.specs.TurnParts.Parts.{IsActionPart};

use crate::pipe_draft::PipelinePlan;
use crate::turn_parts::host::{present, writes};
use block_core::name::Name;
use commit_net::map_block::MapForm;
use control_net::names::back_name;
use control_net::ring_net::shape::ControlShape;
use pipe_net::parts::{Part, Sizes};
use std::alloc::{AllocError, Global};
use turn_net::action::action;
use turn_net::nets::{Action, ActionNets, ActionShape, RecordNets};

// The least width of one bit or more in which a number fits.
fn bits_for(number: u32) -> u8
    requires { number ≤ 65536 }
    ensures some { 0 < result }
    ensures most { result ≤ 17 }
    ensures room { number < 2 ^ result }
    ensures least { (w : ℕ) → 0 < w → number < 2 ^ w → result ≤ w }
{
    let mut bits = 1;
    while number >= 1u32 << bits {
        bits += 1;
    }
    bits
}

// The least width of one bit or more in which the slots of each map have numbers.
fn slot_bits(forms: &[MapForm]) -> u8
    requires { All FormFits forms.now }
    ensures some { 0 < result }
    ensures most { result ≤ 16 }
    ensures each { All (λ f. f.bits ≤ result) forms.now }
    ensures least { (w : ℕ) → 0 < w → All (λ f. f.bits ≤ w) forms.now → result ≤ w }
{
    let mut most = 1;
    for form in forms {
        most = most.max(form.bits);
    }
    most
}

/// How many bits say how far a packet is through its operations, and how many the number of a slot.
pub(crate) fn action_shape(pipeline_plan: &PipelinePlan<'_>) -> ActionShape
    requires { IsPipelinePlan pipeline_plan.now }
    ensures { IsActionShape pipeline_plan.now result }
{
    ActionShape {
        bits: bits_for(pipeline_plan.program.sites.len() as u32),
        slot_bits: slot_bits(&pipeline_plan.forms),
    }
}

// The nets of other parts that say whether an operation may commit.
fn action_nets(sizes: &Sizes, shape: &ControlShape) -> ActionNets<Part>
    requires small { IsSmall sizes.now }
    requires shape { shape.now.commit ≡ sizes.now.commit }
    ensures { result ≡ action_nets_of sizes.now shape.now }
{
    ActionNets {
        present: present(sizes),
        back: back_name(sizes.returns(), shape, sizes.commit),
        host: writes(sizes),
    }
}

/// The part, for the operations that may write.
pub(crate) fn action_part(
    alloc: Global,
    pipeline_plan: &PipelinePlan<'_>,
    shape: &ControlShape,
    action_shape: &ActionShape,
    records: &[RecordNets<'_, Name<Part>>],
) -> Result<Action<Part>, AllocError>
    requires pipeline_plan { IsPipelinePlan pipeline_plan.now }
    requires shape { shape.now.commit ≡ pipeline_plan.now.sizes.commit }
    requires action_shape { IsActionShape pipeline_plan.now action_shape.now }
    requires records { AreRecordsOf pipeline_plan.now records.now }
    ensures { IfOk result (IsActionPart pipeline_plan.now shape.now action_shape.now records.now) }
{
    let nets = action_nets(&pipeline_plan.sizes, shape);
    let made = action(
        alloc,
        pipeline_plan.sizes.action(),
        action_shape,
        &nets,
        records,
    )?;
    Ok(made)
}
