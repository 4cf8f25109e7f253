//! What stands for the answer of a program, after the last place.

ghost use Rattle.std.specs.Prelude.{ℕ, ◌≡◌, ◌<◌, ◌≤◌, All, IfOk, length, map as map_list};
ghost use Rattle.std.proofs.Common.{get_or};
ghost use Rattle.hazard_core.specs.cell_core.declared.program.FrameByte.{FrameByte};
ghost use Rattle.hazard_core.specs.cell_core.View.{program_of};
ghost use Rattle.overlay_net.specs.cell_nets.Operands.{IsOperand};
ghost use Rattle.row_net.specs.PlaceNet.Exit.{byte_number, output_operands};
ghost use Rattle.row_net.specs.Table.{IsIn, Stands};
ghost use Rattle.pipe_parts.specs.declared.pipe_draft.places.StageSources.{StageSources};
ghost use Rattle.pipe_parts.specs.PipeDraft.PipelinePlan.{program_in, plan_in, IsPipelinePlan};
ghost use Rattle.pipe_parts.specs.PipeDraft.Places.{ArePlaces};
ghost use Rattle.pipe_design.specs.Answer.{IsByteIn, AreOutputs, has_byte, changed_words};

use block_core::name::Name;
use hazard_core::cell_core::program::{CellProgram, FrameByte};
use overlay_net::cell_nets::operand::Operand;
use pipe_net::parts::Part;
use pipe_parts::pipe_draft::{PipelinePlan, StageSources};
use row_net::place_net::{AnswerByte, Outputs};
use stage_net::site_table::laws::stages_are_placed;
use std::alloc::{AllocError, Global};

// What stands for a cell that the table has.
fn operand(table: &[Option<Operand<Name<Part>>>], cell: u32) -> Operand<Name<Part>>
    requires { IsIn table.now cell }
    ensures { Stands table.now cell result }
{
    let operand = table[cell as usize];
    operand.unwrap()
}

// What stands for the bytes that may change.
fn bytes(
    alloc: Global,
    frame: &[FrameByte],
    table: &[Option<Operand<Name<Part>>>],
) -> Result<Vec<AnswerByte<Name<Part>>>, AllocError>
    requires changed { All (λ x. x.at < 256) frame.now }
    requires there { All (λ x. IsIn table.now x.cell) frame.now }
    ensures stand { IfOk result (λ r. All (IsByteIn table.now frame.now) r.items) }
    ensures numbers { IfOk result (λ r. map_list byte_number r.items ≡ map_list (λ x. x.at) frame.now) }
{
    let mut all = Vec::new(alloc);
    for byte in frame {
        let operand = operand(table, byte.cell);
        all.push(AnswerByte {
            at: byte.at as u8,
            operand,
        })?;
    }
    Ok(all)
}

// What stands in a table for the answer of a program.
fn outputs(
    alloc: Global,
    program: &CellProgram,
    table: &[Option<Operand<Name<Part>>>],
) -> Result<Outputs<Name<Part>>, AllocError>
    requires verdict { IsIn table.now program.now.verdict }
    requires target { IsIn table.now program.now.target }
    requires changed { All (λ x. x.at < 256) program.now.frame.items }
    requires there { All (λ x. IsIn table.now x.cell) program.now.frame.items }
    ensures { IfOk result (AreOutputs (program_of program.now) table.now) }
{
    let verdict = operand(table, program.verdict);
    let target = operand(table, program.target);
    let bytes = bytes(alloc, &program.frame, table)?;
    Ok(Outputs {
        verdict,
        target,
        bytes,
    })
}

/// What stands for the answer after the last place.
pub(crate) fn answer(
    alloc: Global,
    pipeline_plan: &PipelinePlan<'_>,
    places: &[StageSources],
) -> Result<Outputs<Name<Part>>, AllocError>
    requires pipeline_plan { IsPipelinePlan pipeline_plan.now }
    requires places { ArePlaces pipeline_plan.now places.now }
    ensures stands { IfOk result (λ o. (b : StageSources) → AreOutputs (program_in pipeline_plan.now) (get_or places.now (plan_in pipeline_plan.now).last b).tables.table.items o) }
    ensures operands { IfOk result (λ o. All IsOperand (output_operands o)) }
{
    stages_are_placed();
    let last = &places[pipeline_plan.plan.rows() as usize];
    let outputs = outputs(alloc, pipeline_plan.program, &last.tables.table)?;
    Ok(outputs)
}

// Whether a byte of a word may change.
fn has_byte(frame: &[FrameByte], word: u32) -> bool
    ensures { result ≡ has_byte frame.now word }
{
    for byte in frame {
        if byte.at / 8 == word {
            return true;
        }
    }
    false
}

/// The words of a frame of which a byte may change, in their order.
pub(crate) fn changed_words(alloc: Global, frame: &[FrameByte]) -> Result<Vec<u8>, AllocError>
    ensures words { IfOk result (λ words. words.items ≡ changed_words frame.now) }
    ensures few { IfOk result (λ words. length words.items ≤ 32) }
{
    let mut words = Vec::new(alloc);
    for word in 0..32u32 {
        if has_byte(frame, word) {
            words.push(word as u8)?;
        }
    }
    Ok(words)
}
