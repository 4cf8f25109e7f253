//! What a packet leaves, after all nodes.

ghost use Rattle.std.specs.Prelude.{◌≡◌, ◌<◌, ◌≤◌, ◌^◌, false, length, slice_index, IfOk, All};
ghost use Rattle.xdp_machine.specs.Arithmetic.{low};
ghost use Rattle.cell_core.specs.Formed.{AreFormed};
ghost use Rattle.cell_core.specs.Cells.{cell_at};
ghost use Rattle.operator_cells.specs.Making.{seen, Makes, MakesIf};
ghost use Rattle.operator_cells.specs.HeldCells.RegisterCells.{number_of, IsThere};
ghost use Rattle.predicate_core.specs.Buildable.{HasBits, AddsNoRow};
ghost use Rattle.predicate_core.specs.Making.{Answers};
ghost use Rattle.predicate_core.specs.Opening.{HaveBytes};
ghost use Rattle.predicate_core.specs.Closing.{output_of, bits_of, IsOutput, EndIsThere, AreOutputs, Outputs, OutputsWithin, AreFrameBytes};

use cell_core::cell::Cell;
use cell_core::program::FrameByte;
use kind_core::Number;
use operator_cells::cells::{constant, slice};
use operator_cells::held_cells::way::Exit;
use operator_cells::joining::{Arm, choose};
use operator_cells::laws::choice_is_right;
use std::alloc::AllocError;

/// A part of an answer.
#[derive(Copy, Clone, Debug, PartialEq, Eq)]
pub(crate) enum Output {
    Verdict,
    /// The target of a redirect.
    Target,
    /// A byte of the frame.
    Byte(u32),
}

/// The cells of an answer: of the frame the bytes that a store may change.
#[derive(Drop)]
pub struct Answer {
    pub verdict: u32,
    pub target: u32,
    pub frame: Vec<FrameByte>,
}

// The low 32 bits of a number.
fn low_word(cells: &mut Vec<Cell>, number: Number, held: u32) -> Result<u32, AllocError>
    requires { IsThere (length (seen cells.old.items)) number held }
    ensures makes { IfOk result (λ c. Makes (seen cells.old.items) (seen cells.new.items) c (λ packet v. low 32 (number_of v number held))) }
    ensures no_row { IfOk result (λ c. AddsNoRow (seen cells.old.items) (seen cells.new.items)) }
{
    match number {
        Number::Known(n) => {
            let c = constant(cells, n, 32)?;
            Ok(c)
        }
        Number::Between(_, _) => {
            let c = slice(cells, held, 0, 32)?;
            Ok(c)
        }
    }
}

// What an end holds of a part of the answer.
fn held_of(cells: &mut Vec<Cell>, exit: &Exit, output: Output) -> Result<u32, AllocError>
    requires output { IsOutput output }
    requires there { EndIsThere (length (seen cells.old.items)) exit.now }
    ensures makes { IfOk result (λ c. Makes (seen cells.old.items) (seen cells.new.items) c (λ packet v. output_of v output exit.now)) }
    ensures no_row { IfOk result (λ c. AddsNoRow (seen cells.old.items) (seen cells.new.items)) }
{
    match output {
        Output::Verdict => {
            let c = low_word(cells, exit.verdict, exit.held.registers[0])?;
            Ok(c)
        }
        Output::Target => Ok(exit.held.target),
        Output::Byte(i) => Ok(exit.held.window[i as usize]),
    }
}

// The same of all ends, with their guards.
fn outputs(cells: &mut Vec<Cell>, exits: &[Exit], output: Output) -> Result<Vec<Arm>, AllocError>
    requires output { IsOutput output }
    requires there { All (EndIsThere (length (seen cells.old.items))) exits.now }
    ensures { IfOk result (λ arms. AreOutputs (seen cells.old.items) (seen cells.new.items) exits.now output (length exits.now) arms.items) }
{
    let mut arms = Vec::new(*cells.allocator());
    for exit in exits {
        let cell = held_of(cells, exit, output)?;
        arms.push(Arm {
            bit: exit.guard,
            cell,
        })?;
    }
    Ok(arms)
}

// A part of the answer, in a cell of any width.
fn whole_output(cells: &mut Vec<Cell>, exits: &[Exit], output: Output) -> Result<u32, AllocError>
    requires formed { AreFormed (seen cells.old.items) }
    requires output { IsOutput output }
    requires there { All (EndIsThere (length (seen cells.old.items))) exits.now }
    ensures { IfOk result (λ c. Outputs (seen cells.old.items) (seen cells.new.items) exits.now output c) }
{
    choice_is_right();
    let arms = outputs(cells, exits, output)?;
    if arms.is_empty() {
        let c = constant(cells, 0, 1)?;
        return Ok(c);
    }
    let c = choose(cells, &arms)?;
    Ok(c)
}

// How many bits a part of the answer has at most.
fn bits_of(output: Output) -> u32
    ensures { result ≡ bits_of output }
{
    match output {
        Output::Verdict | Output::Target => 32,
        Output::Byte(_) => 8,
    }
}

// The width of a cell.
fn width_of(cells: &[Cell], cell: u32) -> u32
    requires { cell < length (seen cells.now) }
    ensures { result ≡ (cell_at (seen cells.now) cell).width }
{
    cells[cell as usize].width
}

// The same number in a cell of at most so many bits, if it fits: where the cell has more, its low ones.
fn narrow(cells: &mut Vec<Cell>, cell: u32, bits: u32) -> Result<u32, AllocError>
    requires there { cell < length (seen cells.old.items) }
    requires bits { bits ≤ 64 }
    ensures makes { IfOk result (λ c. MakesIf (seen cells.old.items) (seen cells.new.items) c (λ v. v cell < 2 ^ bits) (λ packet v. v cell)) }
    ensures is { IfOk result (λ c. HasBits (seen cells.new.items) bits c) }
    ensures no_row { IfOk result (λ c. AddsNoRow (seen cells.old.items) (seen cells.new.items)) }
{
    let width = width_of(cells, cell);
    if width <= bits {
        return Ok(cell);
    }
    let c = slice(cells, cell, 0, bits)?;
    Ok(c)
}

// A part of the answer.
fn output_cell(cells: &mut Vec<Cell>, exits: &[Exit], output: Output) -> Result<u32, AllocError>
    requires formed { AreFormed (seen cells.old.items) }
    requires output { IsOutput output }
    requires there { All (EndIsThere (length (seen cells.old.items))) exits.now }
    ensures { IfOk result (λ c. OutputsWithin (seen cells.old.items) (seen cells.new.items) exits.now output c) }
{
    let whole = whole_output(cells, exits, output)?;
    let c = narrow(cells, whole, bits_of(output))?;
    Ok(c)
}

// Whether an end holds another cell of a byte than the packet's own.
fn is_stored(exits: &[Exit], i: u32, own: u32) -> bool
    requires { i < 256 }
    ensures { result ≡ false → All (λ x. slice_index x.held.window i ≡ own) exits.now }
{
    for exit in exits {
        if exit.held.window[i as usize] != own {
            return true;
        }
    }
    false
}

// The bytes of the frame that a store may change.
fn frame_bytes(
    cells: &mut Vec<Cell>,
    exits: &[Exit],
    window: &[u32; 256],
) -> Result<Vec<FrameByte>, AllocError>
    requires formed { AreFormed (seen cells.old.items) }
    requires there { All (EndIsThere (length (seen cells.old.items))) exits.now }
    requires bytes { HaveBytes (seen cells.old.items) 256 window.now }
    ensures { IfOk result (λ frame. AreFrameBytes (seen cells.old.items) (seen cells.new.items) exits.now window.now 256 frame.items) }
{
    let mut frame = Vec::new(*cells.allocator());
    for i in 0..256 {
        if is_stored(exits, i, window[i as usize]) {
            let cell = output_cell(cells, exits, Output::Byte(i))?;
            frame.push(FrameByte { at: i, cell })?;
        }
    }
    Ok(frame)
}

/// The cells of the answer, by the ends of a program and the packet's own bytes.
pub fn close(
    cells: &mut Vec<Cell>,
    exits: &[Exit],
    window: &[u32; 256],
) -> Result<Answer, AllocError>
    requires formed { AreFormed (seen cells.old.items) }
    requires there { All (EndIsThere (length (seen cells.old.items))) exits.now }
    requires bytes { HaveBytes (seen cells.old.items) 256 window.now }
    ensures { IfOk result (λ a. Answers (seen cells.old.items) (seen cells.new.items) exits.now a.verdict a.target a.frame.items) }
{
    let verdict = output_cell(cells, exits, Output::Verdict)?;
    let target = output_cell(cells, exits, Output::Target)?;
    let frame = frame_bytes(cells, exits, window)?;
    Ok(Answer {
        verdict,
        target,
        frame,
    })
}
