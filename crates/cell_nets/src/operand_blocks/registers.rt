//! Blocks with registers that take operands in every clock.

ghost use Rattle.std.specs.Prelude.{ℕ, List, ◌≡◌, ◌<◌, ◌^◌, All, length, IfOk, map as map_list};
ghost use Rattle.net_core.specs.View.{statement_of};
ghost use Rattle.block_core.specs.declared.name.Name.{Name};
ghost use Rattle.block_core.specs.View.{block_of};
ghost use Rattle.cell_nets.specs.declared.operand.Operand.{Operand};
ghost use Rattle.cell_nets.specs.Operands.{IsOperand, IsWide, IsAvailable};
ghost use Rattle.cell_nets.specs.Wires.{wires_of, behind, AreWires};
ghost use Rattle.cell_nets.specs.OperandBlocks.Registers.{operand_in, width_in, zero_word, IsRegistered};
ghost use Rattle.cell_nets.specs.OperandBlocks.Sets.{AreSets};

use crate::operand::Operand;
use crate::slice::slice;
use block_core::block::{Block, BlockWire};
use block_core::name::{Name, Part};
use net_core::build::{block, statements};
use net_core::tree::{Stmt, Word};
use std::alloc::{AllocError, Global};

/// What a register of so many bits takes in every clock: the low bits of an operand.
#[derive(Clone, Copy, PartialEq, Eq, Debug)]
pub struct Taken<N> {
    pub operand: Operand<N>,
    pub width: u8,
}

// The registers, which are 0 at first.
fn zeros<N: Copy>(alloc: Global, all: &[Taken<N>]) -> Result<Vec<Word>, AllocError>
    ensures { IfOk result (λ r. r.items ≡ map_list zero_word all.now) }
{
    let mut words = Vec::new(alloc);
    for taken in all {
        words.push(Word {
            width: taken.width,
            value: 0,
        })?;
    }
    Ok(words)
}

// Each register takes its operand.
fn sets<N: Copy>(alloc: Global, all: &[Taken<N>]) -> Result<Vec<Stmt<N>>, AllocError>
    requires few { length all.now < 2 ^ 32 }
    requires operands { All (λ t. IsOperand (operand_in t)) all.now }
    requires widths { All (λ t. IsWide (width_in t)) all.now }
    ensures { IfOk result (λ r. AreSets 0 all.now (map_list statement_of r.items)) }
{
    let mut listed = Vec::new(alloc);
    for k in 0..all.len() {
        let taken = all[k];
        let e = slice(alloc, taken.operand, 0, taken.width)?;
        listed.push(Stmt::Set(k as u32, e))?;
    }
    Ok(listed)
}

/// The block that has these wires, and registers that are 0 at first and take their operands in every clock. The operands are numbers, nets from outside,
/// or wires of the block; its own registers are among those from outside where it reads them.
pub fn registered<P: Part>(
    alloc: Global,
    wires: Vec<BlockWire<Name<P>>>,
    all: &[Taken<Name<P>>],
) -> Result<Block<Name<P>>, AllocError>
    requires few { length all.now < 2 ^ 32 }
    requires operands { All (λ t. IsOperand (operand_in t)) all.now }
    requires widths { All (λ t. IsWide (width_in t)) all.now }
    ensures { (part : P) (outside : List (Operand (Name P))) → AreWires part outside (wires_of wires.items) → All (IsAvailable (behind part outside (wires_of wires.items))) (map_list operand_in all.now) → IfOk result (λ b. IsRegistered part outside all.now (wires_of wires.items) (block_of b)) }
{
    let registers = zeros(alloc, all)?;
    let listed = statements(alloc, sets(alloc, all)?)?;
    let statement = block(alloc, listed)?;
    Ok(Block {
        registers,
        memories: Vec::new(alloc),
        wires,
        statement,
    })
}
