//! A place where packets may stay, with pointers.

ghost use Rattle.std.specs.Prelude.{ℕ, Bool, ◌≡◌, ◌<◌, ◌⊎◌, List, All, Contains, IfOk, length, map as map_list};
ghost use Rattle.net_core.specs.Value.{Env};
ghost use Rattle.block_core.specs.ProductBlocks.Alone.{IsApartAlone};
ghost use Rattle.block_core.specs.declared.name.Name.{Name};
ghost use Rattle.block_core.specs.Parts.{Solve};
ghost use Rattle.block_core.specs.View.{block_of};
ghost use Rattle.overlay_net.specs.cell_core.Formed.{AreFormed};
ghost use Rattle.overlay_net.specs.cell_core.View.{cell_of};
ghost use Rattle.cell_nets.specs.declared.operand.Operand.{Operand};
ghost use Rattle.cell_nets.specs.declared.operand.Operand.TheVariants.{Net};
ghost use Rattle.cell_nets.specs.Operands.{IsWide};
ghost use Rattle.cell_nets.specs.Wires.{behind, wires_of, AreWires};
ghost use Rattle.row_net.specs.Table.{IsIn, IsTable, AreThere};
ghost use Rattle.row_net.specs.Made.{IsReady};
ghost use Rattle.row_net.specs.Apart.{TakeClean, KeepApart};
ghost use Rattle.row_net.specs.PlaceNet.Place.{width_at};
ghost use Rattle.row_net.specs.SitePlace.Pointing.{IsPointers, ArePointed};
ghost use Rattle.row_net.specs.SitePlace.Inputs.{cell_input, pointer_input};
ghost use Rattle.row_net.specs.SitePlace.SitePlace.{IsSitePlace};

use crate::row::row_nets;
use crate::site_place::holding::{Input, registers, statement, values};
use crate::site_place::pointing::pointer_nets;
use block_core::block::{Block, BlockWire};
use block_core::name::{Name, Part};
use cell_nets::cell_core::cell::Cell;
use cell_nets::operand::Operand;
use std::alloc::{AllocError, Global};

// How many bits a cell has.
fn width(cells: &[Cell], number: u32) -> u8
    requires formed { AreFormed (map_list cell_of cells.now) }
    requires within { number < length cells.now }
    ensures { result ≡ width_at (map_list cell_of cells.now) number }
{
    cells[number as usize].width as u8
}

// What the registers of cells take.
fn cell_inputs<N: Copy>(
    alloc: Global,
    cells: &[Cell],
    table: &[Option<Operand<N>>],
    carried: &[u32],
) -> Result<Vec<Input<N>>, AllocError>
    requires formed { AreFormed (map_list cell_of cells.now) }
    requires within { All (λ k. k < length cells.now) carried.now }
    requires count { length table.now ≡ length cells.now }
    ensures { IfOk result (λ r. r.items ≡ map_list (cell_input (map_list cell_of cells.now) table.now) carried.now) }
{
    let mut all = Vec::new(alloc);
    for number in carried {
        let width = width(cells, *number);
        let operand = table[*number as usize];
        all.push(Input { operand, width })?;
    }
    Ok(all)
}

// What the registers of pointers take.
fn pointer_inputs<N: Copy>(
    alloc: Global,
    bits: u8,
    pointers: &[Option<Operand<N>>],
    carried: &[u32],
) -> Result<Vec<Input<N>>, AllocError>
    requires { All (λ k. k < length pointers.now) carried.now }
    ensures { IfOk result (λ r. r.items ≡ map_list (pointer_input bits pointers.now) carried.now) }
{
    let mut all = Vec::new(alloc);
    for number in carried {
        let operand = pointers[*number as usize];
        all.push(Input {
            operand,
            width: bits,
        })?;
    }
    Ok(all)
}

/// A place of the pipeline where packets may stay: after wires that it has, those of the cells that are made there, in this order, and those of the
/// pointers that go with them, and registers for the cells and then for the pointers that the next place takes. These take what stands for
/// them in a clock in which the net `advance`, of one bit, is 1, and else they keep what they hold.
///
/// The tables say what stands for cells before the place, and for the numbers of their pointers, of so many bits: for those that are the same for all packets, those
/// that come from outside, as the answers of reads and their pointers do, and those that the place before carries. The wires that it has stay the first ones. Where
/// these and the made cells have their products apart, so has the block.
pub fn site_place<P: Part>(
    alloc: Global,
    part: P,
    advance: Name<P>,
    wires: Vec<BlockWire<Name<P>>>,
    cells: &[Cell],
    made: &[u32],
    table: Vec<Option<Operand<Name<P>>>>,
    carried: &[u32],
    bits: u8,
    made_pointers: &[u32],
    pointers: Vec<Option<Operand<Name<P>>>>,
    carried_pointers: &[u32],
) -> Result<Block<Name<P>>, AllocError>
    requires formed { AreFormed (map_list cell_of cells.now) }
    requires table { IsTable (map_list cell_of cells.now) table.items }
    requires ready { IsReady (map_list cell_of cells.now) table.items made.now }
    requires carried { All (λ k. IsIn table.items k ⊎ Contains made.now k) carried.now }
    requires some { All (λ k. 0 < width_at (map_list cell_of cells.now) k) carried.now }
    requires bits { IsWide bits }
    requires pointers { IsPointers (map_list cell_of cells.now) bits pointers.items }
    requires pointed { ArePointed (map_list cell_of cells.now) table.items pointers.items made.now made_pointers.now }
    requires carried_pointers { All (λ k. IsIn pointers.items k ⊎ Contains made_pointers.now k) carried_pointers.now }
    ensures block { (outside : List (Operand (Name P))) → Contains outside (Net advance 1) → AreWires part outside (wires_of wires.items) → AreThere (behind part outside (wires_of wires.items)) table.items → AreThere (behind part outside (wires_of wires.items)) pointers.items
        → IfOk result (λ b. IsSitePlace part (map_list cell_of cells.now) made.now carried.now made_pointers.now carried_pointers.now bits outside table.items pointers.items advance (block_of b)) }
    ensures begun { IfOk result (λ b. (v : Env (Name P)) → Solve v part 0 (block_of b).wires → Solve v part 0 (wires_of wires.items)) }
    ensures apart { (clean : ℕ → Bool) (marks : List Bool) → TakeClean clean (map_list cell_of cells.now) made.now → KeepApart part clean marks (wires_of wires.items) table.items → IfOk result (λ b. IsApartAlone part (block_of b)) }
{
    let mut wires = wires;
    let mut table = table;
    let mut pointers = pointers;
    row_nets(alloc, &mut wires, part, cells, made, &mut table)?;
    pointer_nets(
        alloc,
        &mut wires,
        part,
        cells,
        bits,
        made_pointers,
        &table,
        &mut pointers,
    )?;
    let mut inputs = cell_inputs(alloc, cells, &table, carried)?;
    let mut more = pointer_inputs(alloc, bits, &pointers, carried_pointers)?;
    inputs.append(&mut more)?;
    let registers = registers(alloc, &inputs)?;
    let values = values(alloc, &inputs)?;
    let statement = statement(alloc, advance, values)?;
    Ok(Block {
        registers,
        memories: Vec::new(alloc),
        wires,
        statement,
    })
}
