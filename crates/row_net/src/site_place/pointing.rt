//! Nets for the pointers of the cells of a row.

ghost use Rattle.std.specs.Prelude.{ℕ, Bool, ◌≡◌, ◌≤◌, ◌<◌, List, [], All, length, slice_index, IfOk, map as map_list};
ghost use Rattle.overlay_net.specs.cell_core.Formed.{AreFormed, takes};
ghost use Rattle.overlay_net.specs.cell_core.View.{cell_of};
ghost use Rattle.cell_nets.specs.declared.operand.Operand.{Operand};
ghost use Rattle.cell_nets.specs.Operands.{IsOperand, IsWide};
ghost use Rattle.cell_nets.specs.Wires.{wires_of, HasBits};
ghost use Rattle.row_net.specs.Table.{Stands, IsIn, IsTable};
ghost use Rattle.row_net.specs.SitePlace.Pointing.{IsPointers, HoldsOf, is_edge, Takes, ArePointed};
ghost use Rattle.row_net.specs.SitePlace.PointerNets.{AreChoices, GivesPointer, IsPointerRow};

use block_core::block::BlockWire;
use block_core::name::Name;
use cell_nets::cell_core::cell::Cell;
use cell_nets::cell_core::operator::Operator;
use cell_nets::operand::Operand;
use cell_nets::phi::phi_wires;
use std::alloc::{AllocError, Global};

// What stands for a cell, or for its pointer, in a table that has it.
fn standing<N: Copy>(table: &[Option<Operand<N>>], cell: u32) -> Operand<N>
    requires { IsIn table.now cell }
    ensures { Stands table.now cell result }
{
    table[cell as usize].unwrap()
}

// What stands for an input of a join: for an edge its cell, for another one its pointer.
fn choice<N: Copy>(
    table: &[Option<Operand<N>>],
    pointers: &[Option<Operand<N>>],
    edge: bool,
    cell: u32,
) -> Operand<N>
    requires { HoldsOf (IsIn table.now) (IsIn pointers.now) edge cell }
    ensures { HoldsOf (λ i. Stands table.now i result) (λ i. Stands pointers.now i result) edge cell }
{
    if edge {
        standing(table, cell)
    } else {
        standing(pointers, cell)
    }
}

// The same of all inputs of a join.
fn choices<N: Copy>(
    alloc: Global,
    table: &[Option<Operand<N>>],
    pointers: &[Option<Operand<N>>],
    ins: &[u32],
) -> Result<Vec<Operand<N>>, AllocError>
    requires { (n : ℕ) → n < length ins.now → HoldsOf (IsIn table.now) (IsIn pointers.now) (is_edge n) (slice_index ins.now n) }
    ensures { IfOk result (λ args. AreChoices table.now pointers.now ins.now args.items) }
{
    let mut args = Vec::new(alloc);
    let mut edge = true;
    for cell in ins {
        args.push(choice(table, pointers, edge, *cell))?;
        edge = !edge;
    }
    Ok(args)
}

// What stands for the pointer that goes with a cell.
fn pointer<P: Copy>(
    alloc: Global,
    wires: &mut Vec<BlockWire<Name<P>>>,
    part: P,
    bits: u8,
    cell: &Cell,
    table: &[Option<Operand<Name<P>>>],
    pointers: &[Option<Operand<Name<P>>>],
) -> Result<Operand<Name<P>>, AllocError>
    requires bits { IsWide bits }
    requires enough { takes cell.now.op ≤ length (cell_of cell.now).ins }
    requires takes { Takes (IsIn table.now) (IsIn pointers.now) cell.now.op (cell_of cell.now).ins }
    requires operands { (k : ℕ) (a : Operand (Name P)) → Stands table.now k a → IsOperand a }
    requires pointers { (k : ℕ) (a : Operand (Name P)) → Stands pointers.now k a → IsOperand a }
    requires wide { (k : ℕ) (a : Operand (Name P)) → Stands pointers.now k a → HasBits bits a }
    ensures { IfOk result (GivesPointer part bits cell.now.op (cell_of cell.now).ins table.now pointers.now (wires_of wires.old.items) (wires_of wires.new.items)) }
{
    match cell.op {
        Operator::Wire => Ok(standing(pointers, cell.ins[0])),
        Operator::Phi => {
            let args = choices(alloc, table, pointers, &cell.ins)?;
            let out = phi_wires(alloc, wires, part, &args, bits)?;
            Ok(out)
        }
        _ => Ok(Operand::Known(0)),
    }
}

/// Makes the wires of the pointers that go with cells, in their order, and says in the table of pointers what stands for each, in so many bits. The
/// other table says what stands for cells.
pub fn pointer_nets<P: Copy>(
    alloc: Global,
    wires: &mut Vec<BlockWire<Name<P>>>,
    part: P,
    cells: &[Cell],
    bits: u8,
    made: &[u32],
    table: &[Option<Operand<Name<P>>>],
    pointers: &mut Vec<Option<Operand<Name<P>>>>,
) -> Result<(), AllocError>
    requires formed { AreFormed (map_list cell_of cells.now) }
    requires table { IsTable (map_list cell_of cells.now) table.now }
    requires bits { IsWide bits }
    requires pointers { IsPointers (map_list cell_of cells.now) bits pointers.old.items }
    requires pointed { ArePointed (map_list cell_of cells.now) table.now pointers.old.items [] made.now }
    ensures { IfOk result (λ done. IsPointerRow part (map_list cell_of cells.now) bits made.now table.now (wires_of wires.old.items) (wires_of wires.new.items) pointers.old.items pointers.new.items) }
{
    for number in made {
        let cell = &cells[*number as usize];
        let out = pointer(alloc, wires, part, bits, cell, table, pointers)?;
        pointers[*number as usize] = Some(out);
    }
    Ok(())
}
