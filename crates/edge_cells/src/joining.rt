//! Where edges meet at a node.

ghost use Rattle.std.specs.Prelude.{◌≡◌, ◌<◌, ◌≤◌, length, IfOk, All, map as map_list};
ghost use Rattle.cell_core.specs.Formed.{AreFormed};
ghost use Rattle.operator_cells.specs.Making.{seen};
ghost use Rattle.operator_cells.specs.Rising.{Rises};
ghost use Rattle.operator_cells.specs.HeldCells.RegisterCells.{pointed};
ghost use Rattle.operator_cells.specs.HeldCells.Rows.{bits_row, JoinsTo};
ghost use Rattle.edge_cells.specs.Widening.{AreWider, AreFilled};
ghost use Rattle.edge_cells.specs.Meeting.{AreWays, MeetRow};
ghost use Rattle.edge_cells.specs.Joining.{Guards, Joins};
ghost use Rattle.edge_cells.specs.Rows.{MeetRowTo};
ghost use Rattle.edge_cells.specs.Pointing.{MeetRowPoints, JoinPoints};

use crate::meeting::meet;
use crate::part::Part;
use cell_core::cell::Cell;
use kind_core::Kinds;
use operator_cells::held_cells::machine_cells::{Pointer, RegisterCells};
use operator_cells::held_cells::way::Way;
use operator_cells::joining::guard;
use std::alloc::{AllocError, Global};
use xdp_machine::xdp_maps::decl::MapDecl;

/// The guard of a node, the cell that is 1 where the node is on the path of a packet, and what is held there.
#[derive(Copy, Clone, Debug, PartialEq, Eq)]
pub struct Here {
    pub guard: u32,
    pub held: RegisterCells,
}

// The bits of edges.
fn bits_of(alloc: Global, ways: &[Way]) -> Result<Vec<u32>, AllocError>
    ensures { IfOk result (λ bits. bits.items ≡ map_list (λ e. e.bit) ways.now) }
{
    ways.iter().map(|way| way.bit).collect(alloc)
}

// The same as one.
fn meet_bits(cells: &mut Vec<Cell>, ways: &[Way]) -> Result<u32, AllocError>
    requires some { 1 ≤ length ways.now }
    requires there { All (λ e. e.bit < length (seen cells.old.items)) ways.now }
    ensures guards { IfOk result (λ c. Guards (seen cells.old.items) (seen cells.new.items) ways.now c) }
    ensures rises { IfOk result (λ c. Rises (seen cells.old.items) (seen cells.new.items) c (λ row. bits_row row ways.now)) }
{
    if ways.len() == 1 {
        return Ok(ways[0].bit);
    }
    let bits = bits_of(*cells.allocator(), ways)?;
    let c = guard(cells, &bits)?;
    Ok(c)
}

// What edges bring to registers.
fn meet_registers(
    cells: &mut Vec<Cell>,
    pointers: &mut Vec<Pointer>,
    decls: &[MapDecl],
    ways: &[Way],
    kinds: &Kinds,
) -> Result<[u32; 11], AllocError>
    requires formed { AreFormed (seen cells.old.items) }
    requires some { 1 ≤ length ways.now }
    requires there { AreWays decls.now (seen cells.old.items) (pointed pointers.old.items) ways.now }
    requires wider { All (λ e. AreWider kinds.now e.kinds) ways.now }
    ensures meets { IfOk result (λ held. MeetRow decls.now (seen cells.old.items) (seen cells.new.items) (pointed pointers.old.items) (pointed pointers.new.items) ways.now kinds.now Part.Register 11 held) }
    ensures rises { IfOk result (λ held. MeetRowTo (seen cells.old.items) (seen cells.new.items) (pointed pointers.old.items) (pointed pointers.new.items) ways.now kinds.now Part.Register 11 held) }
    ensures points { IfOk result (λ held. MeetRowPoints decls.now (seen cells.new.items) (pointed pointers.old.items) (pointed pointers.new.items) ways.now kinds.now Part.Register 11 held) }
{
    let mut held = [0; 11];
    for i in 0..11 {
        let c = meet(cells, pointers, decls, ways, kinds, Part::Register(i))?;
        held[i] = c;
    }
    Ok(held)
}

// What edges bring to slots of the stack.
fn meet_slots(
    cells: &mut Vec<Cell>,
    pointers: &mut Vec<Pointer>,
    decls: &[MapDecl],
    ways: &[Way],
    kinds: &Kinds,
) -> Result<[u32; 64], AllocError>
    requires formed { AreFormed (seen cells.old.items) }
    requires some { 1 ≤ length ways.now }
    requires there { AreWays decls.now (seen cells.old.items) (pointed pointers.old.items) ways.now }
    requires wider { All (λ e. AreWider kinds.now e.kinds) ways.now }
    ensures meets { IfOk result (λ held. MeetRow decls.now (seen cells.old.items) (seen cells.new.items) (pointed pointers.old.items) (pointed pointers.new.items) ways.now kinds.now Part.Slot 64 held) }
    ensures rises { IfOk result (λ held. MeetRowTo (seen cells.old.items) (seen cells.new.items) (pointed pointers.old.items) (pointed pointers.new.items) ways.now kinds.now Part.Slot 64 held) }
    ensures points { IfOk result (λ held. MeetRowPoints decls.now (seen cells.new.items) (pointed pointers.old.items) (pointed pointers.new.items) ways.now kinds.now Part.Slot 64 held) }
{
    let mut held = [0; 64];
    for i in 0..64 {
        let c = meet(cells, pointers, decls, ways, kinds, Part::Slot(i))?;
        held[i] = c;
    }
    Ok(held)
}

// What edges bring to the bytes of the packet.
fn meet_window(
    cells: &mut Vec<Cell>,
    pointers: &mut Vec<Pointer>,
    decls: &[MapDecl],
    ways: &[Way],
    kinds: &Kinds,
) -> Result<[u32; 256], AllocError>
    requires formed { AreFormed (seen cells.old.items) }
    requires some { 1 ≤ length ways.now }
    requires there { AreWays decls.now (seen cells.old.items) (pointed pointers.old.items) ways.now }
    requires wider { All (λ e. AreWider kinds.now e.kinds) ways.now }
    ensures meets { IfOk result (λ held. MeetRow decls.now (seen cells.old.items) (seen cells.new.items) (pointed pointers.old.items) (pointed pointers.new.items) ways.now kinds.now Part.Byte 256 held) }
    ensures rises { IfOk result (λ held. MeetRowTo (seen cells.old.items) (seen cells.new.items) (pointed pointers.old.items) (pointed pointers.new.items) ways.now kinds.now Part.Byte 256 held) }
{
    let mut held = [0; 256];
    for i in 0..256 {
        let c = meet(cells, pointers, decls, ways, kinds, Part::Byte(i))?;
        held[i] = c;
    }
    Ok(held)
}

/// Where edges meet: the guard is 1 where one of them is on, and what is held is what the first edge that is on holds.
pub fn join(
    cells: &mut Vec<Cell>,
    pointers: &mut Vec<Pointer>,
    decls: &[MapDecl],
    ways: &[Way],
    kinds: &Kinds,
) -> Result<Here, AllocError>
    requires formed { AreFormed (seen cells.old.items) }
    requires some { 1 ≤ length ways.now }
    requires there { AreWays decls.now (seen cells.old.items) (pointed pointers.old.items) ways.now }
    requires wider { All (λ e. AreWider kinds.now e.kinds) ways.now }
    requires filled { AreFilled kinds.now }
    ensures joins { IfOk result (λ here. Joins decls.now (seen cells.old.items) (seen cells.new.items) (pointed pointers.old.items) (pointed pointers.new.items) ways.now kinds.now here.guard here.held) }
    ensures rows { IfOk result (λ here. JoinsTo (seen cells.old.items) (seen cells.new.items) (pointed pointers.old.items) (pointed pointers.new.items) ways.now kinds.now here.guard here.held) }
    ensures points { IfOk result (λ here. JoinPoints decls.now (seen cells.new.items) (pointed pointers.old.items) (pointed pointers.new.items) ways.now kinds.now here.held) }
{
    let guard = meet_bits(cells, ways)?;
    let registers = meet_registers(cells, pointers, decls, ways, kinds)?;
    let slots = meet_slots(cells, pointers, decls, ways, kinds)?;
    let window = meet_window(cells, pointers, decls, ways, kinds)?;
    let target = meet(cells, pointers, decls, ways, kinds, Part::Target)?;
    let held = RegisterCells {
        registers,
        slots,
        window,
        target,
    };
    Ok(Here { guard, held })
}
