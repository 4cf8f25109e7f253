//! Where edges lead to a node.

ghost use Rattle.std.specs.Prelude.{ℕ, ◌<◌, ◌≤◌, List, length, IfOk, All};
ghost use Rattle.cell_core.specs.Formed.{AreFormed};
ghost use Rattle.operator_cells.specs.Making.{seen};
ghost use Rattle.operator_cells.specs.Rising.{Rises};
ghost use Rattle.operator_cells.specs.declared.held_cells.way.Way.{Way};
ghost use Rattle.operator_cells.specs.HeldCells.RegisterCells.{pointed};
ghost use Rattle.operator_cells.specs.HeldCells.Rows.{JoinsTo};
ghost use Rattle.edge_cells.specs.Widening.{AreWider, AreFilled};
ghost use Rattle.edge_cells.specs.Meeting.{AreWays};
ghost use Rattle.edge_cells.specs.Joining.{LeadTo};
ghost use Rattle.predicate_core.specs.Arriving.{IsOwn, ArrivesAt};
ghost use Rattle.predicate_core.specs.Pointing.{ArrivePoints};

use cell_core::cell::Cell;
use edge_cells::joining::{Here, join};
use edge_cells::laws::here_is_right;
use kind_core::Kinds;
use operator_cells::cells::copy_bit;
use operator_cells::held_cells::machine_cells::Pointer;
use operator_cells::held_cells::way::Way;
use std::alloc::AllocError;
use xdp_machine::xdp_maps::decl::MapDecl;

// A bit that a node makes itself: the bit of its only edge once more.
fn own(cells: &mut Vec<Cell>, first: usize, bit: u32) -> Result<u32, AllocError>
    requires first { first ≤ length (seen cells.old.items) }
    requires bit { bit < length (seen cells.old.items) }
    ensures own { IfOk result (λ c. IsOwn (seen cells.old.items) (seen cells.new.items) first bit c) }
    ensures rises { IfOk result (λ c. Rises (seen cells.old.items) (seen cells.new.items) c (λ row. row bit)) }
{
    if first <= bit as usize {
        return Ok(bit);
    }
    let c = copy_bit(cells, bit)?;
    Ok(c)
}

/// Where these edges meet, which are all that lead to a node: a guard that the node makes itself, which is 1 where one of the edges is on, and what is held.
pub fn arrive(
    cells: &mut Vec<Cell>,
    pointers: &mut Vec<Pointer>,
    decls: &[MapDecl],
    kinds: &Kinds,
    meeting: &[Way],
) -> Result<Here, AllocError>
    requires formed { AreFormed (seen cells.old.items) }
    requires some { 1 ≤ length meeting.now }
    requires there { AreWays decls.now (seen cells.old.items) (pointed pointers.old.items) meeting.now }
    requires wider { All (λ e. AreWider kinds.now e.kinds) meeting.now }
    requires filled { AreFilled kinds.now }
    ensures arrives { (node : ℕ) (ways : List Way) → LeadTo node ways meeting.now → IfOk result (λ here. ArrivesAt decls.now node kinds.now (seen cells.old.items) (pointed pointers.old.items) ways (seen cells.new.items) (pointed pointers.new.items) here.guard here.held) }
    ensures rows { IfOk result (λ here. JoinsTo (seen cells.old.items) (seen cells.new.items) (pointed pointers.old.items) (pointed pointers.new.items) meeting.now kinds.now here.guard here.held) }
    ensures points { (node : ℕ) (ways : List Way) → LeadTo node ways meeting.now → IfOk result (λ here. ArrivePoints decls.now node kinds.now (seen cells.new.items) (pointed pointers.old.items) (pointed pointers.new.items) ways here.guard here.held) }
{
    here_is_right();
    let first = cells.len();
    let here = join(cells, pointers, decls, meeting, kinds)?;
    let guard = own(cells, first, here.guard)?;
    Ok(Here {
        guard,
        held: here.held,
    })
}
