//! The read of a load and of an atomic change.

ghost use Rattle.std.specs.Prelude.{ℕ, ◌≡◌, ◌∷◌, ◌/◌, ◌≤◌, true, All, IfOk};
ghost use Rattle.overlay_net.specs.xdp_machine.State.{PacketIn};
ghost use Rattle.overlay_net.specs.cell_core.declared.operator.Operator.TheVariants.{Answer};
ghost use Rattle.overlay_net.specs.cell_core.Cells.{CellView, bits_from};
ghost use Rattle.overlay_net.specs.cell_core.Sites.{ProgramView, site_at};
ghost use Rattle.pipe_core.specs.hazard_core.StageValues.{StageValues, access_pointer};
ghost use Rattle.pipe_core.specs.hazard_core.Rows.{cell_number};
ghost use Rattle.pipe_core.specs.hazard_core.Tables.{TableState};
ghost use Rattle.overlay_net.specs.cell_nets.Operands.{IsOperand};
ghost use Rattle.overlay_net.specs.cell_nets.Wires.{wires_of, Gives};
ghost use Rattle.overlay_net.specs.ValueNet.Pendings.{HasValue};
ghost use Rattle.overlay_net.specs.ValueNet.Words.{IsAligned, answers_number, access_start};
ghost use Rattle.read_net.specs.Sites.{cells_of, IsMap, IsWhole};
ghost use Rattle.read_net.specs.Reads.{taken, Shows, IsReadOf};
ghost use Rattle.read_net.specs.Accesses.{IsFitting, HaveOperands, ShowsWord};

use crate::pendings::pendings;
use crate::sites::{MapNets, OwnSite};
use block_core::block::BlockWire;
use block_core::name::Name;
use overlay_net::cell_nets::operand::Operand;
use overlay_net::value_net::answering::access_answer;
use std::alloc::{AllocError, Global};

/// So many bits, from one on, of what a load or an atomic change answers: the number under its pointer, over the packet's earlier operations on the map.
/// `word` is the word of the table in which it lies, where the pointer is to a slot.
pub fn access<P: Copy>(
    alloc: Global,
    wires: &mut Vec<BlockWire<Name<P>>>,
    part: P,
    map: &MapNets<'_, Name<P>>,
    site: &OwnSite<'_, Name<P>>,
    earlier: &[OwnSite<'_, Name<P>>],
    word: Operand<Name<P>>,
    from: u8,
    width: u8,
) -> Result<Operand<Name<P>>, AllocError>
    requires map { IsMap map.now }
    requires number { answers_number site.now.act ≡ true }
    requires aligned { IsAligned site.now.act }
    requires operands { All IsOperand (cells_of site.now) }
    requires earlier { All (IsWhole map.now) earlier.now }
    requires fitting { All (IsFitting map.now) earlier.now }
    requires word { IsOperand word }
    requires from { from ≤ 63 }
    requires width { width ≤ 64 }
    ensures { (p : ProgramView) (t : TableState) (h : StageValues) (row : ℕ → ℕ) (r : ℕ) (packet : PacketIn) (c : CellView) → let s = site_at p.sites site.now.site in
        IsReadOf p t row r map.now site.now earlier.now → HaveOperands p earlier.now → HasValue t s.map (access_pointer h s)
        → IfOk result (Gives part (wires_of wires.old.items) (wires_of wires.new.items) (word ∷ taken map.now site.now earlier.now)
        (λ v. Shows v p t h map.now site.now earlier.now × ShowsWord v t s.map (access_start site.now.act / 8) (access_pointer h s) word)
        (λ v. bits_from (cell_number p row r t packet h c (Answer site.now.site)) from width) width) }
{
    let pending = pendings(alloc, wires, part, map, earlier)?;
    let out = access_answer(
        alloc,
        wires,
        part,
        site.act,
        map.decl,
        &pending,
        site.nets.pointer,
        word,
        from,
        width,
    )?;
    Ok(out)
}
