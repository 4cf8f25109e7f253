//! The marks of a packet, and whether one of them calls for a reload.

ghost use Rattle.std.specs.Prelude.{ℕ, Bool, List, ◌∷◌, ◌&&◌, ◌||◌, All, IfOk};
ghost use Rattle.std.specs.List.{list_any};
ghost use Rattle.overlay_net.specs.cell_core.Cells.{bit, on};
ghost use Rattle.overlay_net.specs.cell_core.Sites.{ProgramView, site_at};
ghost use Rattle.pipe_core.specs.hazard_core.StageValues.{StageValues};
ghost use Rattle.pipe_core.specs.hazard_core.Marks.{known_on};
ghost use Rattle.overlay_net.specs.cell_nets.Operands.{IsOperand, number_in};
ghost use Rattle.overlay_net.specs.cell_nets.Wires.{wires_of, always, HasBits, Gives};
ghost use Rattle.read_net.specs.TouchNet.Marking.{guard_operands, mark_operands, HasOperands, shown_reload, AreKnown, ShowMarks};

use crate::touch_net::steps::either;
use block_core::block::BlockWire;
use block_core::name::Name;
use overlay_net::cell_nets::operand::Operand;
use overlay_net::cell_nets::step_nets::{both, truth};
use std::alloc::{AllocError, Global};

/// What stands for the mark of a packet at a site, and for the guard of the site where it is known. Where this is known as 0 what stands for the mark
/// may say anything: such a mark never calls for a reload.
#[derive(Copy, Clone)]
pub struct MarkNets<N> {
    pub marked: Operand<N>,
    pub guard: Option<Operand<N>>,
}

/// Whether a bit is 1, or a mark whose guard is known as 1.
fn reload_also<P: Copy>(
    alloc: Global,
    wires: &mut Vec<BlockWire<Name<P>>>,
    part: P,
    reload: Operand<Name<P>>,
    mark: &MarkNets<Name<P>>,
) -> Result<Operand<Name<P>>, AllocError>
    requires reload { IsOperand reload }
    requires mark { HasOperands mark.now }
    ensures { IfOk result (Gives part (wires_of wires.old.items) (wires_of wires.new.items) (reload ∷ mark.now.marked ∷ guard_operands mark.now.guard) always (λ v. bit (on (number_in v reload) || shown_reload v mark.now)) 1) }
{
    match mark.guard {
        Some(guard) => {
            let sent = both(alloc, wires, part, mark.marked, guard)?;
            let out = either(alloc, wires, part, reload, sent)?;
            Ok(out)
        }
        None => {
            let out = truth(alloc, wires, part, reload)?;
            Ok(out)
        }
    }
}

/// Whether one of several marks of a packet must reload, since its guard is known as 1: 1 or 0.
pub fn reload_net<P: Copy>(
    alloc: Global,
    wires: &mut Vec<BlockWire<Name<P>>>,
    part: P,
    marks: &[MarkNets<Name<P>>],
) -> Result<Operand<Name<P>>, AllocError>
    requires { All HasOperands marks.now }
    ensures operand { IfOk result IsOperand }
    ensures bits { IfOk result (HasBits 1) }
    ensures shown { IfOk result (Gives part (wires_of wires.old.items) (wires_of wires.new.items) (mark_operands marks.now) always (λ v. bit (list_any (shown_reload v) marks.now)) 1) }
    ensures given { (p : ProgramView) (row : ℕ → ℕ) (r : ℕ) (h : StageValues) (js : List ℕ) (marked : ℕ → Bool) → AreKnown p row r js marks.now → IfOk result (Gives part (wires_of wires.old.items) (wires_of wires.new.items) (mark_operands marks.now)
        (λ v. ShowMarks v p row r h marked js marks.now) (λ v. bit (list_any (λ j. marked j && known_on row r h (site_at p.sites j)) js)) 1) }
{
    let mut reload = Operand::Known(0);
    for mark in marks {
        reload = reload_also(alloc, wires, part, reload, mark)?;
    }
    Ok(reload)
}
