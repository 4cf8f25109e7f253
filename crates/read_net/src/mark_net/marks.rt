//! The block that keeps the marks of the packet at a place.

ghost use Rattle.std.specs.Prelude.{ℕ, List, [], ◌∷◌, ◌≡◌, ◌^◌, ◌<◌, All, length, IfOk, map as map_list};
ghost use Rattle.block_core.specs.View.{block_of};
ghost use Rattle.overlay_net.specs.xdp_maps.declared.decl.MapDecl.{MapDecl};
ghost use Rattle.overlay_net.specs.cell_core.Sites.{ProgramView};
ghost use Rattle.overlay_net.specs.cell_nets.Operands.{IsOperand};
ghost use Rattle.overlay_net.specs.cell_nets.Wires.{wires_of, always};
ghost use Rattle.overlay_net.specs.cell_nets.StepNets.Standing.{Stands};
ghost use Rattle.overlay_net.specs.cell_nets.OperandBlocks.Registers.{operand_in};
ghost use Rattle.read_net.specs.MarkNet.Sites.{site_operands, outside, HasOperands, IsMarkSite, AreMarkSites};
ghost use Rattle.read_net.specs.MarkNet.Marks.{IsBit, TakesMark, TakeMarks, IsMarks};

use crate::mark_net::nets::MarkSite;
use crate::touch_net::steps::either;
use crate::touch_net::touch::touches;
use block_core::block::{Block, BlockWire};
use block_core::name::{Name, Part};
use overlay_net::cell_nets::operand::Operand;
use overlay_net::cell_nets::operand_blocks::registers::{Taken, registered};
use overlay_net::cell_nets::step_nets::{both, choose, truth};
use std::alloc::{AllocError, Global};

// What the register of a site takes: the mark of the packet that comes, or the mark that stands or is made in this clock.
fn next_mark<P: Copy>(
    alloc: Global,
    wires: &mut Vec<BlockWire<Name<P>>>,
    part: P,
    advance: Name<P>,
    mark: &MarkSite<'_, Name<P>>,
) -> Result<Operand<Name<P>>, AllocError>
    requires { HasOperands mark.now }
    ensures operand { IfOk result IsOperand }
    ensures stands { (p : ProgramView) (decls : List MapDecl) → IsMarkSite p decls mark.now → IfOk result (λ o. Stands part (wires_of wires.old.items) (wires_of wires.new.items) (Operand.Net advance 1 ∷ site_operands mark.now) always (o ∷ []) (λ v. TakesMark v p decls advance mark.now o)) }
{
    let touched = touches(
        alloc,
        wires,
        part,
        mark.act,
        mark.decl,
        mark.nets,
        mark.owns,
        &mark.change,
    )?;
    let hit = both(alloc, wires, part, mark.comes, touched)?;
    let stays = either(alloc, wires, part, mark.was, hit)?;
    let before = truth(alloc, wires, part, mark.before)?;
    let moves = Operand::Net(advance, 1);
    let out = choose(alloc, wires, part, moves, before, stays, 1)?;
    Ok(out)
}

// What the registers of several sites take.
fn next_marks<P: Copy>(
    alloc: Global,
    wires: &mut Vec<BlockWire<Name<P>>>,
    part: P,
    advance: Name<P>,
    sites: &[MarkSite<'_, Name<P>>],
) -> Result<Vec<Taken<Name<P>>>, AllocError>
    requires { All HasOperands sites.now }
    ensures count { IfOk result (λ r. length r.items ≡ length sites.now) }
    ensures bits { IfOk result (λ r. All IsBit r.items) }
    ensures stand { (p : ProgramView) (decls : List MapDecl) → AreMarkSites p decls sites.now → IfOk result (λ r. Stands part (wires_of wires.old.items) (wires_of wires.new.items) (outside advance sites.now) always (map_list operand_in r.items) (λ v. TakeMarks v p decls advance sites.now r.items)) }
{
    let mut all = Vec::new(alloc);
    for site in sites {
        let operand = next_mark(alloc, wires, part, advance, site)?;
        all.push(Taken { operand, width: 1 })?;
    }
    Ok(all)
}

/// The block of the marks of the packet at a place: a register of one bit for each of these sites, 0 at first.
///
/// Where `advance` is 1 the packets move on, and each register takes the mark of the packet that comes. Else the packet stays, and a mark stands that
/// stood before, or that a change of the site's map in this clock makes since it touches what the packet read there.
pub fn marks<P: Part>(
    alloc: Global,
    part: P,
    advance: Name<P>,
    sites: &[MarkSite<'_, Name<P>>],
) -> Result<Block<Name<P>>, AllocError>
    requires few { length sites.now < 2 ^ 31 }
    requires operands { All HasOperands sites.now }
    ensures { (p : ProgramView) (decls : List MapDecl) → AreMarkSites p decls sites.now → IfOk result (λ b. IsMarks p decls part advance sites.now (block_of b)) }
{
    let mut wires = Vec::new(alloc);
    let taken = next_marks(alloc, &mut wires, part, advance, sites)?;
    let block = registered(alloc, wires, &taken)?;
    Ok(block)
}
