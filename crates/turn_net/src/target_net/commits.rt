//! On which map an operation commits.

ghost use Rattle.std.specs.Prelude.{◌≡◌, All, length, IfOk};
ghost use Rattle.block_core.specs.View.{block_of};
ghost use Rattle.hazard_core.specs.cell_core.Cells.{bit};
ghost use Rattle.cell_nets.specs.Operands.{IsOperand};
ghost use Rattle.cell_nets.specs.Wires.{wires_of, always, Gives};
ghost use Rattle.cell_nets.specs.StepNets.Standing.{Stands};
ghost use Rattle.turn_net.specs.TargetNet.Commits.{bits_of, any_on, AreOn, IsCommits};

use block_core::block::{Block, BlockWire};
use block_core::name::{Name, Part};
use cell_nets::operand::Operand;
use cell_nets::operand_blocks::wiring::{named, wiring};
use cell_nets::step_nets::choose;
use std::alloc::{AllocError, Global};

/// The part, and its net of each map.
#[derive(Drop)]
pub struct CommitsPart<P: Drop> {
    pub block: Block<Name<P>>,
    pub commits: Vec<Name<P>>,
}

/// Whether one of some operations commits that are on a map.
fn commits_on<P: Copy>(
    alloc: Global,
    wires: &mut Vec<BlockWire<Name<P>>>,
    part: P,
    maps: &[u32],
    chosen: &[Operand<Name<P>>],
    map: u32,
) -> Result<Operand<Name<P>>, AllocError>
    requires count { length maps.now ≡ length chosen.now }
    requires chosen { All IsOperand chosen.now }
    ensures { IfOk result (Gives part (wires_of wires.old.items) (wires_of wires.new.items) chosen.now always (λ v. bit (any_on v maps.now chosen.now map (length chosen.now))) 1) }
{
    let mut any = Operand::Known(0);
    for i in 0..chosen.len() {
        if maps[i] == map {
            any = choose(alloc, wires, part, chosen[i], Operand::Known(1), any, 1)?;
        }
    }
    Ok(any)
}

/// The nets of so many maps.
fn commit_nets<P: Copy>(
    alloc: Global,
    wires: &mut Vec<BlockWire<Name<P>>>,
    part: P,
    count: u32,
    maps: &[u32],
    chosen: &[Operand<Name<P>>],
) -> Result<Vec<Name<P>>, AllocError>
    requires count { length maps.now ≡ length chosen.now }
    requires chosen { All IsOperand chosen.now }
    ensures many { IfOk result (λ r. length r.items ≡ count) }
    ensures stands { IfOk result (λ r. Stands part (wires_of wires.old.items) (wires_of wires.new.items) chosen.now always (bits_of r.items) (λ v. AreOn v maps.now chosen.now r.items)) }
{
    let mut all = Vec::new(alloc);
    for map in 0..count {
        let any = commits_on(alloc, wires, part, maps, chosen, map)?;
        all.push(named(alloc, wires, part, any, 1)?)?;
    }
    Ok(all)
}

/// The part that says of each of so many maps whether the operation that commits is on it, by the maps of the records and by which of these commits.
pub fn commits<P: Part>(
    alloc: Global,
    part: P,
    count: u32,
    maps: &[u32],
    chosen: &[Operand<Name<P>>],
) -> Result<CommitsPart<P>, AllocError>
    requires count { length maps.now ≡ length chosen.now }
    requires chosen { All IsOperand chosen.now }
    ensures { IfOk result (λ r. IsCommits part count maps.now chosen.now r.commits.items (block_of r.block)) }
{
    let mut wires = Vec::new(alloc);
    let commits = commit_nets(alloc, &mut wires, part, count, maps, chosen)?;
    let block = wiring(alloc, wires)?;
    Ok(CommitsPart { block, commits })
}
