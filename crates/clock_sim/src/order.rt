//! The order in which steps are run: many of one kind stand side by side.

ghost use Rattle.std.specs.Prelude.{◌≡◌, ℕ, ◌+◌, ◌*◌, ◌^◌, ◌<◌, ◌≤◌, true, length, OnOk, IfOk};
ghost use Rattle.std.proofs.Common.{get_or};
ghost use Rattle.clock_sim.specs.Flat.{IsReading, AreReading, IsBehind, Climb};
ghost use Rattle.clock_sim.specs.Orders.{AreGroups, third_depth, depth_of, AreDepths, rank, Reordered};

use crate::step::{Group, Opcode, Step};
use std::alloc::{AllocError, Global};

// The depth of a step's third operand, where it has one.
fn third_depth(step: &Step, depths: &[u32]) -> u32
    requires { IsReading (length depths.now) step.now }
    ensures { result ≡ third_depth step.now.opcode depths.now step.now.number }
{
    match step.opcode {
        Opcode::Conditional => depths[step.number as usize],
        _ => 0,
    }
}

// One more than the depths of what a step reads.
fn depth_of(step: &Step, depths: &[u32]) -> u32
    requires reading { IsReading (length depths.now) step.now }
    requires behind { IsBehind 0 step.now }
    requires low { (k : ℕ) → get_or depths.now k 0 ≤ k }
    ensures { result ≡ depth_of depths.now step.now }
{
    let left = depths[step.a as usize];
    let right = depths[step.b as usize];
    let third = third_depth(step, depths);
    left.max(right).max(third) + 1
}

// How many steps deep the word of each slot lies: 0 where no step writes it.
fn depths_of(alloc: Global, steps: &[Step], count: usize) -> Result<Vec<u32>, AllocError>
    requires climb { Climb 0 steps.now }
    requires reading { AreReading count steps.now }
    ensures { IfOk result (λ v. AreDepths v.items steps.now) }
{
    let mut depths = vec![in alloc; 0u32; count]?;
    for step in steps {
        let depth = depth_of(step, &depths);
        depths[step.to as usize] = depth;
    }
    Ok(depths)
}

// By how deep its word lies, and then by its kind.
fn rank(step: &Step, depths: &[u32]) -> u64
    ensures { result ≡ rank depths.now step.now }
{
    let depth = depths.get(step.to as usize).copied().unwrap_or(0);
    u64::from(depth) * 32 + step.opcode as u64
}

/// Puts steps in an order that gives the same: those whose words lie equally deep do not read each other, so that the
/// kinds among them can stand together.
pub fn reorder(alloc: Global, steps: &mut Vec<Step>, count: usize) -> Result<(), AllocError>
    requires climb { Climb 0 steps.old.items }
    requires reading { AreReading count steps.old.items }
    ensures { OnOk result (Reordered count steps.old.items steps.new.items) }
{
    let depths = depths_of(alloc, steps, count)?;
    steps.sort_by_key(|step| rank(step, &depths))?;
    Ok(())
}

// Whether one more step of a kind belongs to a group.
fn takes(group: Group, opcode: Opcode) -> bool
    ensures { result ≡ true → (opcode ≡ group.opcode) × (group.count + 1 < 2 ^ 64) }
{
    group.opcode == opcode && group.count < usize::MAX
}

/// The groups in which steps stand.
pub fn groups_of(alloc: Global, steps: &[Step]) -> Result<Vec<Group>, AllocError>
    ensures { IfOk result (λ v. AreGroups v.items steps.now) }
{
    let mut groups = Vec::new(alloc);
    let mut last = Group {
        opcode: Opcode::Add,
        count: 0,
    };
    for step in steps {
        if takes(last, step.opcode) {
            last.count += 1;
        } else {
            groups.push(last)?;
            last = Group {
                opcode: step.opcode,
                count: 1,
            };
        }
    }
    groups.push(last)?;
    Ok(groups)
}
