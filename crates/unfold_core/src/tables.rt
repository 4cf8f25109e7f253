// Tables by which loops are found.

ghost use Rattle.std.specs.Prelude.{◌≡◌, ◌+◌, ◌≤◌, ◌<◌, ◌^◌, ◌↔◌, length, All, IfOk, IfSome, IsTrue, MatchOption, min};
ghost use Rattle.xdp_machine.specs.bpf_isa.Spelling.{IsInsn};
ghost use Rattle.unfold_core.specs.Jumps.{target_of};
ghost use Rattle.unfold_core.specs.Tables.{target_in, AreLast, recorded, AreListed, AreLoopsBelow, IsCrossed, IsLeastCrossed};

use crate::jumps::target;
use crate::nesting::Loop;
use std::alloc::{AllocError, Global};
use xdp_machine::bpf_isa::Insn;

// Records a jump back as the last one to its target.
fn record_jump(last: &mut [Option<u32>], place: u32, unit: &Option<Insn>)
    requires { IfSome unit.now IsInsn }
    ensures { last.new ≡ recorded last.old place (target_of place unit.now) }
{
    let Some(insn) = unit else {
        return;
    };
    if let Some(to) = target(place, insn) {
        if to <= u64::from(place) && to < last.len() as u64 {
            last[to as usize] = Some(place);
        }
    }
}

/// The last place, from a head on, that jumps to it, for each head below a bound.
pub(crate) fn last_jumps(
    alloc: Global,
    units: &[Option<Insn>],
    heads: usize,
) -> Result<Vec<Option<u32>>, AllocError>
    requires few { length units.now < 2 ^ 32 }
    requires legal { All (λ unit. IfSome unit IsInsn) units.now }
    ensures heads { IfOk result (λ last. length last.items ≡ heads) }
    ensures last { IfOk result (λ last. AreLast (target_in units.now) (length units.now) last.items) }
{
    let mut last: Vec<Option<u32>> = vec![in alloc; None; heads]?;
    for place in 0..units.len() {
        record_jump(&mut last, place as u32, &units[place]);
    }
    Ok(last)
}

/// The loops of a table, by their heads.
pub(crate) fn listed(alloc: Global, last: &[Option<u32>]) -> Result<Vec<Loop>, AllocError>
    requires { length last.now < 2 ^ 32 }
    ensures { IfOk result (λ ls. AreListed last.now (length last.now) ls.items) }
{
    let mut loops = Vec::new(alloc);
    for head in 0..last.len() {
        if let Some(end) = last[head] {
            loops.push(Loop {
                head: head as u32,
                last: end,
            })?;
        }
    }
    Ok(loops)
}

/// The loops with heads below a bound, by the instructions at each place.
pub(crate) fn loops_below(
    alloc: Global,
    units: &[Option<Insn>],
    heads: usize,
) -> Result<Vec<Loop>, AllocError>
    requires few { length units.now < 2 ^ 32 }
    requires heads { heads ≤ length units.now }
    requires legal { All (λ unit. IfSome unit IsInsn) units.now }
    ensures { IfOk result (λ ls. AreLoopsBelow (target_in units.now) (length units.now) heads ls.items) }
{
    let last = last_jumps(alloc, units, heads)?;
    listed(alloc, &last)
}

// Whether a loop begins inside one of these and ends after it.
fn is_crossed(earlier: &[Loop], inner: Loop) -> bool
    ensures { IsTrue result ↔ IsCrossed earlier.now inner }
{
    for outer in earlier {
        if inner.head <= outer.last && outer.last < inner.last {
            return true;
        }
    }
    false
}

// The lesser of two places.
fn lesser(least: Option<u32>, place: u32) -> u32
    ensures { MatchOption least (result ≡ place) (λ n. result ≡ min n place) }
{
    match least {
        Some(n) => n.min(place),
        None => place,
    }
}

// The least last place so far of a loop that is crossed, with the loop at an index.
fn with_loop(least: Option<u32>, loops: &[Loop], k: usize) -> Option<u32>
    requires { k < length loops.now }
    ensures { IsLeastCrossed loops.now k least → IsLeastCrossed loops.now (k + 1) result }
{
    if is_crossed(&loops[..k], loops[k]) {
        Some(lesser(least, loops[k].last))
    } else {
        least
    }
}

/// The least last place of a loop that begins inside an earlier one and ends after it.
pub(crate) fn least_crossed(loops: &[Loop]) -> Option<u32>
    ensures { IsLeastCrossed loops.now (length loops.now) result }
{
    let mut least = None;
    for k in 0..loops.len() {
        least = with_loop(least, loops, k);
    }
    least
}
