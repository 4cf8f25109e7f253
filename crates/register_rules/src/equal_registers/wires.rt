//! Wires of one value.

ghost use Rattle.std.specs.Prelude.{◌≡◌, ◌<◌, ◌≤◌, List, [], length, map, IfOk};
ghost use Rattle.std.proofs.Common.{get_or};
ghost use Rattle.net_core.specs.declared.tree.Word.{Word};
ghost use Rattle.net_core.specs.View.{wire_of};
ghost use Rattle.net_core.specs.Value.{nothing};
ghost use Rattle.net_core.specs.Clock.{Stored, with_wires};
ghost use Rattle.register_rules.specs.EqualRegisters.Alike.{HoldFirsts};

use crate::equal_registers::alike::{Firsts, is_alike_right};
use net_core::design::Wire;
use std::alloc::{AllocError, Global};

// The wire that stands for the first one that is not listed yet: another, if it is before that and their right sides are alike, or
// itself.
fn first_wire(wires: &[Wire], registers: &[u32], firsts: &[u32], other: u32) -> u32
    requires few { length wires.now ≤ 4294967295 }
    requires further { length firsts.now < length wires.now }
    ensures { (ins : List Word) (s : Stored) → HoldFirsts registers.now s.registers → HoldFirsts firsts.now (with_wires ins s [] (map wire_of wires.now))
        → get_or (with_wires ins s [] (map wire_of wires.now)) (length firsts.now) nothing ≡ get_or (with_wires ins s [] (map wire_of wires.now)) result nothing }
{
    let own = firsts.len();
    let earlier = other as usize;
    if earlier < own {
        let both = Firsts {
            registers,
            left: firsts,
            right: &firsts[..earlier],
        };
        if is_alike_right(both, &wires[own].right, &wires[earlier].right) {
            return other;
        }
    }
    own as u32
}

/// For each wire one that has its value in each clock in which registers hold what those hold that are listed for them: the one that
/// is guessed, if it is before this one and their right sides are alike, or itself.
pub(crate) fn equal_wires(
    alloc: Global,
    wires: &[Wire],
    registers: &[u32],
    guessed: &[u32],
) -> Result<Vec<u32>, AllocError>
    requires { length wires.now ≤ 4294967295 }
    ensures { IfOk result (λ firsts. (ins : List Word) (s : Stored) → HoldFirsts registers.now s.registers → HoldFirsts firsts.items (with_wires ins s [] (map wire_of wires.now))) }
{
    let mut firsts = Vec::new(alloc);
    for i in 0..wires.len() {
        let other = guessed.get(i).copied().unwrap_or(0);
        let first = first_wire(wires, registers, &firsts, other);
        firsts.push(first)?;
    }
    Ok(firsts)
}
