//! Whether registers repeat those that are listed for them.

ghost use Rattle.std.specs.Prelude.{◌≡◌, ◌<◌, ◌≤◌, ℕ, true, List, [], length, map, IfOk};
ghost use Rattle.std.proofs.Common.{get_or};
ghost use Rattle.net_core.specs.declared.tree.Net.{Net};
ghost use Rattle.net_core.specs.Nets.{StatementTree};
ghost use Rattle.net_core.specs.Value.{nothing, Env};
ghost use Rattle.net_core.specs.Clock.{first_words};
ghost use Rattle.register_rules.specs.EqualRegisters.Alike.{AreAlike, Repeats};
ghost use Rattle.register_rules.specs.EqualRegisters.Settings.{setting_of, block_settings, list_at, AreListed, IsSetAlike};
ghost use Rattle.register_rules.specs.NarrowRegisters.Narrow.{Each};

use crate::equal_registers::alike::{Firsts, first, is_alike};
use crate::equal_registers::settings::Setting;
use net_core::design::Declared;
use net_core::tree::Word;
use std::alloc::{AllocError, Global};

/// The first word of each register.
pub(crate) fn declared_words(alloc: Global, declared: &[Declared]) -> Result<Vec<Word>, AllocError>
    ensures { IfOk result (λ words. words.items ≡ first_words declared.now) }
{
    let mut words = Vec::new(alloc);
    for item in declared {
        if let Declared::Register(word) = item {
            words.push(*word)?;
        }
    }
    Ok(words)
}

// Whether what is set of two registers is set at the same places, to the same.
fn are_set_alike(firsts: Firsts, a: &[Setting], b: &[Setting]) -> bool
    ensures { result ≡ true → (v : Env Net) → AreAlike firsts.entry.registers.now firsts.entry.left.now firsts.entry.right.now v v → Each (IsSetAlike v) (map setting_of a.now) (map setting_of b.now) }
{
    if a.len() != b.len() {
        return false;
    }
    for i in 0..a.len() {
        let (x, y) = (a[i], b[i]);
        if x.place != y.place || !is_alike(firsts, x.value, y.value) {
            return false;
        }
    }
    true
}

// Whether two registers are listed, and set alike.
fn keeps_alike(firsts: Firsts, lists: &[Vec<Setting>], j: u32, k: u32) -> bool
    ensures { result ≡ true → (v : Env Net) → AreAlike firsts.entry.registers.now firsts.entry.left.now firsts.entry.right.now v v → Each (IsSetAlike v) (list_at lists.now j) (list_at lists.now k) }
{
    let one = j as usize;
    let other = k as usize;
    if one >= lists.len() || other >= lists.len() {
        return false;
    }
    are_set_alike(firsts, &lists[one], &lists[other])
}

// Whether two registers are declared with one word.
fn begin_alike(words: &[Word], j: u32, k: u32) -> bool
    ensures { result ≡ true → (j < length words.now) × (k < length words.now) × (get_or words.now j nothing ≡ get_or words.now k nothing) }
{
    match (words.get(j as usize), words.get(k as usize)) {
        (Some(a), Some(b)) => a == b,
        _ => false,
    }
}

// Whether a register repeats the one that is listed for it.
fn repeats(words: &[Word], registers: &[u32], wires: &[u32], lists: &[Vec<Setting>], k: u32) -> bool
    ensures { result ≡ true → (always : List (StatementTree Net)) → AreListed (length words.now) lists.now (block_settings 0 always) → Repeats words.now registers.now wires.now always k }
{
    let j = first(registers, k);
    if j == k {
        return true;
    }
    if !begin_alike(words, k, j) {
        return false;
    }
    let firsts = Firsts {
        registers,
        left: wires,
        right: wires,
    };
    keeps_alike(firsts, lists, k, j)
}

/// The registers of which it is not found that they repeat those that are listed for them.
pub(crate) fn unlike(
    alloc: Global,
    words: &[Word],
    registers: &[u32],
    wires: &[u32],
    lists: &[Vec<Setting>],
) -> Result<Vec<u32>, AllocError>
    requires { length registers.now ≤ 4294967295 }
    ensures { IfOk result (λ others. others.items ≡ [] → (always : List (StatementTree Net)) → AreListed (length words.now) lists.now (block_settings 0 always) → (k : ℕ) → Repeats words.now registers.now wires.now always k) }
{
    let mut others = Vec::new(alloc);
    for i in 0..registers.len() {
        let k = i as u32;
        if !repeats(words, registers, wires, lists, k) {
            others.push(k)?;
        }
    }
    Ok(others)
}
