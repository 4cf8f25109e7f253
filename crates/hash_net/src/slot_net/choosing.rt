//! The first slot that passes: one choice inside another, cut into wires.

ghost use Rattle.std.specs.Prelude.{ℕ, Bool, List, ◌≡◌, ◌+◌, ◌^◌, ◌<◌, ◌≤◌, All, length, IfOk, map};
ghost use Rattle.net_core.specs.Value.{Env};
ghost use Rattle.net_core.specs.View.{tree_of};
ghost use Rattle.overlay_net.specs.cell_core.Cells.{bits_from};
ghost use Rattle.cell_nets.specs.Operands.{IsOperand, IsAvailable, IsWide, number_in};
ghost use Rattle.cell_nets.specs.Parts.{IsPart};
ghost use Rattle.cell_nets.specs.Wires.{wires_of, always, Gives};
ghost use Rattle.hash_net.specs.SlotNet.Choosing.{number_at, first_passed, choice_tree, AreTests};

use block_core::block::BlockWire;
use block_core::name::Name;
use cell_nets::operand::Operand;
use cell_nets::slice::slice;
use cell_nets::wires::add_wire;
use net_core::build::{conditional, constant};
use net_core::tree::Expr;
use std::alloc::{AllocError, Global};

/// How many choices stand inside one another at most.
const MOST: usize = 30;

/// Which slots are chosen, and what numbers stand for them: those whose tests are 1, by the pointers to their entries, or those whose tests
/// are 0, by numbers of their own.
#[derive(Clone, Copy, PartialEq, Eq, Debug)]
pub enum Numbering {
    Pointers,
    Slots,
}

fn number_at(numbering: Numbering, n: usize) -> u64
    requires { n ≤ 65536 }
    ensures { result ≡ number_at numbering n }
{
    match numbering {
        Numbering::Pointers => 4 * n as u64 + 1,
        Numbering::Slots => n as u64,
    }
}

// The number of a slot where it passes, or else the rest. A test need not be turned for this.
fn branch<N: Copy>(
    alloc: Global,
    numbering: Numbering,
    test: Expr<N>,
    number: Expr<N>,
    rest: Expr<N>,
) -> Result<Expr<N>, AllocError>
    ensures { IfOk result (λ e. tree_of e ≡ choice_tree numbering (tree_of test) (tree_of number) (tree_of rest)) }
{
    let (one, zero) = match numbering {
        Numbering::Pointers => (number, rest),
        Numbering::Slots => (rest, number),
    };
    let e = conditional(alloc, test, one, zero)?;
    Ok(e)
}

// The number of the first slot, from one on, that passes, or else an operand.
fn choice<N: Copy>(
    alloc: Global,
    mut tests: Vec<Expr<N>>,
    first: usize,
    numbering: Numbering,
    rest: Operand<N>,
    bits: u8,
) -> Result<Expr<N>, AllocError>
    requires few { length tests.items ≤ MOST }
    requires most { first + length tests.items ≤ 65536 }
    requires room { (n : ℕ) → n < first + length tests.items → number_at numbering n < 2 ^ bits }
    requires operand { IsOperand rest }
    requires width { IsWide bits }
    ensures { (args ins : List (Operand N)) (hit : ℕ → Env N → Bool) → AreTests args hit first (map tree_of tests.items) → All (IsAvailable ins) args → IsAvailable ins rest → IfOk result (λ e. IsPart ins 60 bits (λ v. first_passed numbering (λ n. hit n v) (bits_from (number_in v rest) 0 bits) first (length tests.items)) (tree_of e)) }
{
    let mut tree = slice(alloc, rest, 0, bits)?;
    while let Some(test) = tests.pop() {
        let number = constant(bits, number_at(numbering, first + tests.len()));
        tree = branch(alloc, numbering, test, number, tree)?;
    }
    Ok(tree)
}

/// The number of the first slot that passes, or else what stands for none. There is a wire for each 30 slots.
pub(crate) fn first_of<P: Copy>(
    alloc: Global,
    wires: &mut Vec<BlockWire<Name<P>>>,
    part: P,
    mut tests: Vec<Expr<Name<P>>>,
    numbering: Numbering,
    none: u64,
    bits: u8,
) -> Result<Operand<Name<P>>, AllocError>
    requires most { length tests.items ≤ 65536 }
    requires room { (n : ℕ) → n < length tests.items → number_at numbering n < 2 ^ bits }
    requires small { none < 2 ^ bits }
    requires width { IsWide bits }
    ensures { (args : List (Operand (Name P))) (hit : ℕ → Env (Name P) → Bool) → AreTests args hit 0 (map tree_of tests.items) → IfOk result (Gives part (wires_of wires.old.items) (wires_of wires.new.items) args always (λ v. first_passed numbering (λ n. hit n v) none 0 (length tests.items)) bits) }
{
    let mut rest = Operand::Known(none);
    'chain: while !tests.is_empty() {
        let first = (tests.len() - 1) / MOST * MOST;
        let last = tests.split_off(first)?;
        let tree = choice(alloc, last, first, numbering, rest, bits)?;
        rest = add_wire(wires, part, bits, tree)?;
    }
    Ok(rest)
}
