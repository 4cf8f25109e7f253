//! Expressions from their parts, where making a part may have failed: then so has the whole.

ghost use Rattle.std.specs.Prelude.{◌≡◌, IfOk};
ghost use Rattle.net_core.specs.declared.tree.Net.{Net};
ghost use Rattle.net_core.specs.declared.tree.Word.{Word};
ghost use Rattle.net_core.specs.Nets.{Tree, Trees, TMemoryWord, TUnary, TBinary, TConditional, TConcatenation};
ghost use Rattle.net_core.specs.View.{tree_of, trees_of};
ghost use Rattle.net_core.specs.Value as net;
ghost use Rattle.net_core.specs.Value.{Env, value, apply, apply_unary, concatenated_parts};

use net_core::build::{binary, conditional, memory_word, unary};
use net_core::tree::{Expr, Net, Op, Parts, UnaryOp};
use std::alloc::{AllocError, Global};

/// An expression, or why it could not be made.
pub type Part = Result<Expr<Net>, AllocError>;

/// The word of a memory at an index.
pub fn memory_word_of(alloc: Global, m: Net, index: Part) -> Part
    ensures value { (v : Env Net) (x : Word) → IfOk index (λ e. value v (tree_of e) ≡ x) → IfOk result (λ r. value v (tree_of r) ≡ v.memory_word m x.value) }
    ensures tree { (x : Tree Net) → IfOk index (λ e. tree_of e ≡ x) → IfOk result (λ r. tree_of r ≡ TMemoryWord m x) }
{
    let index = index?;
    memory_word(alloc, m, index)
}

/// An operator before its operand.
pub fn unary_of(alloc: Global, op: UnaryOp, a: Part) -> Part
    ensures value { (v : Env Net) (x : Word) → IfOk a (λ e. value v (tree_of e) ≡ x) → IfOk result (λ r. value v (tree_of r) ≡ apply_unary op x) }
    ensures tree { (x : Tree Net) → IfOk a (λ e. tree_of e ≡ x) → IfOk result (λ r. tree_of r ≡ TUnary op x) }
{
    let a = a?;
    unary(alloc, op, a)
}

/// An operator between two operands.
pub fn binary_of(alloc: Global, op: Op, a: Part, b: Part) -> Part
    ensures value { (v : Env Net) (x y : Word) → IfOk a (λ e. value v (tree_of e) ≡ x) → IfOk b (λ e. value v (tree_of e) ≡ y) → IfOk result (λ r. value v (tree_of r) ≡ apply op x y) }
    ensures tree { (x y : Tree Net) → IfOk a (λ e. tree_of e ≡ x) → IfOk b (λ e. tree_of e ≡ y) → IfOk result (λ r. tree_of r ≡ TBinary op x y) }
{
    let a = a?;
    let b = b?;
    binary(alloc, op, a, b)
}

/// The first of two values where the condition is 1, else the second.
pub fn conditional_of(alloc: Global, c: Part, a: Part, b: Part) -> Part
    ensures value { (v : Env Net) (x y z : Word) → IfOk c (λ e. value v (tree_of e) ≡ x) → IfOk a (λ e. value v (tree_of e) ≡ y) → IfOk b (λ e. value v (tree_of e) ≡ z) → IfOk result (λ r. value v (tree_of r) ≡ net.conditional x y z) }
    ensures tree { (x y z : Tree Net) → IfOk c (λ e. tree_of e ≡ x) → IfOk a (λ e. tree_of e ≡ y) → IfOk b (λ e. tree_of e ≡ z) → IfOk result (λ r. tree_of r ≡ TConditional x y z) }
{
    let c = c?;
    let a = a?;
    let b = b?;
    conditional(alloc, c, a, b)
}

/// A concatenation of parts.
pub fn concatenation_of(alloc: Global, parts: Result<Parts<Net>, AllocError>) -> Part
    ensures value { (v : Env Net) (x : Word) → IfOk parts (λ ps. concatenated_parts v (trees_of ps) ≡ x) → IfOk result (λ r. value v (tree_of r) ≡ x) }
    ensures tree { (x : Trees Net) → IfOk parts (λ ps. trees_of ps ≡ x) → IfOk result (λ r. tree_of r ≡ TConcatenation x) }
{
    let parts = parts?;
    Ok(Expr::Concatenation(Box::new(alloc, parts)?))
}
