//! Expressions that read narrower registers as the words that these stand for.

ghost use Rattle.std.specs.Prelude.{◌≡◌, IfOk};
ghost use Rattle.net_core.specs.declared.tree.Net.{Net};
ghost use Rattle.net_core.specs.View.{tree_of, trees_of};
ghost use Rattle.net_core.specs.Value.{Env, value, part_select, conditional, concatenated_parts};
ghost use Rattle.register_rules.specs.NarrowRegisters.Narrow.{AreNarrowed, IsSameValue, widened, decoded, coding_of};

use crate::narrow_registers::codes::{Code, Codes};
use crate::narrow_registers::stop::Stop;
use crate::narrow_registers::words::{one_of, word_part};
use net_core::build::{self, binary, conditional, memory_word, unary};
use net_core::tree::{Expr, Net, Parts, Word};
use std::alloc::{AllocError, Global};

/// A net after so many zeros.
pub(crate) fn behind_zeros(alloc: Global, width: u8, n: Net) -> Result<Expr<Net>, AllocError>
    ensures { IfOk result (λ r. (t : Env Net) → value t (tree_of r) ≡ widened width (t.net n)) }
{
    if width == 0 {
        return Ok(Expr::Read(n));
    }
    let last = Box::new(alloc, Parts::Last(Expr::Read(n)))?;
    let parts = Parts::More(Expr::Const(Word { width, value: 0 }), last);
    Ok(Expr::Concatenation(Box::new(alloc, parts)?))
}

// The word that a net stands for.
fn read(alloc: Global, n: Net, code: Code) -> Result<Expr<Net>, AllocError>
    ensures { IfOk result (λ r. (t : Env Net) → value t (tree_of r) ≡ decoded code (t.net n)) }
{
    match code {
        Code::Zeros(z) => behind_zeros(alloc, z, n),
        Code::Choice(a, b) => one_of(alloc, n, a, b),
    }
}

// Bits of the word that a net stands for, where `e` has these bits of the net.
fn selected(
    alloc: Global,
    n: Net,
    code: Code,
    high: u8,
    low: u8,
    e: Expr<Net>,
) -> Result<Expr<Net>, Stop>
    requires { (t : Env Net) → value t (tree_of e) ≡ part_select (t.net n) high low }
    ensures { IfOk result (λ r. (t : Env Net) → value t (tree_of r) ≡ part_select (decoded code (t.net n)) high low) }
{
    match code {
        Code::Zeros(_) => Ok(e),
        Code::Choice(a, b) => {
            let a = word_part(a, high, low)?;
            let b = word_part(b, high, low)?;
            Ok(one_of(alloc, n, a, b)?)
        }
    }
}

/// An expression of the same value.
#[cycle(expressions)]
pub(crate) fn wide(alloc: Global, codes: &Codes, e: &Expr<Net>) -> Result<Expr<Net>, Stop>
    ensures { IfOk result (λ r. IsSameValue (coding_of codes.now) (tree_of e.now) (tree_of r)) }
{
    match e {
        Expr::Const(word) => Ok(Expr::Const(*word)),
        Expr::Read(n) => Ok(read(alloc, *n, codes.of(*n))?),
        Expr::Bit(n, bit) => selected(alloc, *n, codes.of(*n), *bit, *bit, Expr::Bit(*n, *bit)),
        Expr::PartSelect(n, high, low) => {
            let part = Expr::PartSelect(*n, *high, *low);
            selected(alloc, *n, codes.of(*n), *high, *low, part)
        }
        Expr::MemoryWord(m, i) => {
            let index = wide(alloc, codes, i)?;
            Ok(memory_word(alloc, *m, index)?)
        }
        Expr::Unary(op, a) => {
            let a = wide(alloc, codes, a)?;
            Ok(unary(alloc, *op, a)?)
        }
        Expr::Binary(op, a, b) => {
            let a = wide(alloc, codes, a)?;
            let b = wide(alloc, codes, b)?;
            Ok(binary(alloc, *op, a, b)?)
        }
        Expr::Conditional(c, a, b) => {
            let c = wide(alloc, codes, c)?;
            let a = wide(alloc, codes, a)?;
            let b = wide(alloc, codes, b)?;
            Ok(conditional(alloc, c, a, b)?)
        }
        Expr::Concatenation(parts) => {
            let parts = wide_parts(alloc, codes, parts)?;
            Ok(Expr::Concatenation(Box::new(alloc, parts)?))
        }
    }
}

/// Parts of a concatenation of the same value. Without a recursion over them: there may be any number.
#[cycle(expressions)]
pub(crate) fn wide_parts(
    alloc: Global,
    codes: &Codes,
    parts: &Parts<Net>,
) -> Result<Parts<Net>, Stop>
    ensures { IfOk result (λ r. (v t : Env Net) → AreNarrowed (coding_of codes.now) v t → concatenated_parts v (trees_of parts.now) ≡ concatenated_parts t (trees_of r)) }
{
    let mut prefix = Vec::new(alloc);
    let mut left = parts;
    while let Parts::More(part, more) = left {
        prefix.push(wide(alloc, codes, part)?)?;
        left = more;
    }
    match left {
        Parts::Last(last) => {
            let last = wide(alloc, codes, last)?;
            let parts = build::parts(alloc, prefix, last)?;
            Ok(parts)
        }
        Parts::More(..) => unreachable!(),
    }
}
