//! Expressions without zeros that stand in front.

ghost use Rattle.std.specs.Prelude.{◌≡◌, true, IfOk};
ghost use Rattle.net_core.specs.declared.tree.Net.{Net};
ghost use Rattle.net_core.specs.View.{tree_of, trees_of, right_of};
ghost use Rattle.net_core.specs.Value.{Env, value, concatenated_parts};
ghost use Rattle.register_rules.specs.NarrowRegisters.Narrow.{AreNarrowed, IsNarrowedRight, widened, decoded, coding_of, code_of};

use crate::narrow_registers::codes::{Code, Codes};
use crate::narrow_registers::stop::Stop;
use crate::narrow_registers::widening::{behind_zeros, wide, wide_parts};
use crate::narrow_registers::words::{one_of, word_without};
use net_core::build::{binary, conditional};
use net_core::tree::{Expr, Net, Op, Parts, Right};
use std::alloc::Global;

// The word that a net stands for without its first bits, which are so many zeros.
fn read_without(alloc: Global, n: Net, code: Code, z: u8) -> Result<Expr<Net>, Stop>
    ensures { IfOk result (λ r. (t : Env Net) → decoded code (t.net n) ≡ widened z (value t (tree_of r))) }
{
    match code {
        Code::Zeros(lost) => {
            if z > lost {
                return Err(Stop::Wide);
            }
            Ok(behind_zeros(alloc, lost - z, n)?)
        }
        Code::Choice(a, b) => {
            let a = word_without(a, z)?;
            let b = word_without(b, z)?;
            Ok(one_of(alloc, n, a, b)?)
        }
    }
}

/// An expression without the first bits of another one, which are so many zeros.
#[cycle(expressions)]
pub(crate) fn narrow(alloc: Global, codes: &Codes, e: &Expr<Net>, z: u8) -> Result<Expr<Net>, Stop>
    ensures { IfOk result (λ r. (v t : Env Net) → AreNarrowed (coding_of codes.now) v t → value v (tree_of e.now) ≡ widened z (value t (tree_of r))) }
{
    if z == 0 {
        return wide(alloc, codes, e);
    }
    match e {
        Expr::Const(word) => Ok(Expr::Const(word_without(*word, z)?)),
        Expr::Read(n) => read_without(alloc, *n, codes.of(*n), z),
        Expr::Binary(op, a, b) if matches!(op, Op::And | Op::Or | Op::Xor) => {
            let a = narrow(alloc, codes, a, z)?;
            let b = narrow(alloc, codes, b, z)?;
            Ok(binary(alloc, *op, a, b)?)
        }
        Expr::Conditional(c, a, b) => {
            let c = wide(alloc, codes, c)?;
            let a = narrow(alloc, codes, a, z)?;
            let b = narrow(alloc, codes, b, z)?;
            Ok(conditional(alloc, c, a, b)?)
        }
        Expr::Concatenation(parts) => narrow_parts(alloc, codes, parts, z),
        _ => Err(Stop::Wide),
    }
}

// A concatenation without its first bits, which are so many zeros. Without a recursion over the parts: there may be any number.
#[cycle(expressions)]
fn narrow_parts(alloc: Global, codes: &Codes, parts: &Parts<Net>, z: u8) -> Result<Expr<Net>, Stop>
    ensures { IfOk result (λ r. (v t : Env Net) → AreNarrowed (coding_of codes.now) v t → concatenated_parts v (trees_of parts.now) ≡ widened z (value t (tree_of r))) }
{
    let mut left = parts;
    let mut rest = z;
    while let Parts::More(first, more) = left
        && let Expr::Const(word) = first
        && word.value == 0
        && word.width <= rest
    {
        rest -= word.width;
        left = more;
    }
    match left {
        Parts::Last(a) => {
            let a = narrow(alloc, codes, a, rest)?;
            Ok(a)
        }
        Parts::More(a, more) => {
            let a = narrow(alloc, codes, a, rest)?;
            let more = wide_parts(alloc, codes, more)?;
            let more = Box::new(alloc, more)?;
            Ok(Expr::Concatenation(Box::new(alloc, Parts::More(a, more))?))
        }
    }
}

// Whether a net is the word that it stands for.
fn is_whole(codes: &Codes, n: Net) -> bool
    ensures { result ≡ true → code_of (coding_of codes.now) n ≡ Code.Zeros 0 }
{
    matches!(codes.of(n), Code::Zeros(0))
}

/// A right side without the first bits of another one, which are so many zeros. The sides of a quotient are nets, read whole: none of
/// them may lose bits.
pub(crate) fn narrow_right(
    alloc: Global,
    codes: &Codes,
    right: &Right<Net>,
    z: u8,
) -> Result<Right<Net>, Stop>
    ensures { IfOk result (λ r. IsNarrowedRight (coding_of codes.now) z (right_of right.now) (right_of r)) }
{
    match right {
        Right::Plain(e) => Ok(Right::Plain(narrow(alloc, codes, e, z)?)),
        Right::Quotient(a, b) => {
            if z > 0 || !is_whole(codes, *a) || !is_whole(codes, *b) {
                return Err(Stop::Wide);
            }
            Ok(Right::Quotient(*a, *b))
        }
        Right::Remainder(a, b) => {
            if z > 0 || !is_whole(codes, *a) || !is_whole(codes, *b) {
                return Err(Stop::Wide);
            }
            Ok(Right::Remainder(*a, *b))
        }
    }
}
