//! What a register is set to, by its code.

ghost use Rattle.std.specs.Prelude.{◌≡◌, IfOk};
ghost use Rattle.net_core.specs.declared.tree.Net.{Net};
ghost use Rattle.net_core.specs.View.{tree_of};
ghost use Rattle.net_core.specs.Value.{Env, value, conditional};
ghost use Rattle.register_rules.specs.NarrowRegisters.Narrow.{AreNarrowed, decoded, coding_of};

use crate::narrow_registers::codes::{Code, Codes};
use crate::narrow_registers::narrowing::narrow;
use crate::narrow_registers::stop::Stop;
use crate::narrow_registers::widening::wide;
use crate::narrow_registers::words::{is_same_word, word_without};
use net_core::build::conditional;
use net_core::tree::{Expr, Net, Word};
use std::alloc::Global;

// The bit that stands for one of two words.
fn bit_of(word: Word, a: Word, b: Word) -> Result<Word, Stop>
    ensures { IfOk result (λ u. word ≡ conditional u b a) }
{
    if is_same_word(word, a) {
        return Ok(Word { width: 1, value: 0 });
    }
    if is_same_word(word, b) {
        return Ok(Word { width: 1, value: 1 });
    }
    Err(Stop::Wide)
}

/// The word that stands for another one by a code.
pub(crate) fn encoded_word(word: Word, code: Code) -> Result<Word, Stop>
    ensures { IfOk result (λ u. word ≡ decoded code u) }
{
    match code {
        Code::Zeros(z) => word_without(word, z),
        Code::Choice(a, b) => bit_of(word, a, b),
    }
}

// A net that stands for one of two words, as one that stands for one of these.
fn read_bit(n: Net, code: Code, a: Word, b: Word) -> Result<Expr<Net>, Stop>
    ensures { IfOk result (λ r. (t : Env Net) → decoded code (t.net n) ≡ conditional (value t (tree_of r)) b a) }
{
    let Code::Choice(first, second) = code else {
        return Err(Stop::Wide);
    };
    if is_same_word(first, second) {
        return Ok(Expr::Const(bit_of(first, a, b)?));
    }
    if is_same_word(first, a) && is_same_word(second, b) {
        return Ok(Expr::Read(n));
    }
    Err(Stop::Wide)
}

// An expression of one bit in place of one of two words.
#[cycle(choices)]
fn choice_of(
    alloc: Global,
    codes: &Codes,
    e: &Expr<Net>,
    a: Word,
    b: Word,
) -> Result<Expr<Net>, Stop>
    ensures { IfOk result (λ r. (v t : Env Net) → AreNarrowed (coding_of codes.now) v t → value v (tree_of e.now) ≡ conditional (value t (tree_of r)) b a) }
{
    match e {
        Expr::Const(word) => Ok(Expr::Const(bit_of(*word, a, b)?)),
        Expr::Read(n) => read_bit(*n, codes.of(*n), a, b),
        Expr::Conditional(c, x, y) => {
            let c = wide(alloc, codes, c)?;
            let x = choice_of(alloc, codes, x, a, b)?;
            let y = choice_of(alloc, codes, y, a, b)?;
            Ok(conditional(alloc, c, x, y)?)
        }
        _ => Err(Stop::Wide),
    }
}

/// An expression whose value stands by a code for that of another one.
pub(crate) fn encoded(
    alloc: Global,
    codes: &Codes,
    e: &Expr<Net>,
    code: Code,
) -> Result<Expr<Net>, Stop>
    ensures { IfOk result (λ r. (v t : Env Net) → AreNarrowed (coding_of codes.now) v t → value v (tree_of e.now) ≡ decoded code (value t (tree_of r))) }
{
    match code {
        Code::Zeros(z) => narrow(alloc, codes, e, z),
        Code::Choice(a, b) => choice_of(alloc, codes, e, a, b),
    }
}
