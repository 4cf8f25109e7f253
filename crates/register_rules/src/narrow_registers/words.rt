//! Words without zeros in front, and parts of words.

ghost use Rattle.std.specs.Prelude.{◌≡◌, true, IfOk};
ghost use Rattle.net_core.specs.declared.tree.Net.{Net};
ghost use Rattle.net_core.specs.View.{tree_of};
ghost use Rattle.net_core.specs.Value.{Env, value, conditional, part_select};
ghost use Rattle.register_rules.specs.NarrowRegisters.Narrow.{widened};

use crate::narrow_registers::stop::Stop;
use net_core::build;
use net_core::tree::{Expr, Net, Word};
use std::alloc::{AllocError, Global};

/// Whether two words are the same.
pub(crate) fn is_same_word(a: Word, b: Word) -> bool
    ensures { result ≡ true → a ≡ b }
{
    a.width == b.width && a.value == b.value
}

/// A word without its first bits, which are so many zeros. One bit stays.
pub(crate) fn word_without(word: Word, zeros: u8) -> Result<Word, Stop>
    ensures { IfOk result (λ w. word ≡ widened zeros w) }
{
    if zeros >= word.width {
        return Err(Stop::Wide);
    }
    Ok(Word {
        width: word.width - zeros,
        value: word.value,
    })
}

/// The bits of a word from a high one down to a low one, where these are less than 64.
pub(crate) fn word_part(word: Word, high: u8, low: u8) -> Result<Word, Stop>
    ensures { IfOk result (λ w. w ≡ part_select word high low) }
{
    if low > high || high >= 63 {
        return Err(Stop::Wide);
    }
    let width = high + 1 - low;
    Ok(Word {
        width,
        value: (word.value >> low) % (1 << width),
    })
}

/// The second of two words where a net is 1, else the first.
pub(crate) fn one_of(alloc: Global, n: Net, a: Word, b: Word) -> Result<Expr<Net>, AllocError>
    ensures { IfOk result (λ r. (t : Env Net) → value t (tree_of r) ≡ conditional (t.net n) b a) }
{
    if is_same_word(a, b) {
        return Ok(Expr::Const(a));
    }
    build::conditional(alloc, Expr::Read(n), Expr::Const(b), Expr::Const(a))
}
