//! Bits of wires of which it is known what they are made of.

ghost use Rattle.std.specs.Prelude.{◌≡◌, IfSome};
ghost use Rattle.net_core.specs.declared.tree.Net.{Net};
ghost use Rattle.net_core.specs.View.{tree_of, trees_of};
ghost use Rattle.net_core.specs.Value.{Env, value, part_select, concatenated_parts};
ghost use Rattle.net_rules.specs.NetSizes.Fitting.{AreFitting, sizes_of};
ghost use Rattle.net_rules.specs.LogicRules.Known.{AreKnown};

use crate::net_sizes::Sizes;
use crate::net_sizes::expression::parts_size;
use net_core::tree::{Expr, Net, Parts, Word};

/// How many bits a word has at most.
const MOST_BITS: u8 = 64;

// Bits of a net: the net where they are all of its bits.
fn bits(sizes: &Sizes, n: Net, high: u8, low: u8) -> Expr<Net>
    ensures { (v : Env Net) → AreFitting (sizes_of sizes.now) v → value v (tree_of result) ≡ part_select (v.net n) high low }
{
    if low == 0 && high < MOST_BITS && sizes.of(n) == high + 1 {
        return Expr::Read(n);
    }
    if high == low {
        return Expr::Bit(n, high);
    }
    Expr::PartSelect(n, high, low)
}

// Bits of a word.
fn bits_of_word(word: Word, high: u8, low: u8) -> Option<Expr<Net>>
    ensures { IfSome result (λ r. (v : Env Net) → value v (tree_of r) ≡ part_select word high low) }
{
    if high >= MOST_BITS || low > high {
        return None;
    }
    let width = high - low + 1;
    let all = word.value >> u32::from(low);
    let value = all & (u64::MAX >> u32::from(MOST_BITS - width));
    Some(Expr::Const(Word { width, value }))
}

// Bits of an expression that costs nothing.
fn bits_of(sizes: &Sizes, e: &Expr<Net>, high: u8, low: u8) -> Option<Expr<Net>>
    ensures { IfSome result (λ r. (v : Env Net) → AreFitting (sizes_of sizes.now) v → value v (tree_of r) ≡ part_select (value v (tree_of e.now)) high low) }
{
    match e {
        Expr::Const(word) => bits_of_word(*word, high, low),
        Expr::Read(m) => {
            if high >= sizes.of(*m) {
                return None;
            }
            Some(bits(sizes, *m, high, low))
        }
        Expr::Bit(m, bit) => {
            if high > 0 || low > 0 {
                return None;
            }
            Some(Expr::Bit(*m, *bit))
        }
        Expr::PartSelect(m, top, end) => {
            if low > high || *end > *top || high > *top - *end {
                return None;
            }
            Some(bits(sizes, *m, high + *end, low + *end))
        }
        _ => None,
    }
}

// Bits of a concatenation that lie in one of its parts.
fn bits_of_parts(sizes: &Sizes, parts: &Parts<Net>, high: u8, low: u8) -> Option<Expr<Net>>
    ensures { IfSome result (λ r. (v : Env Net) → AreFitting (sizes_of sizes.now) v → value v (tree_of r) ≡ part_select (concatenated_parts v (trees_of parts.now)) high low) }
{
    if low > high {
        return None;
    }
    let mut left = parts;
    while let Parts::More(a, more) = left {
        let size = parts_size(sizes, more);
        if size == 0 {
            return None;
        }
        if high >= size {
            if low < size {
                return None;
            }
            return bits_of(sizes, a, high - size, low - size);
        }
        left = more;
    }
    match left {
        Parts::Last(a) => bits_of(sizes, a, high, low),
        Parts::More(..) => None,
    }
}

/// Bits of a net, from a high one down to a low one.
pub(crate) fn selected(
    sizes: &Sizes,
    known: &[Option<Expr<Net>>],
    n: Net,
    high: u8,
    low: u8,
) -> Expr<Net>
    ensures { (v : Env Net) → AreFitting (sizes_of sizes.now) v → AreKnown v known.now → value v (tree_of result) ≡ part_select (v.net n) high low }
{
    if let Net::Wire(i) = n
        && let Some(Some(e)) = known.get(i as usize)
    {
        let inner = match e {
            Expr::Concatenation(parts) => bits_of_parts(sizes, parts, high, low),
            e => bits_of(sizes, e, high, low),
        };
        if let Some(shorter) = inner {
            return shorter;
        }
    }
    bits(sizes, n, high, low)
}
