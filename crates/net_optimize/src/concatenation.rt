//! Concatenations from their parts, of which neighbours are one where they can be.

ghost use Rattle.std.specs.Prelude.{◌≡◌, IfOk, IfSome, map};
ghost use Rattle.net_core.specs.declared.tree.Net.{Net};
ghost use Rattle.net_core.specs.declared.tree.Word as words;
ghost use Rattle.net_core.specs.View.{tree_of, trees_of};
ghost use Rattle.net_core.specs.Value.{Env, value, part_select, concatenated, concatenated_parts};
ghost use Rattle.net_optimize.specs.Lists.{all_parts};

use net_core::build::{constant, parts};
use net_core::net_trees::copying::copied;
use net_core::tree::{Expr, Net, Parts, Word};
use std::alloc::{AllocError, Global};

/// How many bits a constant has at most.
const MOST_BITS: u8 = 64;

// Two constants as one, where it is not too wide.
fn one_constant(a: Word, b: Word) -> Option<Word>
    ensures { IfSome result (λ w. w ≡ concatenated a b) }
{
    if a.width >= MOST_BITS || b.width >= MOST_BITS || a.width + b.width > MOST_BITS {
        return None;
    }
    let scale = 2u64.checked_pow(u32::from(b.width))?;
    let high = a.value.checked_mul(scale)?;
    let value = high.checked_add(b.value)?;
    Some(Word {
        width: a.width + b.width,
        value,
    })
}

/// Bits of a net, from a high one down to a low one.
#[derive(Clone, Copy)]
struct Bits {
    net: Net,
    high: u8,
    low: u8,
}

// The bits of a net that an expression reads.
fn bits_of(e: &Expr<Net>) -> Option<Bits>
    ensures { IfSome result (λ b. (v : Env Net) → value v (tree_of e.now) ≡ part_select (v.net b.net) b.high b.low) }
{
    match e {
        Expr::Bit(n, bit) => Some(Bits {
            net: *n,
            high: *bit,
            low: *bit,
        }),
        Expr::PartSelect(n, high, low) => Some(Bits {
            net: *n,
            high: *high,
            low: *low,
        }),
        _ => None,
    }
}

// One part that stands for two neighbours: constants, or bits of one net.
fn one_part(a: &Expr<Net>, b: &Expr<Net>) -> Option<Expr<Net>>
    ensures { IfSome result (λ r. (v : Env Net) → value v (tree_of r) ≡ concatenated (value v (tree_of a.now)) (value v (tree_of b.now))) }
{
    if let (Expr::Const(x), Expr::Const(y)) = (a, b) {
        let word = one_constant(*x, *y)?;
        return Some(Expr::Const(word));
    }
    let above = bits_of(a)?;
    let below = bits_of(b)?;
    if above.net == below.net
        && above.low <= above.high
        && below.low <= below.high
        && below.high < above.low
        && above.low - below.high == 1
    {
        return Some(Expr::PartSelect(above.net, above.high, below.low));
    }
    None
}

// A part after others: one with the last of these where they can be one.
fn with_part(
    alloc: Global,
    mut list: Vec<Expr<Net>>,
    part: Expr<Net>,
) -> Result<Vec<Expr<Net>>, AllocError>
    ensures { IfOk result (λ r. (v : Env Net) → all_parts v (map tree_of r.items) ≡ concatenated (all_parts v (map tree_of list.items)) (value v (tree_of part))) }
{
    let last = match list.pop() {
        Some(last) => last,
        None => {
            list.push(part)?;
            return Ok(list);
        }
    };
    if let Some(one) = one_part(&last, &part) {
        list.push(one)?;
        return Ok(list);
    }
    list.push(last)?;
    list.push(part)?;
    Ok(list)
}

// Parts after others. Without a recursion over them: there may be any number.
fn with_copies(
    alloc: Global,
    list: Vec<Expr<Net>>,
    parts: &Parts<Net>,
) -> Result<Vec<Expr<Net>>, AllocError>
    ensures { IfOk result (λ r. (v : Env Net) → all_parts v (map tree_of r.items) ≡ concatenated (all_parts v (map tree_of list.items)) (concatenated_parts v (trees_of parts.now))) }
{
    let mut all = list;
    let mut left = parts;
    while let Parts::More(part, more) = left {
        let part = copied(alloc, part)?;
        all = with_part(alloc, all, part)?;
        left = more;
    }
    match left {
        Parts::Last(last) => {
            let last = copied(alloc, last)?;
            let whole = with_part(alloc, all, last)?;
            Ok(whole)
        }
        Parts::More(..) => unreachable!(),
    }
}

/// A part after others, or its parts where it is a concatenation.
pub(crate) fn with_parts(
    alloc: Global,
    list: Vec<Expr<Net>>,
    part: Expr<Net>,
) -> Result<Vec<Expr<Net>>, AllocError>
    ensures { IfOk result (λ r. (v : Env Net) → all_parts v (map tree_of r.items) ≡ concatenated (all_parts v (map tree_of list.items)) (value v (tree_of part))) }
{
    match part {
        Expr::Concatenation(parts) => with_copies(alloc, list, &parts),
        part => with_part(alloc, list, part),
    }
}

// A concatenation of parts, or the only one.
fn concatenation(alloc: Global, mut list: Vec<Expr<Net>>) -> Result<Expr<Net>, AllocError>
    ensures { IfOk result (λ r. (v : Env Net) → value v (tree_of r) ≡ all_parts v (map tree_of list.items)) }
{
    let Some(last) = list.pop() else {
        return Ok(constant(0, 0));
    };
    if list.is_empty() {
        return Ok(last);
    }
    let all = parts(alloc, list, last)?;
    Ok(Expr::Concatenation(Box::new(alloc, all)?))
}

/// The same, where making the parts may have failed.
pub(crate) fn whole_of(
    alloc: Global,
    list: Result<Vec<Expr<Net>>, AllocError>,
) -> Result<Expr<Net>, AllocError>
    ensures { (v : Env Net) (x : words.Word) → IfOk list (λ xs. all_parts v (map tree_of xs.items) ≡ x) → IfOk result (λ r. value v (tree_of r) ≡ x) }
{
    let list = list?;
    concatenation(alloc, list)
}
