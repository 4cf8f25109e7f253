//! The values of expressions and of right sides.

ghost use Rattle.std.specs.Prelude.{◌≡◌, ◌/◌, ◌%◌, ◌==◌, if◌then◌else◌};
ghost use Rattle.net_core.specs.Value.{word, value, concatenated_parts, stops};
ghost use Rattle.net_core.specs.View.{tree_of, trees_of, right_of};
ghost use Rattle.event_sim.specs.Events.{event_value};
ghost use Rattle.event_sim.specs.Views.{env_in};
ghost use Rattle.event_sim.specs.Readable.{IsReadable, AreReadable, IsRight};

use crate::operate::{apply, apply_unary, concatenated, part_select};
use crate::values::{Values, memory_word, net_word};
use net_core::tree::{Expr, Net, Parts, Right, Word};

/// The value of an expression. It calls itself for the parts of an expression: 64 levels deep at most in a design that a
/// text spells.
#[cycle(value)]
pub fn value_of(e: &Expr<Net>, values: &Values) -> Word
    requires { IsReadable (env_in values.now) (tree_of e.now) }
    ensures { result ≡ value (env_in values.now) (tree_of e.now) }
{
    match e {
        Expr::Const(word) => *word,
        Expr::Read(net) => net_word(values, *net),
        Expr::Bit(net, at) => part_select(net_word(values, *net), *at, *at),
        Expr::PartSelect(net, high, low) => part_select(net_word(values, *net), *high, *low),
        Expr::MemoryWord(memory, index) => {
            let at = value_of(index, values);
            memory_word(values, *memory, at.value as usize)
        }
        Expr::Unary(unary_op, a) => {
            let argument = value_of(a, values);
            apply_unary(*unary_op, argument)
        }
        Expr::Binary(op, a, b) => {
            let left = value_of(a, values);
            let right = value_of(b, values);
            apply(*op, left, right)
        }
        Expr::Conditional(c, a, b) => {
            let test = value_of(c, values);
            if test.value == 0 {
                value_of(b, values)
            } else {
                value_of(a, values)
            }
        }
        Expr::Concatenation(parts) => value_of_parts(parts, values),
    }
}

// Each part has a bit at least, and all have 64 at most, so that there are 64 parts at most.
#[cycle(value)]
fn value_of_parts(parts: &Parts<Net>, values: &Values) -> Word
    requires { AreReadable (env_in values.now) (trees_of parts.now) }
    ensures { result ≡ concatenated_parts (env_in values.now) (trees_of parts.now) }
{
    match parts {
        Parts::Last(a) => value_of(a, values),
        Parts::More(a, more) => {
            let first = value_of(a, values);
            let rest = value_of_parts(more, values);
            concatenated(first, rest)
        }
    }
}

/// Whether the divisor of a right side is zero.
pub fn stops(right: &Right<Net>, values: &Values) -> bool
    ensures { result ≡ stops (env_in values.now) (right_of right.now) }
{
    match right {
        Right::Plain(_) => false,
        Right::Quotient(_, b) => net_word(values, *b).value == 0,
        Right::Remainder(_, b) => net_word(values, *b).value == 0,
    }
}

fn quotient(a: Word, b: Word) -> Word
    ensures { result ≡ (if b.value == 0 then word a.width 0 else word a.width (a.value / b.value)) }
{
    let width = a.width;
    if b.value == 0 {
        Word { width, value: 0 }
    } else {
        let value = a.value / b.value;
        Word { width, value }
    }
}

fn remainder(a: Word, b: Word) -> Word
    ensures { result ≡ (if b.value == 0 then word a.width 0 else word a.width (a.value % b.value)) }
{
    let width = a.width;
    if b.value == 0 {
        Word { width, value: 0 }
    } else {
        let value = a.value % b.value;
        Word { width, value }
    }
}

/// The value of a right side, which is 0 where a divisor is zero.
pub fn right_value_of(right: &Right<Net>, values: &Values) -> Word
    requires { IsRight (env_in values.now) (right_of right.now) }
    ensures { result ≡ event_value (env_in values.now) (right_of right.now) }
{
    match right {
        Right::Plain(e) => value_of(e, values),
        Right::Quotient(a, b) => quotient(net_word(values, *a), net_word(values, *b)),
        Right::Remainder(a, b) => remainder(net_word(values, *a), net_word(values, *b)),
    }
}
