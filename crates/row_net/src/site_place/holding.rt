//! Registers that take operands where packets go on.

ghost use Rattle.std.specs.Prelude.{ℕ, ◌≡◌, ◌<◌, List, All, Option, Some, IfOk, map as map_list};
ghost use Rattle.net_core.specs.View.{tree_of, statement_of};
ghost use Rattle.cell_nets.specs.declared.operand.Operand.{Operand};
ghost use Rattle.cell_nets.specs.Operands.{IsOperand};
ghost use Rattle.row_net.specs.PlaceNet.PlaceNets.{tree_for, set_statement};
ghost use Rattle.row_net.specs.SitePlace.Inputs.{first_word, input_tree, held_statement};

use cell_nets::operand::Operand;
use cell_nets::slice::inside;
use net_core::build::{block, constant, then, when};
use net_core::tree::{Expr, Stmt, Stmts, Word};
use std::alloc::{AllocError, Global};

/// What a register of so many bits takes, 0 where there is none.
#[derive(Clone, Copy, PartialEq, Eq, Debug)]
pub struct Input<N> {
    pub operand: Option<Operand<N>>,
    pub width: u8,
}

// The registers, which are 0 at first.
pub(crate) fn registers<N: Copy>(
    alloc: Global,
    inputs: &[Input<N>],
) -> Result<Vec<Word>, AllocError>
    ensures { IfOk result (λ r. r.items ≡ map_list first_word inputs.now) }
{
    let mut all = Vec::new(alloc);
    for input in inputs {
        all.push(Word {
            width: input.width,
            value: 0,
        })?;
    }
    Ok(all)
}

// An operand of so many bits, as an expression.
fn expression<N: Copy>(a: Operand<N>, width: u8) -> Expr<N>
    requires { IsOperand a }
    ensures { tree_of result ≡ tree_for (Some a) width }
{
    match a {
        Operand::Known(n) => constant(width, n),
        Operand::Net(net, _) => Expr::Read(net),
        Operand::Part(net, of, from, bits) => inside(net, of, from, bits),
    }
}

// The same, and 0 where there is none.
fn value<N: Copy>(operand: Option<Operand<N>>, width: u8) -> Expr<N>
    requires { (a : Operand N) → operand ≡ Some a → IsOperand a }
    ensures { tree_of result ≡ tree_for operand width }
{
    match operand {
        Some(a) => expression(a, width),
        None => constant(width, 0),
    }
}

// What all registers take.
pub(crate) fn values<N: Copy>(
    alloc: Global,
    inputs: &[Input<N>],
) -> Result<Vec<Expr<N>>, AllocError>
    requires { All (λ i. (a : Operand N) → i.operand ≡ Some a → IsOperand a) inputs.now }
    ensures { IfOk result (λ r. map_list tree_of r.items ≡ map_list input_tree inputs.now) }
{
    let mut all = Vec::new(alloc);
    for input in inputs {
        all.push(value(input.operand, input.width))?;
    }
    Ok(all)
}

// Each register takes its value where the net is 1.
pub(crate) fn statement<N: Copy>(
    alloc: Global,
    advance: N,
    values: Vec<Expr<N>>,
) -> Result<Stmt<N>, AllocError>
    ensures { IfOk result (λ s. statement_of s ≡ held_statement advance (map_list tree_of values.items)) }
{
    let mut left = values;
    let mut list = Stmts::End;
    while let Some(value) = left.pop() {
        let Ok(register) = u32::try_from(left.len()) else {
            return Err(AllocError);
        };
        list = then(alloc, Stmt::Set(register, value), list)?;
    }
    let all = block(alloc, list)?;
    when(alloc, Expr::Read(advance), all)
}
