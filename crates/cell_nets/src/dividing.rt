//! Quotients and remainders, whose divisor is never 0.

ghost use Rattle.std.specs.Prelude.{ℕ, [], ◌∷◌, ◌≡◌, ◌≢◌, ◌<◌, ◌≤◌, true, IfOk};
ghost use Rattle.net_core.specs.View.{right_of};
ghost use Rattle.cell_core.specs.xdp_machine.State.{PacketIn};
ghost use Rattle.cell_nets.specs.Dividing.{divided, division};
ghost use Rattle.cell_nets.specs.Operands.{IsOperand, IsWide, number_in};
ghost use Rattle.cell_nets.specs.Parts.{worth};
ghost use Rattle.cell_nets.specs.Wires.{wires_of, GivesBy};

use crate::choosing::non_zero;
use crate::operand::Operand;
use crate::slice::slice;
use crate::wires::{cut, push};
use block_core::block::BlockWire;
use block_core::name::Name;
use net_core::tree::Right;
use std::alloc::{AllocError, Global};

// The quotient of two nets, or their remainder.
fn divided<N: Copy>(remainder: bool, n: N, d: N) -> Right<N>
    ensures { right_of result ≡ divided remainder n d }
{
    if remainder {
        Right::Remainder(n, d)
    } else {
        Right::Quotient(n, d)
    }
}

/// Wires for the quotient of two operands, or for their remainder: one for each of them, of 64 bits, and one for what comes of them. The divisor
/// is 1 where the second operand is 0, so that no clock stops; the value is right where it is not.
pub fn divide<P: Copy>(
    alloc: Global,
    wires: &mut Vec<BlockWire<Name<P>>>,
    part: P,
    remainder: bool,
    a: Operand<Name<P>>,
    b: Operand<Name<P>>,
    width: u8,
) -> Result<Operand<Name<P>>, AllocError>
    requires left { IsOperand a }
    requires right { IsOperand b }
    requires width { IsWide width }
    ensures { (packet : PacketIn) → IfOk result (GivesBy true part (wires_of wires.old.items) (wires_of wires.new.items) (a ∷ b ∷ []) (λ v. number_in v b ≢ 0) (worth packet (division remainder) (a ∷ b ∷ []) width) width) }
{
    let top = slice(alloc, a, 0, 64)?;
    let bottom = non_zero(alloc, b, 64)?;
    let dividend = push(wires, part, 64, Right::Plain(top))?;
    let divisor = push(wires, part, 64, Right::Plain(bottom))?;
    let right = divided(remainder, dividend, divisor);
    let whole = push(wires, part, 64, right)?;
    let out = cut(alloc, wires, part, Operand::Net(whole, 64), 0, width)?;
    Ok(out)
}
