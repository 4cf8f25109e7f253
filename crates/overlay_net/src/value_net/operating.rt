//! Operators on operands that are not in a list.

ghost use Rattle.std.specs.Prelude.{List, [], ◌∷◌, ◌≡◌, ◌≤◌, false, if◌then◌else◌, All, IfOk};
ghost use Rattle.block_core.specs.net_core.Value.{Env};
ghost use Rattle.hazard_core.specs.xdp_machine.State.{PacketIn};
ghost use Rattle.hazard_core.specs.cell_core.Cells.{number, bits_from, on};
ghost use Rattle.hazard_core.specs.cell_core.Formed.{IsInRange};
ghost use Rattle.cell_nets.specs.Computing.{is_outside, makes_product};
ghost use Rattle.cell_nets.specs.Operands.{IsOperand, IsAvailable, number_in};
ghost use Rattle.cell_nets.specs.Wires.{wires_of, always, Gives};
ghost use Rattle.overlay_net.specs.ValueNet.Lists.{numbers_in, number_of};

use block_core::block::BlockWire;
use block_core::name::Name;
use cell_nets::cell_core::operator::Operator;
use cell_nets::operand::Operand;
use cell_nets::operators::cell_wires;
use std::alloc::{AllocError, Global};

// Bits of an operator on operands, where it is no product.
fn operate<P: Copy>(
    alloc: Global,
    wires: &mut Vec<BlockWire<Name<P>>>,
    part: P,
    op: Operator,
    args: &[Operand<Name<P>>],
    from: u8,
    width: u8,
) -> Result<Operand<Name<P>>, AllocError>
    requires computed { is_outside op ≡ false }
    requires plain { makes_product op ≡ false }
    requires in_range { IsInRange op }
    requires operands { All IsOperand args.now }
    requires from { from ≤ 63 }
    requires width { width ≤ 64 }
    ensures { (packet : PacketIn) → IfOk result (Gives part (wires_of wires.old.items) (wires_of wires.new.items) args.now always (λ v. bits_from (number packet op (numbers_in v args.now)) from width) width) }
{
    let out = cell_wires(alloc, wires, part, op, args, width, from)?;
    Ok(out)
}

/// An operator on two operands.
pub(crate) fn pair<P: Copy>(
    alloc: Global,
    wires: &mut Vec<BlockWire<Name<P>>>,
    part: P,
    op: Operator,
    a: Operand<Name<P>>,
    b: Operand<Name<P>>,
    width: u8,
) -> Result<Operand<Name<P>>, AllocError>
    requires computed { is_outside op ≡ false }
    requires plain { makes_product op ≡ false }
    requires in_range { IsInRange op }
    requires left { IsOperand a }
    requires right { IsOperand b }
    requires width { width ≤ 64 }
    ensures operand { IfOk result IsOperand }
    ensures gives { (packet : PacketIn) → IfOk result (Gives part (wires_of wires.old.items) (wires_of wires.new.items) (a ∷ b ∷ []) always (λ v. bits_from (number packet op (number_in v a ∷ number_in v b ∷ [])) 0 width) width) }
{
    let mut args = Vec::new(alloc);
    args.push(a)?;
    args.push(b)?;
    let out = operate(alloc, wires, part, op, &args, 0, width)?;
    Ok(out)
}

/// Bits of the second of three operands where the first is not 0, else of the third.
pub(crate) fn choose<P: Copy>(
    alloc: Global,
    wires: &mut Vec<BlockWire<Name<P>>>,
    part: P,
    c: Operand<Name<P>>,
    a: Operand<Name<P>>,
    b: Operand<Name<P>>,
    from: u8,
    width: u8,
) -> Result<Operand<Name<P>>, AllocError>
    requires condition { IsOperand c }
    requires left { IsOperand a }
    requires right { IsOperand b }
    requires from { from ≤ 63 }
    requires width { width ≤ 64 }
    ensures { IfOk result (Gives part (wires_of wires.old.items) (wires_of wires.new.items) (c ∷ a ∷ b ∷ []) always (λ v. bits_from (if on (number_in v c) then number_in v a else number_in v b) from width) width) }
{
    let mut args = Vec::new(alloc);
    args.push(c)?;
    args.push(a)?;
    args.push(b)?;
    let out = operate(alloc, wires, part, Operator::Select, &args, from, width)?;
    Ok(out)
}

/// An operand by its place, 0 past the last.
pub(crate) fn operand_at<N: Copy>(args: &[Operand<N>], at: usize) -> Operand<N>
    requires { All IsOperand args.now }
    ensures operand { IsOperand result }
    ensures available { (ins : List (Operand N)) → All (IsAvailable ins) args.now → IsAvailable ins result }
    ensures number { (v : Env N) → number_in v result ≡ number_of args.now at v }
{
    if at < args.len() {
        args[at]
    } else {
        Operand::Known(0)
    }
}
