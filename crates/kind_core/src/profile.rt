// What is asked of every instruction.

ghost use Rattle.std.specs.Prelude.{◌≡◌, ◌≤◌};
ghost use Rattle.xdp_machine.specs.bpf_isa.Helpers.{helper_of};
ghost use Rattle.kind_core.specs.Profile.{writes_destination, writes_source, writes_stack_end, known_helper, in_profile, keeps_stack_end, reads_destination, reads_source, others_read, registers_read, profiled};

use crate::access::{compares, fetches};
use crate::helpers::arguments_read;
use crate::kind::Kinds;
use crate::tests::read_if;
use xdp_machine::bpf_isa::{AluCode, Helper, Insn, Op, Src};
use xdp_state::Why;

// Whether the destination is written.
fn writes_destination(op: Op) -> bool
    ensures { result ≡ writes_destination op }
{
    match op {
        Op::Alu(_, _, _)
        | Op::Neg(_)
        | Op::End(_)
        | Op::Swap
        | Op::LoadImm
        | Op::Load(_)
        | Op::LoadSigned(_) => true,
        _ => false,
    }
}

// Whether the source is written.
fn writes_source(insn: &Insn) -> bool
    ensures { result ≡ writes_source insn.now insn.now.op }
{
    match insn.op {
        Op::Atomic(_) => fetches(insn.imm.cast_unsigned()) && !compares(insn),
        _ => false,
    }
}

// Whether R10 is written.
fn writes_stack_end(insn: &Insn) -> bool
    ensures { result ≡ writes_stack_end insn.now }
{
    (writes_destination(insn.op) && insn.dst == 10) || (writes_source(insn) && insn.src == 10)
}

// The helper of a call is one that the machine has.
fn known_helper(id: i64) -> Result<(), Why>
    ensures { result ≡ known_helper id (helper_of id) }
{
    match Helper::of(id) {
        Some(_) => Ok(()),
        None => Err(Why::Helper(id)),
    }
}

// The operation is in the profile.
fn in_profile(insn: &Insn) -> Result<(), Why>
    ensures { result ≡ in_profile insn.now insn.now.op }
{
    match insn.op {
        Op::Abs(_) | Op::Ind(_) => Err(Why::Instruction),
        Op::Call | Op::LoadImm if insn.src != 0 => Err(Why::Instruction),
        Op::Call => known_helper(insn.imm),
        _ => Ok(()),
    }
}

// R10 is not written.
fn keeps_stack_end(insn: &Insn) -> Result<(), Why>
    ensures { result ≡ keeps_stack_end insn.now }
{
    if writes_stack_end(insn) {
        Err(Why::Instruction)
    } else {
        Ok(())
    }
}

// Whether the destination is read.
fn reads_destination(op: Op) -> bool
    ensures { result ≡ reads_destination op }
{
    match op {
        Op::Alu(_, AluCode::Mov, _) => false,
        Op::Alu(_, _, _)
        | Op::Neg(_)
        | Op::End(_)
        | Op::Swap
        | Op::Jump(_, _, _)
        | Op::StoreImm(_)
        | Op::Store(_)
        | Op::Atomic(_) => true,
        _ => false,
    }
}

// Whether the source is read.
fn reads_source(op: Op) -> bool
    ensures { result ≡ reads_source op }
{
    match op {
        Op::Alu(_, _, Src::X)
        | Op::Jump(_, _, Src::X)
        | Op::Load(_)
        | Op::LoadSigned(_)
        | Op::Store(_)
        | Op::Atomic(_) => true,
        _ => false,
    }
}

// The other registers that are read.
fn others_read(insn: &Insn, kinds: &Kinds) -> Result<(), Why>
    ensures { result ≡ others_read insn.now kinds.now insn.now.op }
{
    match insn.op {
        Op::Call => arguments_read(kinds, Helper::of(insn.imm)),
        Op::Exit => read_if(true, kinds.registers[0]),
        Op::Atomic(_) => read_if(compares(insn), kinds.registers[0]),
        _ => Ok(()),
    }
}

// The registers that are read are readable.
fn registers_read(insn: &Insn, kinds: &Kinds) -> Result<(), Why>
    requires dst { insn.now.dst ≤ 10 }
    requires src { insn.now.src ≤ 10 }
    ensures { result ≡ registers_read insn.now kinds.now }
{
    read_if(
        reads_destination(insn.op),
        kinds.registers[insn.dst as usize],
    )?;
    read_if(reads_source(insn.op), kinds.registers[insn.src as usize])?;
    others_read(insn, kinds)
}

/// The tests of every instruction.
pub(crate) fn profiled(insn: &Insn, kinds: &Kinds) -> Result<(), Why>
    requires dst { insn.now.dst ≤ 10 }
    requires src { insn.now.src ≤ 10 }
    ensures { result ≡ profiled insn.now kinds.now }
{
    in_profile(insn)?;
    keeps_stack_end(insn)?;
    registers_read(insn, kinds)
}
