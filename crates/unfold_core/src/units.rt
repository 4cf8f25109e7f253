// The instructions of a program by their places.

ghost use Rattle.std.specs.Prelude.{◌≡◌, ◌-◌, ◌∷◌, ◌++◌, replicate, Some, None, IfOk, OnOk};
ghost use Rattle.xdp_machine.specs.bpf_isa.Spelling.{units_of};
ghost use Rattle.unfold_core.specs.Units.{AreUnits, ArePlaces};

use std::alloc::{AllocError, Global};
use xdp_machine::bpf_isa::Insn;
use xdp_object::Program;

// Adds the units of an instruction.
fn push_units(units: &mut Vec<Option<Insn>>, insn: &Insn) -> Result<(), AllocError>
    ensures { OnOk result (units.new.items ≡ units.old.items ++ (Some insn.now ∷ replicate (units_of insn.now.op - 1) None)) }
{
    units.push(Some(*insn))?;
    if insn.op.units() == 2 {
        units.push(None)?;
    }
    Ok(())
}

/// The instruction that begins at each place, if one does.
pub(crate) fn units_of(alloc: Global, insns: &[Insn]) -> Result<Vec<Option<Insn>>, AllocError>
    ensures { IfOk result (λ units. AreUnits insns.now units.items) }
{
    let mut units = Vec::new(alloc);
    for insn in insns {
        push_units(&mut units, insn)?;
    }
    Ok(units)
}

/// The instructions of a program by their places: at each place, in units, the instruction that begins there, if one does.
pub fn places(alloc: Global, program: &Program) -> Result<Vec<Option<Insn>>, AllocError>
    ensures { IfOk result (λ units. ArePlaces program.now.insns units.items) }
{
    units_of(alloc, program.insns())
}
