// The program that is refused.

ghost use Rattle.std.specs.Prelude.{IfSome};
ghost use Rattle.xdp_machine.specs.bpf_isa.Spelling.{IsInsn};

use crate::locations::Locations;
use unfold_core::Loop;
use xdp_machine::bpf_isa::Insn;
use xdp_object::Program;

/// The program that is refused: its instructions by their places, its loops, and what is live at each place.
#[derive(Copy, Clone)]
pub(crate) struct Source<'a> {
    pub program: &'a Program,
    pub units: &'a [Option<Insn>],
    pub loops: &'a [Loop],
    pub live: &'a [Locations],
}

// An instruction of the table. It is seen here, so that none below has to be told.
fn legal(unit: Option<Insn>) -> Option<Insn>
    ensures { IfSome result IsInsn }
{
    match unit {
        Some(insn) => { if insn.is_legal() { Some(insn) } else { None } }
        None => None,
    }
}

/// The instruction that begins at a place.
pub(crate) fn insn_at(units: &[Option<Insn>], place: u32) -> Option<Insn>
    ensures { IfSome result IsInsn }
{
    if (place as usize) < units.len() {
        legal(units[place as usize])
    } else {
        None
    }
}

/// Whether a place of the program refers to a map.
pub(crate) fn is_reference(source: &Source<'_>, place: u32) -> bool {
    source.program.refs().contains(&place)
}

/// A set at an index.
pub(crate) fn set_at(sets: &[Locations], index: u32) -> Locations {
    if (index as usize) < sets.len() {
        sets[index as usize]
    } else {
        Locations::NONE
    }
}
