// What an instruction may write into a map.

ghost use Rattle.std.specs.Prelude.{◌≡◌};
ghost use Rattle.xdp_state.specs.bpf_isa.Spelling.{IsInsn};
ghost use Rattle.row_rules.specs.PlaceRows.Writing.{through, record_as};

use crate::place_rows::calls::called_on;
use crate::place_rows::reading::compares;
use crate::place_rows::span::{NONE, Span, register};
use kind_core::{Kind, Kinds};
use xdp_state::bpf_isa::{Helper, Insn, Op};
use xdp_state::xdp_maps::decl::MapDecl;

/// A write of a map, and the places that it takes: of an update the key and the value, of a delete the key, of a store and of an atomic
/// change the pointer, the source, and what is compared.
#[derive(Copy, Clone)]
pub struct Record {
    pub map: u32,
    pub takes: [Span; 3],
}

// A write through a pointer to an entry.
fn through(base: Kind, takes: [Span; 3]) -> Option<Record>
    ensures { result ≡ through base takes }
{
    match base {
        Kind::Entry(map, _) => Some(Record { map, takes }),
        _ => None,
    }
}

/// The write of a map that an instruction may make.
pub fn record_of(decls: &[MapDecl], kinds: &Kinds, insn: &Insn) -> Option<Record>
    requires { IsInsn insn.now }
    ensures { result ≡ record_as decls.now kinds.now insn.now insn.now.op }
{
    let base = kinds.registers[insn.dst as usize];
    match insn.op {
        Op::StoreImm(_) => through(base, [register(insn.dst), NONE, NONE]),
        Op::Store(_) => through(base, [register(insn.dst), register(insn.src), NONE]),
        Op::Atomic(_) => {
            let compared = if compares(insn) { register(0) } else { NONE };
            through(base, [register(insn.dst), register(insn.src), compared])
        }
        Op::Call => called_on(decls, kinds, Helper::of(insn.imm)),
        _ => None,
    }
}
