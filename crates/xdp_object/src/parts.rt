//! The parts of a program: what they have to be.

ghost use Rattle.std.specs.Prelude.{◌≡◌, ◌≢◌, ◌↔◌, All, IsTrue, length};
ghost use Rattle.std.specs.List.{AllPairs};
ghost use Rattle.std.specs.List.Sorted.{IsStrictlyIncreasing};
ghost use Rattle.std.specs.Option.{option_copied};
ghost use Rattle.bpf_isa.specs.Spelling.{IsInsn};
ghost use Rattle.bpf_isa.specs.Text.{insn_at, unit_count};
ghost use Rattle.xdp_machine.specs.Program.{IsDeclaration, IsMapName, IsReference, is_name_byte};
ghost use Rattle.xdp_object.specs.Maps.{IsNameIn, is_map_name, is_taken};

use bpf_isa::{Insn, Op};
use xdp_maps::decl::MapDecl;

/// Whether these are instructions of the table.
pub fn are_legal(insns: &[Insn]) -> bool
    ensures { IsTrue result ↔ All IsInsn insns.now }
{
    for insn in insns {
        if !insn.is_legal() {
            return false;
        }
    }
    true
}

/// How many units instructions have.
pub fn unit_count(insns: &[Insn]) -> u128
    ensures { result ≡ unit_count insns.now }
{
    let mut units = 0;
    for insn in insns {
        units += u128::from(insn.op.units());
    }
    units
}

// A letter, a digit, `_` or `.`.
fn is_name_byte(byte: u8) -> bool
    ensures { result ≡ is_name_byte byte }
{
    byte.is_ascii_alphanumeric() || byte == b'_' || byte == b'.'
}

/// Whether a text can name a map.
pub fn is_map_name(name: &[u8]) -> bool
    ensures name { IsTrue result ↔ IsMapName name.now }
    ensures value { result ≡ is_map_name name.now }
{
    if name.is_empty() || name.len() > 63 {
        return false;
    }
    for byte in name {
        if !is_name_byte(*byte) {
            return false;
        }
    }
    true
}

// Whether a map can be declared so.
fn is_declaration(decl: &MapDecl) -> bool
    ensures { IsTrue result ↔ IsDeclaration decl.now }
{
    decl.is_within_limits() && is_map_name(decl.name.as_slice())
}

/// Whether maps can be declared so, each by itself.
pub fn are_declarations(decls: &[MapDecl]) -> bool
    ensures { IsTrue result ↔ All IsDeclaration decls.now }
{
    for decl in decls {
        if !is_declaration(decl) {
            return false;
        }
    }
    true
}

/// Whether a name is that of one of these maps.
pub fn is_taken(decls: &[MapDecl], name: &[u8]) -> bool
    ensures taken { IsTrue result ↔ IsNameIn decls.now name.now }
    ensures value { result ≡ is_taken decls.now name.now }
{
    for decl in decls {
        if decl.name.as_slice() == name {
            return true;
        }
    }
    false
}

/// Whether no two maps have one name.
pub fn have_own_names(decls: &[MapDecl]) -> bool
    ensures { IsTrue result ↔ AllPairs (λ d e. d.name ≢ e.name) decls.now }
{
    for i in 0..decls.len() {
        if is_taken(&decls[..i], decls[i].name.as_slice()) {
            return false;
        }
    }
    true
}

/// The instruction that begins at a place.
fn insn_at(insns: &[Insn], place: u32) -> Option<&Insn>
    ensures { option_copied result ≡ insn_at insns.now place }
{
    let mut left = place;
    for insn in insns {
        if left == 0 {
            return Some(insn);
        }
        let units = u32::from(insn.op.units());
        if left < units {
            return None;
        }
        left -= units;
    }
    None
}

// Whether the instruction at a place refers to one of so many maps.
fn is_reference(insns: &[Insn], maps: usize, place: u32) -> bool
    ensures { IsTrue result ↔ IsReference insns.now maps place }
{
    match insn_at(insns, place) {
        Some(insn) => {
            insn.op == Op::LoadImm
                && insn.src == 0
                && insn.imm.cast_unsigned() % (1 << 32) < maps as u64
        }
        None => false,
    }
}

/// Whether each of these places refers to one of so many maps.
pub fn are_references(insns: &[Insn], maps: usize, refs: &[u32]) -> bool
    ensures { IsTrue result ↔ All (IsReference insns.now maps) refs.now }
{
    for place in refs {
        if !is_reference(insns, maps, *place) {
            return false;
        }
    }
    true
}

/// Whether each place is below the next.
pub fn are_ascending(places: &[u32]) -> bool
    ensures { IsTrue result ↔ IsStrictlyIncreasing places.now }
{
    for k in 1..places.len() {
        if places[k - 1] >= places[k] {
            return false;
        }
    }
    true
}
