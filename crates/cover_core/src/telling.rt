// Instructions that change nothing but the place.

ghost use Rattle.std.specs.Prelude.{◌≡◌, ◌<◌, ◌↔◌, length, All, IsTrue};
ghost use Rattle.xdp_machine.specs.bpf_isa.Text.{insn_at};
ghost use Rattle.unfold_core.specs.Units.{ArePlaces};
ghost use Rattle.cover_core.specs.Cover.{place_of, is_plain_jump, is_constant_move, equal_side, Tells, TellsBy, IsTold, Idles};

use crate::settling::insn_at;
use unfold_core::{Edge, Unfolded};
use xdp_machine::bpf_isa::{AluCode, Insn, JumpCode, Op, Src, Width};
use xdp_object::Program;

// Whether an instruction always jumps.
fn is_plain_jump(op: Op) -> bool
    ensures { result ≡ is_plain_jump op }
{
    matches!(op, Op::Ja(_))
}

// Whether an instruction moves a number into a register.
fn is_constant_move(op: Op) -> bool
    ensures { result ≡ is_constant_move op }
{
    matches!(op, Op::Alu(Width::Bits64, AluCode::Mov, Src::K))
}

/// The side of a jump of 64 bits on which the destination is equal to the immediate number.
pub fn equal_side(op: Op) -> Option<bool>
    ensures { result ≡ equal_side op }
{
    match op {
        Op::Jump(Width::Bits64, JumpCode::Jeq, Src::K) => Some(true),
        Op::Jump(Width::Bits64, JumpCode::Jne, Src::K) => Some(false),
        _ => None,
    }
}

// Whether on this side of a jump the register that a move writes is equal to the number that it moves.
fn tells(i: &Insn, j: &Insn, taken: bool) -> bool
    ensures { IsTrue result ↔ Tells i.now j.now taken }
{
    equal_side(j.op) == Some(taken) && j.dst == i.dst && j.imm == i.imm
}

// Whether an edge tells so.
fn edge_tells(
    b: &Program,
    units: &[Option<Insn>],
    unfolded: &Unfolded,
    i: &Insn,
    edge: &Edge,
) -> bool
    requires units { ArePlaces b.now.insns units.now }
    requires from { edge.now.from < length unfolded.now.nodes.items }
    ensures { IsTrue result ↔ TellsBy i.now edge.now.taken (insn_at b.now.insns (place_of unfolded.now edge.now.from)) }
{
    let place = unfolded.nodes[edge.from as usize].node.place();
    match insn_at(units, u64::from(place)) {
        Some(j) => tells(i, &j, edge.taken),
        None => false,
    }
}

// Whether each edge to a node tells so.
fn each_tells(b: &Program, units: &[Option<Insn>], unfolded: &Unfolded, node: u32, i: &Insn) -> bool
    requires units { ArePlaces b.now.insns units.now }
    requires edges { All (λ x. (x.from < x.to) × (x.to < length unfolded.now.nodes.items)) unfolded.now.edges.items }
    ensures { IsTrue result ↔ All (λ x. x.to ≡ node → TellsBy i.now x.taken (insn_at b.now.insns (place_of unfolded.now x.from))) unfolded.now.edges.items }
{
    for edge in &unfolded.edges {
        if edge.to == node && !edge_tells(b, units, unfolded, i, edge) {
            return false;
        }
    }
    true
}

// Whether an instruction at a node moves a number to where it is already.
fn is_told(b: &Program, units: &[Option<Insn>], unfolded: &Unfolded, node: u32, i: &Insn) -> bool
    requires units { ArePlaces b.now.insns units.now }
    requires edges { All (λ x. (x.from < x.to) × (x.to < length unfolded.now.nodes.items)) unfolded.now.edges.items }
    ensures { IsTrue result ↔ IsTold b.now unfolded.now node i.now }
{
    is_constant_move(i.op) && 0 < node && each_tells(b, units, unfolded, node, i)
}

/// Whether an instruction at a node changes nothing but the place.
pub(crate) fn idles(
    b: &Program,
    units: &[Option<Insn>],
    unfolded: &Unfolded,
    node: u32,
    i: &Insn,
) -> bool
    requires units { ArePlaces b.now.insns units.now }
    requires edges { All (λ x. (x.from < x.to) × (x.to < length unfolded.now.nodes.items)) unfolded.now.edges.items }
    ensures { IsTrue result ↔ Idles b.now unfolded.now node i.now }
{
    is_plain_jump(i.op) || is_told(b, units, unfolded, node, i)
}
