// Whether origins are a cover.

ghost use Rattle.std.specs.Prelude.{◌≡◌, ◌<◌, ◌≤◌, ◌↔◌, ℕ, length, All, IfOk, IsTrue, Some};
ghost use Rattle.xdp_machine.specs.bpf_isa.Opcode.{code_of};
ghost use Rattle.xdp_machine.specs.bpf_isa.Spelling.{IsInsn};
ghost use Rattle.xdp_machine.specs.bpf_isa.Text.{insn_at};
ghost use Rattle.unfold_core.specs.Units.{ArePlaces};
ghost use Rattle.unfold_core.specs.Edges.{is_reference};
ghost use Rattle.unfold_core.specs.LinkLaws.{known_behind};
ghost use Rattle.unfold_core.specs.Unfolding.{IsUnfolded};
ghost use Rattle.cover_core.specs.Cover.{node_at, place_of, origin_of, undirected, AreSameFields, Waits, Settles, Steps, StepsBy, IsCovered, IsCover};
ghost use Rattle.cover_core.specs.Settling.{settled};
ghost use Rattle.kind_core.specs.Kinds.{start};
ghost use Rattle.unfold_core.specs.Graphs.{most_nodes};
ghost use Rattle.cover_core.specs.Laws.{HaveSameRuns};

use crate::laws::covers_keep_runs;
use crate::settling::{insn_at, settle, side};
use crate::telling::idles;
use kind_core::{Kinds, transfer};
use std::alloc::{AllocError, Global};
use unfold_core::laws::{edges_lead_on, start_is_first};
use unfold_core::{Edge, Point, Unfolded, places};
use xdp_machine::bpf_isa::{Insn, Op, encode_one};
use xdp_machine::xdp_maps::decl::MapDecl;
use xdp_object::Program;

// Whether two maps are declared in the same way.
fn is_same_decl(x: &MapDecl, y: &MapDecl) -> bool
    ensures { IsTrue result ↔ (x.now ≡ y.now) }
{
    x.name.as_slice() == y.name.as_slice()
        && x.kind == y.kind
        && x.key == y.key
        && x.value == y.value
        && x.cap == y.cap
}

// Whether these are the same maps in the same order.
fn are_same_decls(xs: &[MapDecl], ys: &[MapDecl]) -> bool
    ensures { IsTrue result ↔ (xs.now ≡ ys.now) }
{
    if xs.len() != ys.len() {
        return false;
    }
    for i in 0..xs.len() {
        if !is_same_decl(&xs[i], &ys[i]) {
            return false;
        }
    }
    true
}

// The place of a for a node.
fn origin_of(unfolded: &Unfolded, origin: &[u32], node: u32) -> u32
    requires { node < length unfolded.now.nodes.items }
    ensures { result ≡ origin_of unfolded.now origin.now node }
{
    let place = unfolded.nodes[node as usize].node.place() as usize;
    if place < origin.len() {
        origin[place]
    } else {
        0
    }
}

// An instruction, of a conditional jump without its distance.
fn undirected(insn: &Insn) -> Insn
    ensures { result ≡ undirected insn.now }
{
    match insn.op {
        Op::Jump(_, _, _) => Insn { offset: 0, ..*insn },
        _ => *insn,
    }
}

// The opcode of an instruction, the first byte of its text.
fn opcode(insn: &Insn) -> u8
    requires { IsInsn insn.now }
    ensures { result ≡ code_of insn.now.op }
{
    let (bytes, _) = encode_one(insn);
    bytes[0]
}

// Whether the operations of two instructions are the same.
fn is_same_op(i: &Insn, j: &Insn) -> bool
    requires i { IsInsn i.now }
    requires j { IsInsn j.now }
    ensures { IsTrue result ↔ (code_of j.now.op ≡ code_of i.now.op) }
{
    opcode(j) == opcode(i)
}

// Whether all but the operations of two instructions are the same.
fn has_same_fields(i: &Insn, j: &Insn) -> bool
    ensures { IsTrue result ↔ AreSameFields j.now i.now }
{
    i.dst == j.dst && i.src == j.src && i.offset == j.offset && i.imm == j.imm
}

// Whether two instructions are the same but for the distance of a conditional jump.
fn is_same_insn(i: &Insn, j: &Insn) -> bool
    requires i { IsInsn i.now }
    requires j { IsInsn j.now }
    ensures { IsTrue result ↔ (undirected j.now ≡ undirected i.now) }
{
    if !is_same_op(i, j) {
        return false;
    }
    has_same_fields(&undirected(i), &undirected(j))
}

// Whether a stays where it is when b goes on from a node.
fn waits(unfolded: &Unfolded, origin: &[u32], node: u32) -> bool
    requires node { node < length unfolded.now.nodes.items }
    requires edges { All (λ x. (x.from < x.to) × (x.to < length unfolded.now.nodes.items)) unfolded.now.edges.items }
    ensures { IsTrue result ↔ Waits unfolded.now origin.now node }
{
    let place = origin_of(unfolded, origin, node);
    for edge in &unfolded.edges {
        if edge.from == node && origin_of(unfolded, origin, edge.to) != place {
            return false;
        }
    }
    true
}

// Whether a place refers to a map.
fn is_reference(program: &Program, place: u32) -> bool
    ensures { result ≡ is_reference program.now place }
{
    program.refs().contains(&place)
}

// Whether both places refer to a map, or neither does.
fn refer_alike(a: &Program, at: u32, b: &Program, place: u32) -> bool
    ensures { IsTrue result ↔ (is_reference a.now at ≡ is_reference b.now place) }
{
    is_reference(a, at) == is_reference(b, place)
}

// What is known on an edge, after the instruction of the node that it leaves.
fn known_behind(program: &Program, at: &Point, edge: &Edge, insn: &Insn) -> Kinds
    requires { IsInsn insn.now }
    ensures { result ≡ known_behind program.now at.now edge.now (Some insn.now) }
{
    let is_ref = is_reference(program, at.node.place());
    transfer(
        insn,
        &at.kinds,
        program.decls(),
        edge.from,
        is_ref,
        edge.taken,
    )
}

// Whether a goes on by j to where an edge of b leads, on which this is known.
fn settles(
    a: &Program,
    units: &[Option<Insn>],
    b: &Program,
    unfolded: &Unfolded,
    origin: &[u32],
    i: &Insn,
    j: &Insn,
    edge: &Edge,
) -> bool
    requires units { ArePlaces a.now.insns units.now }
    requires i { IsInsn i.now }
    requires j { IsInsn j.now }
    requires from { edge.now.from < length unfolded.now.nodes.items }
    requires to { edge.now.to < length unfolded.now.nodes.items }
    ensures { IsTrue result ↔ Settles a.now b.now unfolded.now origin.now i.now j.now edge.now }
{
    let kinds = known_behind(b, &unfolded.nodes[edge.from as usize], edge, i);
    let place = origin_of(unfolded, origin, edge.from);
    match side(place, j, edge.taken) {
        Some(to) => {
            settle(a, units, &kinds, to) == Some(u64::from(origin_of(unfolded, origin, edge.to)))
        }
        None => false,
    }
}

// Whether a goes on by j wherever b goes on from a node by i.
fn all_settle(
    a: &Program,
    units: &[Option<Insn>],
    b: &Program,
    unfolded: &Unfolded,
    origin: &[u32],
    node: u32,
    i: &Insn,
    j: &Insn,
) -> bool
    requires units { ArePlaces a.now.insns units.now }
    requires i { IsInsn i.now }
    requires j { IsInsn j.now }
    requires edges { All (λ x. (x.from < x.to) × (x.to < length unfolded.now.nodes.items)) unfolded.now.edges.items }
    ensures { IsTrue result ↔ All (λ x. x.from ≡ node → Settles a.now b.now unfolded.now origin.now i.now j.now x) unfolded.now.edges.items }
{
    for edge in &unfolded.edges {
        if edge.from == node && !settles(a, units, b, unfolded, origin, i, j, edge) {
            return false;
        }
    }
    true
}

// Whether both step, b at a node by i, and a at its origin by j.
fn steps(
    a: &Program,
    units: &[Option<Insn>],
    b: &Program,
    unfolded: &Unfolded,
    origin: &[u32],
    node: u32,
    i: &Insn,
    j: &Insn,
) -> bool
    requires units { ArePlaces a.now.insns units.now }
    requires i { IsInsn i.now }
    requires j { IsInsn j.now }
    requires edges { All (λ x. (x.from < x.to) × (x.to < length unfolded.now.nodes.items)) unfolded.now.edges.items }
    requires node { node < length unfolded.now.nodes.items }
    ensures { IsTrue result ↔ Steps a.now b.now unfolded.now origin.now node i.now j.now }
{
    let place = unfolded.nodes[node as usize].node.place();
    let at = origin_of(unfolded, origin, node);
    if !is_same_insn(i, j) {
        return false;
    }
    if !refer_alike(a, at, b, place) {
        return false;
    }
    all_settle(a, units, b, unfolded, origin, node, i, j)
}

// Whether both step at a node, where b has this instruction.
fn both_step(
    a: &Program,
    units: &[Option<Insn>],
    b: &Program,
    unfolded: &Unfolded,
    origin: &[u32],
    node: u32,
    i: &Insn,
) -> bool
    requires units { ArePlaces a.now.insns units.now }
    requires i { IsInsn i.now }
    requires edges { All (λ x. (x.from < x.to) × (x.to < length unfolded.now.nodes.items)) unfolded.now.edges.items }
    requires node { node < length unfolded.now.nodes.items }
    ensures { IsTrue result ↔ StepsBy a.now b.now unfolded.now origin.now node i.now (insn_at a.now.insns (origin_of unfolded.now origin.now node)) }
{
    let place = origin_of(unfolded, origin, node);
    match insn_at(units, u64::from(place)) {
        Some(j) => steps(a, units, b, unfolded, origin, node, i, &j),
        None => false,
    }
}

// Whether a node is covered.
fn is_covered(
    a: &Program,
    a_units: &[Option<Insn>],
    b: &Program,
    b_units: &[Option<Insn>],
    unfolded: &Unfolded,
    origin: &[u32],
    node: u32,
) -> bool
    requires a_units { ArePlaces a.now.insns a_units.now }
    requires b_units { ArePlaces b.now.insns b_units.now }
    requires edges { All (λ x. (x.from < x.to) × (x.to < length unfolded.now.nodes.items)) unfolded.now.edges.items }
    requires node { node < length unfolded.now.nodes.items }
    ensures { IsTrue result ↔ IsCovered a.now b.now unfolded.now origin.now node }
{
    let place = unfolded.nodes[node as usize].node.place();
    match insn_at(b_units, u64::from(place)) {
        Some(i) => {
            (idles(b, b_units, unfolded, node, &i) && waits(unfolded, origin, node))
                || both_step(a, a_units, b, unfolded, origin, node, &i)
        }
        None => false,
    }
}

// Whether each node is covered.
fn are_covered(
    a: &Program,
    a_units: &[Option<Insn>],
    b: &Program,
    b_units: &[Option<Insn>],
    unfolded: &Unfolded,
    origin: &[u32],
) -> bool
    requires a_units { ArePlaces a.now.insns a_units.now }
    requires b_units { ArePlaces b.now.insns b_units.now }
    requires edges { All (λ x. (x.from < x.to) × (x.to < length unfolded.now.nodes.items)) unfolded.now.edges.items }
    requires few { length unfolded.now.nodes.items ≤ most_nodes }
    ensures { IsTrue result ↔ ((n : ℕ) → n < length unfolded.now.nodes.items → IsCovered a.now b.now unfolded.now origin.now n) }
{
    for node in 0..unfolded.nodes.len() {
        if !is_covered(a, a_units, b, b_units, unfolded, origin, node as u32) {
            return false;
        }
    }
    true
}

// Whether a settles at the start where the first node's origin is.
fn starts(a: &Program, units: &[Option<Insn>], unfolded: &Unfolded, origin: &[u32]) -> bool
    requires units { ArePlaces a.now.insns units.now }
    requires some { 0 < length unfolded.now.nodes.items }
    ensures { IsTrue result ↔ (settled a.now.insns (start unfolded.now.offsets) 0 ≡ Some (origin_of unfolded.now origin.now 0)) }
{
    settle(a, units, &Kinds::start(unfolded.offsets), 0)
        == Some(u64::from(origin_of(unfolded, origin, 0)))
}

/// Whether a program b, with its graph, covers a by these origins, a place of a for each place of b. Where it does, each packet has the same run
/// of both.
pub fn covers(
    alloc: Global,
    a: &Program,
    b: &Program,
    unfolded: &Unfolded,
    origin: &[u32],
) -> Result<bool, AllocError>
    requires { IsUnfolded b.now unfolded.now }
    ensures exactly { IfOk result (λ holds. IsTrue holds ↔ IsCover a.now b.now unfolded.now origin.now) }
    ensures runs { IfOk result (λ holds. IsTrue holds → HaveSameRuns a.now b.now) }
{
    covers_keep_runs();
    edges_lead_on();
    start_is_first();
    let a_units = places(alloc, a)?;
    let b_units = places(alloc, b)?;
    Ok(
        are_same_decls(b.decls(), a.decls())
            && starts(a, &a_units, unfolded, origin)
            && are_covered(a, &a_units, b, &b_units, unfolded, origin),
    )
}
