// The stages of a program.

ghost use Rattle.std.specs.Prelude.{◌≡◌, ◌<◌, ◌≤◌, ◌⊎◌, IfOk, All, Some, length, IsErrOf};
ghost use Rattle.xdp_state.specs.bpf_isa.Spelling.{IsInsn};
ghost use Rattle.xdp_state.specs.declared.refusal.Refusal.{Refusal as RefusalIs};
ghost use Rattle.unfold_core.specs.Graphs.{most_nodes};
ghost use Rattle.unfold_core.specs.Units.{ArePlaces};
ghost use Rattle.unfold_core.specs.Unfolding.{IsUnfolded};
ghost use Rattle.row_rules.specs.NodeRows.Passing.{IsLow};
ghost use Rattle.row_rules.specs.NodeRows.Rows.{point_at, insn_of, behind_node, may_write, with_node, IsTooLate, AreCounted};

use crate::node_rows::arriving::{arrivals, insn_at, known_behind};
use crate::node_rows::joining::{edge_row, join};
use crate::node_rows::node::{AfterNode, pass};
use crate::place_rows::recording::record_of;
use std::alloc::{AllocError, Global};
use unfold_core::laws::{edges_lead_on, nodes_have_links};
use unfold_core::{Point, Unfolded, places};
use xdp_object::Program;
use xdp_state::bpf_isa::Insn;
use xdp_state::{BuildError, MOST_STAGES, Refusal, Why};

/// How many stages a program has, and how many of its nodes may write a map.
#[derive(Copy, Clone, Debug, PartialEq, Eq)]
pub struct Stages {
    pub rows: u32,
    pub records: u32,
}

impl Stages {
    // With one node more, of this row.
    fn with_node(self, row: u32, writes: bool) -> Stages
        requires { self.records < most_nodes }
        ensures { result ≡ with_node self row writes }
    {
        let more = if writes { 1 } else { 0 };
        Stages {
            rows: self.rows.max(row),
            records: self.records + more,
        }
    }
}

// The instruction at a node.
fn insn_of_node(program: &Program, units: &[Option<Insn>], unfolded: &Unfolded, node: u32) -> Insn
    requires units { ArePlaces program.now.insns units.now }
    requires unfolded { IsUnfolded program.now unfolded.now }
    requires node { node < length unfolded.now.nodes.items }
    ensures found { insn_of program.now (point_at unfolded.now.nodes.items node) ≡ Some result }
    ensures legal { IsInsn result }
{
    nodes_have_links();
    match insn_at(units, &unfolded.nodes[node as usize]) {
        Some(insn) => insn,
        // An instruction begins at each node.
        None => unreachable!(),
    }
}

// What stands after a node, by those before it.
fn behind(
    alloc: Global,
    program: &Program,
    units: &[Option<Insn>],
    unfolded: &Unfolded,
    passed: &[AfterNode],
    node: u32,
    insn: &Insn,
) -> Result<AfterNode, AllocError>
    requires units { ArePlaces program.now.insns units.now }
    requires up { All (λ e. (e.from < e.to) × (e.to < length unfolded.now.nodes.items)) unfolded.now.edges.items }
    requires node { node < length unfolded.now.nodes.items }
    requires few { length unfolded.now.nodes.items ≤ most_nodes }
    requires passed { length passed.now ≡ node }
    requires low { All IsLow passed.now }
    requires insn { insn_of program.now (point_at unfolded.now.nodes.items node) ≡ Some insn.now }
    requires legal { IsInsn insn.now }
    ensures { IfOk result (λ b. b ≡ behind_node program.now unfolded.now.nodes.items unfolded.now.edges.items passed.now node) }
{
    let at = &unfolded.nodes[node as usize];
    let arrivals = arrivals(
        alloc,
        program,
        units,
        &unfolded.nodes,
        &unfolded.edges,
        passed,
        node,
    )?;
    let guard = edge_row(&arrivals);
    let before = join(&arrivals, node + 1, &at.kinds);
    let after = known_behind(program, insn, at, node, false);
    Ok(pass(
        program.decls(),
        &at.kinds,
        &after,
        insn,
        node + 1,
        guard,
        &before,
    ))
}

// Whether a node may write a map.
fn may_write(program: &Program, at: &Point, insn: &Insn) -> bool
    requires { IsInsn insn.now }
    ensures { result ≡ may_write program.now at.now (Some insn.now) }
{
    record_of(program.decls(), &at.kinds, insn).is_some()
}

/// The stages of a program without loops, and its records. It is refused exactly where the row of a node exceeds 256, at the place of the first
/// such node.
pub fn count_stages(
    alloc: Global,
    program: &Program,
    unfolded: &Unfolded,
) -> Result<Stages, BuildError>
    requires { IsUnfolded program.now unfolded.now }
    ensures counted { AreCounted program.now unfolded.now result }
    ensures exactly { (r : RefusalIs) → IsTooLate program.now unfolded.now.nodes.items unfolded.now.edges.items r → IsErrOf result (BuildError.Refused r) ⊎ IsErrOf result BuildError.NoMemory }
{
    edges_lead_on();
    let Ok(units) = places(alloc, program) else {
        return Err(BuildError::NoMemory);
    };
    let mut passed = Vec::new(alloc);
    let mut stages = Stages {
        rows: 0,
        records: 0,
    };
    for number in 0..unfolded.nodes.len() {
        let node = number as u32;
        let at = &unfolded.nodes[number];
        let insn = insn_of_node(program, &units, unfolded, node);
        let Ok(next) = behind(alloc, program, &units, unfolded, &passed, node, &insn) else {
            return Err(BuildError::NoMemory);
        };
        if next.row > MOST_STAGES {
            return Err(BuildError::Refused(Refusal {
                at: at.node.place(),
                why: Why::Stages,
            }));
        }
        stages = stages.with_node(next.row, may_write(program, at, &insn));
        let Ok(()) = passed.push(next) else {
            return Err(BuildError::NoMemory);
        };
    }
    Ok(stages)
}
