//! Programs node by node: what has been made once some of their nodes are done, and one node more.

ghost use Rattle.std.specs.Prelude.{ℕ, ◌≡◌, ◌+◌, ◌<◌, ◌≤◌, List, length, take, map as map_list, All, IfOk, OnOk};
ghost use Rattle.cell_core.specs.Cells.{CellView};
ghost use Rattle.cell_core.specs.Sites.{site_at};
ghost use Rattle.cell_core.specs.Formed.{IsBelow};
ghost use Rattle.operator_cells.specs.Making.{seen, Grows};
ghost use Rattle.operator_cells.specs.Joining.{AreThere};
ghost use Rattle.operator_cells.specs.HeldCells.Paths.{node_at};
ghost use Rattle.operator_cells.specs.HeldCells.RegisterCells.{pointed};
ghost use Rattle.operator_cells.specs.declared.held_cells.way.Way.{Way};
ghost use Rattle.edge_cells.specs.Joining.{LeadTo};
ghost use Rattle.edge_cells.specs.NodeCells.Ends.{IsNode, HasEnds};
ghost use Rattle.site_cells.specs.Sited.{sited};
ghost use Rattle.predicate_core.specs.StepCells.Stepping.{made_of};
ghost use Rattle.kind_core.specs.declared.kind.Offsets.TheVariants.{Fixed};
ghost use Rattle.unfold_core.specs.Unfolding.{IsUnfolded};
ghost use Rattle.predicate_core.specs.ProgramGraph.Graphs.{graph_of};
ghost use Rattle.predicate_core.specs.Gathering.{arms_of, GathersTo, PassesTo};
ghost use Rattle.predicate_core.specs.Stages.{FitSoFar, ComesWithin};
ghost use Rattle.predicate_core.specs.Pointing.{PointSoFar, ArrivePoints};
ghost use Rattle.predicate_core.specs.Reading.{ReadSoFar, PendingMeets};
ghost use Rattle.predicate_core.specs.Progress.{targets, pending_of, AreNumbers, AreWaiting, Entered, Comes, IsReady};

use crate::arriving::arrive;
use crate::laws::{
    arrivals_fit, arrivals_stay, nodes_fit, nodes_follow, nodes_point, nodes_read,
    sound_graphs_feed, steps_stay,
};
use crate::program_graph::NodeEnds;
use crate::program_graph::laws::graphs_are_sound;
use crate::step_cells::laws::nodes_bring;
use crate::step_cells::made::Made;
use crate::step_cells::pending::{pending_at, pending_behind};
use crate::step_cells::stepping::step_node;
use cell_core::cell::{Cell, Cells};
use cell_core::program::Node;
use cell_core::site::Site;
use edge_cells::joining::Here;
use operator_cells::held_cells::way::Way;
use operator_cells::joining::Arm;
use smallvec::SmallVec;
use std::alloc::{AllocError, Global};
use unfold_core::Unfolded;
use xdp_machine::bpf_isa::Insn;
use xdp_object::Program;

/// Edges by their numbers. Mostly one or two lead to a node.
pub type Numbers = SmallVec<u32, 2>;

/// What has been made of a program whose first nodes are done.
#[derive(Drop)]
pub struct Progress {
    pub made: Made,
    pub nodes: Vec<Node>,
    /// For each node of the program the edges so far that lead to it.
    pub entries: Vec<Numbers>,
    /// Beside each edge for each map the cell of the writes that come before it.
    pub pending: Vec<Cells>,
    /// The packet's own bytes.
    pub window: [u32; 256],
}

/// A node whose turn it is: its guard and what is held there, and for each map the cell of the writes that come before it.
#[derive(Drop)]
struct Arrived {
    here: Here,
    pending: Vec<u32>,
}

// These edges.
fn leading(alloc: Global, ways: &[Way], numbers: &[u32]) -> Result<Vec<Way>, AllocError>
    requires { All (λ i. i < length ways.now) numbers.now }
    ensures { IfOk result (λ here. (n : ℕ) → AreNumbers n (targets ways.now) numbers.now → LeadTo n ways.now here.items) }
{
    let mut here = Vec::new(alloc);
    for number in numbers {
        here.push(ways[*number as usize])?;
    }
    Ok(here)
}

// What these edges bring of the writes of a map.
fn arms(
    alloc: Global,
    ways: &[Way],
    pending: &[Cells],
    numbers: &[u32],
    map: usize,
) -> Result<Vec<Arm>, AllocError>
    requires numbers { All (λ i. i < length ways.now) numbers.now }
    requires beside { length pending.now ≡ length ways.now }
    requires map { All (λ row. map < length row.items) pending.now }
    ensures count { IfOk result (λ arms. length arms.items ≡ length numbers.now) }
    ensures brought { IfOk result (λ arms. (d : Way) → arms.items ≡ arms_of ways.now (map_list (λ x. x.items) pending.now) numbers.now map d) }
    ensures there { IfOk result (λ arms. (cells : List CellView) → All (λ e. e.bit < length cells) ways.now → All (λ row. All (λ c. c < length cells) row.items) pending.now → AreThere cells arms.items) }
{
    let mut arms = Vec::new(alloc);
    for number in numbers {
        let at = *number as usize;
        let row: &[u32] = &pending[at];
        arms.push(Arm {
            bit: ways[at].bit,
            cell: row[map],
        })?;
    }
    Ok(arms)
}

// For each of so many maps the cell of the writes that come before a node, to which these edges lead.
fn gather(
    cells: &mut Vec<Cell>,
    ways: &[Way],
    pending: &[Cells],
    numbers: &[u32],
    maps: usize,
) -> Result<Vec<u32>, AllocError>
    requires some { 1 ≤ length numbers.now }
    requires numbers { All (λ i. i < length ways.now) numbers.now }
    requires beside { length pending.now ≡ length ways.now }
    requires bits { All (λ e. e.bit < length (seen cells.old.items)) ways.now }
    requires waiting { All (λ row. AreWaiting maps (length (seen cells.old.items)) row.items) pending.now }
    ensures grows { IfOk result (λ row. Grows (seen cells.old.items) (seen cells.new.items)) }
    ensures waiting { IfOk result (λ row. AreWaiting maps (length (seen cells.new.items)) row.items) }
    ensures rows { IfOk result (λ row. GathersTo (seen cells.old.items) (seen cells.new.items) ways.now (map_list (λ x. x.items) pending.now) numbers.now maps row.items) }
{
    let mut all = Vec::new(*cells.allocator());
    for map in 0..maps {
        let arms = arms(*cells.allocator(), ways, pending, numbers, map)?;
        let c = pending_at(cells, &arms)?;
        all.push(c)?;
    }
    Ok(all)
}

// The same after a node, before which there were so many sites, and whose code began at this cell.
fn pass(
    cells: &mut Vec<Cell>,
    sites: &[Site],
    pending: &mut Vec<u32>,
    sites_before: usize,
    first: usize,
) -> Result<(), AllocError>
    requires map { sites_before < length (sited sites.now) → (site_at (sited sites.now) sites_before).map < length pending.old.items }
    requires below { sites_before < length (sited sites.now) → IsBelow (length (seen cells.old.items)) (site_at (sited sites.now) sites_before) }
    requires there { All (λ c. c < length (seen cells.old.items)) pending.old.items }
    ensures grows { OnOk result (Grows (seen cells.old.items) (seen cells.new.items)) }
    ensures count { OnOk result (length pending.new.items ≡ length pending.old.items) }
    ensures there { OnOk result (All (λ c. c < length (seen cells.new.items)) pending.new.items) }
    ensures rows { OnOk result (PassesTo (seen cells.old.items) (seen cells.new.items) (sited sites.now) sites_before first pending.old.items pending.new.items) }
{
    if sites_before < sites.len() {
        let map = sites[sites_before].map as usize;
        let c = pending_behind(cells, sites, sites_before, first, pending[map])?;
        pending[map] = c;
    }
    Ok(())
}

// Adds the edges that have nothing beside them to those that lead to their nodes, and beside each of them these cells.
fn enter(
    entries: &mut Vec<Numbers>,
    pending: &mut Vec<Cells>,
    ways: &[Way],
    brought: &[u32],
) -> Result<(), AllocError>
    requires before { length pending.old.items ≤ length ways.now }
    requires inside { All (λ e. e.to < length entries.old.items) ways.now }
    ensures { OnOk result (Entered (take (length pending.old.items) (targets ways.now)) (targets ways.now) (map_list (λ x. x.items) entries.old.items) (map_list (λ x. x.items) entries.new.items) (map_list (λ x. x.items) pending.old.items) (map_list (λ x. x.items) pending.new.items) brought.now) }
{
    for i in pending.len()..ways.len() {
        let Ok(number) = u32::try_from(i) else {
            return Err(AllocError);
        };
        entries[ways[i].to as usize].push(number)?;
        let row = Cells::from_slice(*pending.allocator(), brought)?;
        pending.push(row)?;
    }
    Ok(())
}

// The edges that lead to a node as one.
fn arrive_at(
    progress: &mut Progress,
    program: &Program,
    unfolded: &Unfolded,
    node: u32,
) -> Result<Arrived, AllocError>
    requires unfolded { IsUnfolded program.now unfolded.now }
    requires fixed { unfolded.now.offsets ≡ Fixed }
    requires node { node < length unfolded.now.nodes.items }
    requires ready { IsReady (graph_of program.now unfolded.now) node progress.old }
    ensures comes { IfOk result (λ arrived. Comes (graph_of program.now unfolded.now) node progress.old progress.new arrived.here arrived.pending.items) }
    ensures rows { IfOk result (λ arrived. (fit : FitSoFar program.now unfolded.now node progress.old) → ComesWithin program.now unfolded.now fit.named node (seen progress.old.made.cells.items) (seen progress.new.made.cells.items) (pointed progress.new.made.pointers.items) arrived.here.guard arrived.here.held arrived.pending.items) }
    ensures meets { IfOk result (λ arrived. PendingMeets node (seen progress.new.made.cells.items) progress.old.made.ways.items (pending_of progress.old) arrived.pending.items) }
    ensures points { IfOk result (λ arrived. ArrivePoints program.now.decls node (node_at (graph_of program.now unfolded.now).nodes node).kinds (seen progress.new.made.cells.items) (pointed progress.old.made.pointers.items) (pointed progress.new.made.pointers.items) progress.old.made.ways.items arrived.here.guard arrived.here.held) }
{
    arrivals_fit();
    graphs_are_sound();
    sound_graphs_feed();
    arrivals_stay();
    let decls = program.decls();
    let kinds = &unfolded.nodes[node as usize].kinds;
    let numbers = &progress.entries[node as usize];
    let made = &mut progress.made;
    let meeting = leading(*made.cells.allocator(), &made.ways, numbers)?;
    let here = arrive(&mut made.cells, &mut made.pointers, decls, kinds, &meeting)?;
    let pending = gather(
        &mut made.cells,
        &made.ways,
        &progress.pending,
        numbers,
        decls.len(),
    )?;
    Ok(Arrived { here, pending })
}

/// Makes a node, whose turn it is: its guard and what is held there, what its instruction adds, and what leaves it.
pub fn make_node(
    progress: &mut Progress,
    program: &Program,
    unfolded: &Unfolded,
    insn: &Insn,
    ends: NodeEnds,
    node: u32,
) -> Result<(), AllocError>
    requires unfolded { IsUnfolded program.now unfolded.now }
    requires fixed { unfolded.now.offsets ≡ Fixed }
    requires node { node < length unfolded.now.nodes.items }
    requires insn { IsNode (graph_of program.now unfolded.now) node insn.now (node_at (graph_of program.now unfolded.now).nodes node).kinds }
    requires ends { HasEnds (graph_of program.now unfolded.now) node insn.now ends.next ends.jump }
    requires ready { IsReady (graph_of program.now unfolded.now) node progress.old }
    ensures ready { OnOk result (IsReady (graph_of program.now unfolded.now) (node + 1) progress.new) }
    ensures rows { OnOk result (FitSoFar program.now unfolded.now node progress.old → FitSoFar program.now unfolded.now (node + 1) progress.new) }
    ensures points { OnOk result (PointSoFar program.now.decls node (made_of progress.old.made) → PointSoFar program.now.decls (node + 1) (made_of progress.new.made)) }
    ensures reads { OnOk result (PointSoFar program.now.decls node (made_of progress.old.made) → ReadSoFar program.now.decls node (made_of progress.old.made) (pending_of progress.old) → ReadSoFar program.now.decls (node + 1) (made_of progress.new.made) (pending_of progress.new)) }
{
    nodes_fit();
    nodes_point();
    nodes_read();
    graphs_are_sound();
    sound_graphs_feed();
    nodes_bring();
    steps_stay();
    nodes_follow();
    let first = progress.made.cells.len();
    let sites_before = progress.made.sites.len();
    let arrived = arrive_at(progress, program, unfolded, node)?;
    let mut pending = arrived.pending;
    let at = &unfolded.nodes[node as usize];
    let place = at.node.place();
    step_node(
        &mut progress.made,
        program.decls(),
        node,
        &at.kinds,
        &arrived.here,
        insn,
        program.refs().contains(&place),
        ends.next,
        ends.jump,
        &pending,
    )?;
    pass(
        &mut progress.made.cells,
        &progress.made.sites,
        &mut pending,
        sites_before,
        first,
    )?;
    enter(
        &mut progress.entries,
        &mut progress.pending,
        &progress.made.ways,
        &pending,
    )?;
    let Ok(first) = u32::try_from(first) else {
        return Err(AllocError);
    };
    let Ok(end) = u32::try_from(progress.made.cells.len()) else {
        return Err(AllocError);
    };
    progress.nodes.push(Node {
        place,
        guard: arrived.here.guard,
        first,
        end,
    })?;
    Ok(())
}
