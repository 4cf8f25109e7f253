//! Programs as cells.

ghost use Rattle.std.specs.Prelude.{ℕ, ◌≡◌, ◌<◌, ◌≤◌, true, is_some, Some, None, [], ◌∷◌, length, map as map_list, slice_index_or, IfOk, OnOk};
ghost use Rattle.cell_core.specs.View.{program_of};
ghost use Rattle.operator_cells.specs.Making.{seen, Grows};
ghost use Rattle.operator_cells.specs.HeldCells.Law.{IsLaw};
ghost use Rattle.kind_core.specs.declared.kind.Offsets.TheVariants.{Fixed};
ghost use Rattle.unfold_core.specs.Unfolding.{IsUnfolded};
ghost use Rattle.predicate_core.specs.StepCells.Stepping.{made_of};
ghost use Rattle.predicate_core.specs.ProgramGraph.Graphs.{graph_of};
ghost use Rattle.predicate_core.specs.Buildable.{AddsNoRow, IsBuildable};
ghost use Rattle.predicate_core.specs.Pointing.{PointSoFar};
ghost use Rattle.predicate_core.specs.Reading.{ReadSoFar};
ghost use Rattle.predicate_core.specs.Progress.{pending_of, AreFirst, AreWaiting, IsReady};
ghost use Rattle.predicate_core.specs.Rows.{FitStages, FitRecords};
ghost use Rattle.predicate_core.specs.Stages.{FitSoFar};

use crate::closing::close;
use crate::laws::{opens_follow, opens_point, opens_read, sound_graphs_feed, wholes_compute};
use crate::making::{Numbers, Progress, make_node};
use crate::opening::open;
use crate::program_graph::ends;
use crate::program_graph::laws::{graphs_are_sound, nodes_have_insns};
use crate::step_cells::made::Made;
use cell_core::cell::{Cell, Cells};
use cell_core::program::CellProgram;
use operator_cells::cells::pending;
use std::alloc::{AllocError, Global};
use unfold_core::{Unfolded, places};
use xdp_machine::bpf_isa::Insn;
use xdp_object::Program;

// The instruction that begins at a place.
fn insn_at(units: &[Option<Insn>], place: u32) -> Insn
    requires { is_some (slice_index_or units.now place None) ≡ true }
    ensures { slice_index_or units.now place None ≡ Some result }
{
    if let Some(Some(insn)) = units.get(place as usize) {
        return *insn;
    }
    unreachable!()
}

// For each map a cell of no writes.
fn unwritten(cells: &mut Vec<Cell>, maps: usize) -> Result<Vec<u32>, AllocError>
    ensures grows { IfOk result (λ row. Grows (seen cells.old.items) (seen cells.new.items)) }
    ensures no_row { IfOk result (λ row. AddsNoRow (seen cells.old.items) (seen cells.new.items)) }
    ensures waiting { IfOk result (λ row. AreWaiting maps (length (seen cells.new.items)) row.items) }
{
    let mut all = Vec::new(*cells.allocator());
    for _map in 0..maps {
        let c = pending(cells, &[])?;
        all.push(c)?;
    }
    Ok(all)
}

// Edge 0 where this is the first node, else none.
fn first_numbers(alloc: Global, node: usize) -> Result<Numbers, AllocError>
    ensures first { IfOk result (λ numbers. node ≡ 0 → numbers.items ≡ 0 ∷ []) }
    ensures other { IfOk result (λ numbers. 0 < node → numbers.items ≡ []) }
{
    if node == 0 {
        return Numbers::from_slice(alloc, &[0]);
    }
    Ok(Numbers::new(alloc))
}

// Edge 0 leads to the first of so many nodes.
fn first_entries(alloc: Global, nodes: usize) -> Result<Vec<Numbers>, AllocError>
    ensures { IfOk result (λ entries. AreFirst nodes (map_list (λ x. x.items) entries.items)) }
{
    let mut entries = Vec::new(alloc);
    for node in 0..nodes {
        let numbers = first_numbers(alloc, node)?;
        entries.push(numbers)?;
    }
    Ok(entries)
}

// The edge to the first node, and nothing more.
fn begin(alloc: Global, program: &Program, unfolded: &Unfolded) -> Result<Progress, AllocError>
    requires unfolded { IsUnfolded program.now unfolded.now }
    requires fixed { unfolded.now.offsets ≡ Fixed }
    ensures ready { IfOk result (λ progress. IsReady (graph_of program.now unfolded.now) 0 progress) }
    ensures rows { IfOk result (λ progress. FitSoFar program.now unfolded.now 0 progress) }
    ensures points { IfOk result (λ progress. PointSoFar program.now.decls 0 (made_of progress.made)) }
    ensures reads { IfOk result (λ progress. ReadSoFar program.now.decls 0 (made_of progress.made) (pending_of progress)) }
{
    graphs_are_sound();
    sound_graphs_feed();
    opens_follow();
    opens_point();
    opens_read();
    let mut cells = Vec::new(alloc);
    let start = open(&mut cells)?;
    let none = unwritten(&mut cells, program.decls().len())?;
    let window = start.held.window;
    let mut ways = Vec::new(alloc);
    ways.push(start)?;
    let mut pending = Vec::new(alloc);
    pending.push(Cells::from_slice(alloc, &none)?)?;
    Ok(Progress {
        made: Made {
            cells,
            pointers: Vec::new(alloc),
            sites: Vec::new(alloc),
            ways,
            exits: Vec::new(alloc),
        },
        nodes: Vec::new(alloc),
        entries: first_entries(alloc, unfolded.nodes.len())?,
        pending,
        window,
    })
}

// All nodes of a program.
fn make_nodes(
    alloc: Global,
    program: &Program,
    unfolded: &Unfolded,
    progress: &mut Progress,
) -> Result<(), AllocError>
    requires unfolded { IsUnfolded program.now unfolded.now }
    requires fixed { unfolded.now.offsets ≡ Fixed }
    requires ready { IsReady (graph_of program.now unfolded.now) 0 progress.old }
    requires fits { FitSoFar program.now unfolded.now 0 progress.old }
    requires points { PointSoFar program.now.decls 0 (made_of progress.old.made) }
    requires reads { ReadSoFar program.now.decls 0 (made_of progress.old.made) (pending_of progress.old) }
    ensures ready { OnOk result (IsReady (graph_of program.now unfolded.now) (length unfolded.now.nodes.items) progress.new) }
    ensures rows { OnOk result (FitSoFar program.now unfolded.now (length unfolded.now.nodes.items) progress.new) }
    ensures points { OnOk result (PointSoFar program.now.decls (length unfolded.now.nodes.items) (made_of progress.new.made)) }
    ensures reads { OnOk result (ReadSoFar program.now.decls (length unfolded.now.nodes.items) (made_of progress.new.made) (pending_of progress.new)) }
{
    nodes_have_insns();
    // A program is one.
    let _maps = program.decls();
    let units = places(alloc, program)?;
    let ends = ends(alloc, program, unfolded)?;
    for k in 0..unfolded.nodes.len() {
        let insn = insn_at(&units, unfolded.nodes[k].node.place());
        make_node(progress, program, unfolded, &insn, ends[k], k as u32)?;
    }
    Ok(())
}

/// The cells of a program that unfolds: the law of cells holds of them, for its graph, and they can be built: the answer's have its widths, and
/// none stands in a later row than the last of a node. No more of its sites may write than nodes of the graph.
pub fn to_cells(
    alloc: Global,
    program: &Program,
    unfolded: &Unfolded,
) -> Result<CellProgram, AllocError>
    requires unfolded { IsUnfolded program.now unfolded.now }
    requires fixed { unfolded.now.offsets ≡ Fixed }
    ensures law { IfOk result (λ cells. IsLaw (graph_of program.now unfolded.now) (program_of cells)) }
    ensures buildable { IfOk result (λ cells. IsBuildable (program_of cells)) }
    ensures stages { IfOk result (λ cells. FitStages program.now unfolded.now (program_of cells)) }
    ensures records { IfOk result (λ cells. FitRecords program.now unfolded.now (program_of cells)) }
{
    wholes_compute();
    // A program is one.
    let _maps = program.decls();
    let mut progress = begin(alloc, program, unfolded)?;
    make_nodes(alloc, program, unfolded, &mut progress)?;
    let window = progress.window;
    let nodes = progress.nodes;
    let made = progress.made;
    let mut cells = made.cells;
    let sites = made.sites;
    let exits = made.exits;
    let answer = close(&mut cells, &exits, &window)?;
    Ok(CellProgram {
        cells,
        nodes,
        sites,
        verdict: answer.verdict,
        target: answer.target,
        frame: answer.frame,
    })
}
