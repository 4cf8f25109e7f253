//! The sites of a program, and the cells of their reads.

ghost use Rattle.std.specs.Prelude.{◌≡◌, ◌<◌, List, length, position};
ghost use Rattle.xdp_maps.specs.declared.decl.MapDecl.{MapDecl};
ghost use Rattle.cell_core.specs.Formed.{AllFit, FitsMap};
ghost use Rattle.cell_core.specs.Sites.{site_at};
ghost use Rattle.cell_core.specs.View.{program_of, site_of};
ghost use Rattle.hazard_core.specs.StageValues.{found_cell, answer_cell, is_found_of, is_answer_of, is_update, is_delete};

use cell_core::cell::Cell;
use cell_core::operator::Operator;
use cell_core::program::CellProgram;
use cell_core::site::{Act, Site};

/// The site of a number.
pub fn site_at(program: &CellProgram, j: usize) -> &Site
    requires { j < length program.now.sites.items }
    ensures site { site_of result.now ≡ site_at (program_of program.now).sites j }
    ensures map { result.now.map ≡ (site_at (program_of program.now).sites j).map }
    ensures guard { result.now.guard ≡ (site_at (program_of program.now).sites j).guard }
    ensures act { result.now.act ≡ (site_at (program_of program.now).sites j).act }
    ensures key { result.now.key.items ≡ (site_at (program_of program.now).sites j).key }
    ensures operands { result.now.operands.items ≡ (site_at (program_of program.now).sites j).operands }
    ensures fits { (decls : List MapDecl) → AllFit decls (program_of program.now).sites → FitsMap decls (site_of result.now) }
    ensures map_in { (decls : List MapDecl) → AllFit decls (program_of program.now).sites → result.now.map < length decls }
{
    &program.sites[j]
}

fn is_found_of(j: usize, op: Operator) -> bool
    ensures { result ≡ is_found_of j op }
{
    match op {
        Operator::Found(i) => i as usize == j,
        _ => false,
    }
}

fn is_answer_of(j: usize, op: Operator) -> bool
    ensures { result ≡ is_answer_of j op }
{
    match op {
        Operator::Answer(i) => i as usize == j,
        _ => false,
    }
}

/// The first cell that says whether the key of a site is there, if there is one.
fn first_found(cells: &[Cell], j: usize) -> Option<usize>
    ensures { result ≡ position (λ c. is_found_of j c.op) cells.now }
{
    cells.iter().position(|cell| is_found_of(j, cell.op))
}

/// The cell that says whether the key of a site is there, or the number of cells.
pub fn found_cell(program: &CellProgram, j: usize) -> usize
    ensures { result ≡ found_cell (program_of program.now).cells j }
{
    let cells: &[Cell] = &program.cells;
    first_found(cells, j).unwrap_or(cells.len())
}

/// The first cell that holds what a site answers, if there is one.
fn first_answer(cells: &[Cell], j: usize) -> Option<usize>
    ensures { result ≡ position (λ c. is_answer_of j c.op) cells.now }
{
    cells.iter().position(|cell| is_answer_of(j, cell.op))
}

/// The cell that holds what a site answers, or the number of cells.
pub fn answer_cell(program: &CellProgram, j: usize) -> usize
    ensures { result ≡ answer_cell (program_of program.now).cells j }
{
    let cells: &[Cell] = &program.cells;
    first_answer(cells, j).unwrap_or(cells.len())
}

pub fn is_update(act: Act) -> bool
    ensures { result ≡ is_update act }
{
    matches!(act, Act::Update)
}

pub fn is_delete(act: Act) -> bool
    ensures { result ≡ is_delete act }
{
    matches!(act, Act::Delete)
}
