//! What has been made of a program.

use cell_core::cell::Cell;
use cell_core::site::Site;
use operator_cells::held_cells::machine_cells::Pointer;
use operator_cells::held_cells::way::{Exit, Way};

/// The cells, pointers and sites of the nodes that are done, and the edges and ends that leave them.
#[derive(Drop)]
pub struct Made {
    pub cells: Vec<Cell>,
    pub pointers: Vec<Pointer>,
    pub sites: Vec<Site>,
    pub ways: Vec<Way>,
    pub exits: Vec<Exit>,
}
