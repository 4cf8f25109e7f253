//! What other parts say of the operations that commit.

use block_core::name::Name;
use overlay_net::cell_nets::operand::Operand;
use pipe_net::parts::Part;
use turn_net::target_net::targets::Target;

/// What is said of the operations on a map: the net of whether one of them commits, and of each of its record sites, in order, what the operation there writes.
#[derive(Clone, Copy)]
pub struct MapCommits<'a> {
    pub commits: Name<Part>,
    pub targets: &'a [Target<Name<Part>>],
}

/// What is said of the operations of a program: of each record site, in order, whether it commits, and what is said of each map.
#[derive(Clone, Copy)]
pub struct Committing<'a> {
    pub chosen: &'a [Operand<Name<Part>>],
    pub maps: &'a [MapCommits<'a>],
}
