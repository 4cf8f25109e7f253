//! The part that gives the slot that a clock writes in a map, and the words of the key there.

ghost use Rattle.std.specs.Prelude.{◌≡◌, ◌≤◌, IfOk};
ghost use Rattle.block_core.specs.View.{block_of};
ghost use Rattle.overlay_net.specs.hazard_core.Commits.{word_count};
ghost use Rattle.commit_net.specs.ChangeNet.Written.{key_count, IsWritten};

use crate::change_net::pointed::{PointedWords, pointed_words};
use block_core::name::{Name, Part};
use hash_net::array_net::words::word_count;
use net_core::ports::HOST_INDEX;
use overlay_net::cell_nets::cell_core::xdp_state::xdp_maps::decl::{MapDecl, MapKind};
use overlay_net::cell_nets::operand::Operand;
use overlay_net::cell_nets::step_nets::choose;
use std::alloc::{AllocError, Global};

/// How many words of keys the table of a map has: of an array the number of a slot is its key.
pub fn key_count(decl: &MapDecl) -> u32
    requires { decl.now.key ≤ 64 }
    ensures count { result ≡ key_count decl.now }
    ensures few { result ≤ word_count decl.now.key }
{
    match decl.kind {
        MapKind::Hash => word_count(decl.key),
        MapKind::Array => 0,
    }
}

/// The part that gives the slot that a clock writes in a map: where an operation commits the one that this writes, else the host's index; and after it the
/// words of the key in that slot, of a hash, whose memories are another part's.
pub fn written<P: Part>(
    alloc: Global,
    part: P,
    bits: u8,
    decl: &MapDecl,
    commits: Name<P>,
    slot: Name<P>,
    of: P,
) -> Result<PointedWords<Name<P>>, AllocError>
    requires some { 1 ≤ bits }
    requires most { bits ≤ 16 }
    requires key { decl.now.key ≤ 64 }
    ensures { IfOk result (λ r. IsWritten part of decl.now bits commits slot r.slot r.words.items (block_of r.block)) }
{
    let mut wires = Vec::new(alloc);
    let number = choose(
        alloc,
        &mut wires,
        part,
        Operand::Net(commits, 1),
        Operand::Net(slot, bits),
        Operand::Net(Name::Port(HOST_INDEX), 16),
        bits,
    )?;
    let count = key_count(decl);
    let shown = pointed_words(
        alloc, part, wires, number, 0, of, bits, 1, decl.key, 0, count,
    )?;
    Ok(shown)
}
