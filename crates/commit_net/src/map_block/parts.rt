//! The parts of a map, and the trait that builds them.

ghost use Rattle.std.specs.Prelude.{◌≡◌, ◌≤◌, All, IfOk};
ghost use Rattle.net_core.specs.View.{tree_of};
ghost use Rattle.commit_net.specs.Choosing.{HasOperands};
ghost use Rattle.commit_net.specs.Words.{IsFitting};
ghost use Rattle.commit_net.specs.declared.map_block.form.MapForm.{MapForm};
ghost use Rattle.commit_net.specs.MapBlock.Forms.{FormFits};
ghost use Rattle.commit_net.specs.MapBlock.Parts.{trees_of, with_slot_net};
ghost use Rattle.commit_net.specs.MapBlock.Stored.{first_value, host_word, host_may};
ghost use Rattle.commit_net.specs.MapBlock.Block.{IsMapBlock};

use crate::choosing::CommitNets;
use crate::map_block::form::MapForm;
use block_core::block::Block;
use block_core::name::{Name, Part};
use hash_net::array_net::MapNets;
use net_core::tree::Expr;
use std::alloc::{AllocError, Global};

/// The parts of a map, in their order: one gives the slot that the operation writes that commits, one after it the words of the value there, one
/// after this what the operation asks, and the last has the map's memories.
#[derive(Clone, Copy)]
pub struct MapParts<P> {
    pub finder: P,
    pub fetcher: P,
    pub asker: P,
    pub own: P,
}

/// What control says of a map in a clock: whether an operation on it commits, whether a write of the host goes through, which is never in a clock
/// with an operation, and whether no packet is inside.
#[derive(Clone, Copy)]
pub struct ControlNets<N> {
    pub commits: N,
    pub writes: N,
    pub idle: N,
}

/// With the net of the slot that is written.
pub(crate) fn map_nets<N: Copy>(control: ControlNets<N>, slot: N) -> MapNets<N>
    ensures { result ≡ with_slot_net control slot }
{
    MapNets {
        commits: control.commits,
        slot,
        writes: control.writes,
    }
}

/// The blocks of these parts, and the net of the slot that the operation writes that commits.
#[derive(Drop)]
pub struct MapBlocks<N: Drop> {
    pub finds: Block<N>,
    pub fetches: Block<N>,
    pub asks: Block<N>,
    pub stores: Block<N>,
    pub slot: N,
}

/// A map whose parts can be built. One clock of them is the operation that commits, else the write of the host that goes through, and nothing where
/// there is neither.
pub trait MapBlock {
    /// The map.
    ghost form: { Self → MapForm };

    /// The map.
    fn form(&self) -> &MapForm
        ensures form { result.now ≡ form self.now }
        ensures form_fits { FormFits (form self.now) };

    /// The parts of the map, for the operations on it, which may be none.
    fn build<P: Part>(
        &self,
        alloc: Global,
        parts: MapParts<P>,
        control: ControlNets<Name<P>>,
        sites: &[CommitNets<'_, Name<P>>],
    ) -> Result<MapBlocks<Name<P>>, AllocError>
        requires operands { All HasOperands sites.now }
        requires fitting { All (IsFitting (form self.now).decl) sites.now }
        ensures { IfOk result (λ r. IsMapBlock (form self.now) parts control sites.now (trees_of r)) };

    /// Whether the host may write the word that it names, by whether no packet is inside.
    fn host_may<P: Part>(
        &self,
        alloc: Global,
        own: P,
        idle: Name<P>,
    ) -> Result<Expr<Name<P>>, AllocError>
        ensures { IfOk result (λ e. tree_of e ≡ host_may (form self.now) own idle) };

    /// The wire that shows the word that the host names, of 64 bits.
    fn host_word<P: Part>(&self, own: P) -> Name<P>
        ensures { result ≡ host_word (form self.now) own };

    /// The number of the memory that has the first words of values.
    fn first_value(&self) -> u32
        ensures { result ≡ first_value (form self.now).decl };
}
