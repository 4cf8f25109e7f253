//! A map that is an array.

ghost use Rattle.std.specs.Prelude.{◌≡◌, ◌<◌, All, IfOk};
ghost use Rattle.overlay_net.specs.xdp_maps.Contents.{IsWithinLimits};
ghost use Rattle.overlay_net.specs.xdp_maps.declared.decl.MapKind.TheVariants.{Array};
ghost use Rattle.commit_net.specs.Choosing.{HasOperands};
ghost use Rattle.commit_net.specs.Words.{IsFitting};
ghost use Rattle.commit_net.specs.MapBlock.Forms.{FormFits};
ghost use Rattle.commit_net.specs.MapBlock.Parts.{trees_of};
ghost use Rattle.commit_net.specs.MapBlock.Stored.{host_word, first_value};
ghost use Rattle.commit_net.specs.MapBlock.Block.{IsMapBlock};

use crate::choosing::CommitNets;
use crate::map_block::form::{MapForm, form_of};
use crate::map_block::found::find_words;
use crate::map_block::laws;
use crate::map_block::parts::{ControlNets, MapBlock, MapBlocks, MapParts, map_nets};
use crate::whole::commit_array;
use block_core::name::{Name, Part};
use hash_net::array_net::{array, has_word, value_name};
use net_core::tree::Expr;
use overlay_net::cell_nets::cell_core::xdp_state::xdp_maps::decl::MapDecl;
use std::alloc::{AllocError, Global};
use std::marker::Model;

/// A map that is an array. Contracts see its form.
#[derive(Drop)]
pub struct ArrayBlock {
    form: MapForm,
}

impl Model for ArrayBlock {
    ghost use Rattle.std.specs.Prelude.{◌≡◌};
    ghost use Rattle.overlay_net.specs.xdp_maps.declared.decl.MapKind.TheVariants.{Array};
    ghost use Rattle.commit_net.specs.declared.map_block.form.MapForm.{MapForm};
    ghost use Rattle.commit_net.specs.MapBlock.Forms.{FormFits};

    ghost Value = { MapForm };

    ghost view = { λ b. b.form };

    ghost invariant = { λ b. (b.form.decl.kind ≡ Array) × FormFits b.form };
}

impl ArrayBlock {
    /// The array that is the map of this number.
    pub fn of(number: u8, decl: &MapDecl) -> ArrayBlock
        requires number { number < 16 }
        requires kind { decl.now.kind ≡ Array }
        requires limits { IsWithinLimits decl.now }
        ensures number { result.number ≡ number }
        ensures decl { result.decl ≡ decl.now }
    {
        ArrayBlock {
            form: form_of(number, decl),
        }
    }
}

/// The blocks of an array.
fn blocks<P: Part>(
    alloc: Global,
    form: &MapForm,
    parts: MapParts<P>,
    control: ControlNets<Name<P>>,
    sites: &[CommitNets<'_, Name<P>>],
) -> Result<MapBlocks<Name<P>>, AllocError>
    requires kind { form.now.decl.kind ≡ Array }
    requires form_fits { FormFits form.now }
    requires operands { All HasOperands sites.now }
    requires fitting { All (IsFitting form.now.decl) sites.now }
    ensures { IfOk result (λ r. IsMapBlock form.now parts control sites.now (trees_of r)) }
{
    laws::arrays::<P>();
    let decl = &form.decl;
    let found = find_words(alloc, form, 0, parts, sites)?;
    let asked = commit_array(alloc, parts.asker, decl, sites, &found.words)?;
    let nets = map_nets(control, found.slot);
    let stores = array(
        alloc,
        parts.own,
        form.number,
        decl,
        form.bits,
        nets,
        &asked.values,
    )?;
    Ok(MapBlocks {
        finds: found.finds,
        fetches: found.fetches,
        asks: asked.block,
        stores,
        slot: found.slot,
    })
}

/// The wire that shows the word that the host names.
fn word_name<P: Part>(form: &MapForm, own: P) -> Name<P>
    requires { form.now.decl.kind ≡ Array }
    ensures { result ≡ host_word form.now own }
{
    value_name(own)
}

/// The number of the memory that has the first words of values.
fn first_memory(form: &MapForm) -> u32
    requires { form.now.decl.kind ≡ Array }
    ensures { result ≡ first_value form.now.decl }
{
    0
}

impl MapBlock for ArrayBlock {
    ghost form = { λ b. b };

    fn form(&self) -> &MapForm {
        &self.form
    }

    fn build<P: Part>(
        &self,
        alloc: Global,
        parts: MapParts<P>,
        control: ControlNets<Name<P>>,
        sites: &[CommitNets<'_, Name<P>>],
    ) -> Result<MapBlocks<Name<P>>, AllocError> {
        blocks(alloc, &self.form, parts, control, sites)
    }

    fn host_may<P: Part>(
        &self,
        alloc: Global,
        own: P,
        _idle: Name<P>,
    ) -> Result<Expr<Name<P>>, AllocError> {
        has_word(alloc, self.form.number, &self.form.decl)
    }

    fn host_word<P: Part>(&self, own: P) -> Name<P> {
        word_name(&self.form, own)
    }

    fn first_value(&self) -> u32 {
        first_memory(&self.form)
    }
}
