//! A map that is a hash.

ghost use Rattle.std.specs.Prelude.{◌≡◌, ◌<◌, All, IfOk};
ghost use Rattle.overlay_net.specs.xdp_maps.Contents.{IsWithinLimits};
ghost use Rattle.overlay_net.specs.xdp_maps.declared.decl.MapKind.TheVariants.{Hash};
ghost use Rattle.commit_net.specs.Choosing.{HasOperands};
ghost use Rattle.commit_net.specs.Words.{IsFitting};
ghost use Rattle.commit_net.specs.MapBlock.Forms.{FormFits};
ghost use Rattle.commit_net.specs.MapBlock.Parts.{trees_of};
ghost use Rattle.commit_net.specs.MapBlock.Stored.{host_word};
ghost use Rattle.commit_net.specs.MapBlock.Block.{IsMapBlock};

use crate::choosing::CommitNets;
use crate::map_block::form::{MapForm, form_of};
use crate::map_block::found::find_words;
use crate::map_block::laws;
use crate::map_block::parts::{ControlNets, MapBlock, MapBlocks, MapParts, map_nets};
use crate::whole::commit_hash;
use block_core::name::{Name, Part};
use hash_net::{has_word, hash, value_first, value_name};
use net_core::tree::Expr;
use overlay_net::cell_nets::cell_core::xdp_state::xdp_maps::decl::MapDecl;
use std::alloc::{AllocError, Global};
use std::marker::Model;

/// A map that is a hash. Contracts see its form.
#[derive(Drop)]
pub struct HashBlock {
    form: MapForm,
}

impl Model for HashBlock {
    ghost use Rattle.std.specs.Prelude.{◌≡◌};
    ghost use Rattle.overlay_net.specs.xdp_maps.declared.decl.MapKind.TheVariants.{Hash};
    ghost use Rattle.commit_net.specs.declared.map_block.form.MapForm.{MapForm};
    ghost use Rattle.commit_net.specs.MapBlock.Forms.{FormFits};

    ghost Value = { MapForm };

    ghost view = { λ b. b.form };

    ghost invariant = { λ b. (b.form.decl.kind ≡ Hash) × FormFits b.form };
}

impl HashBlock {
    /// The hash that is the map of this number.
    pub fn of(number: u8, decl: &MapDecl) -> HashBlock
        requires number { number < 16 }
        requires kind { decl.now.kind ≡ Hash }
        requires limits { IsWithinLimits decl.now }
        ensures number { result.number ≡ number }
        ensures decl { result.decl ≡ decl.now }
    {
        HashBlock {
            form: form_of(number, decl),
        }
    }
}

/// The blocks of a hash.
fn blocks<P: Part>(
    alloc: Global,
    form: &MapForm,
    parts: MapParts<P>,
    control: ControlNets<Name<P>>,
    sites: &[CommitNets<'_, Name<P>>],
) -> Result<MapBlocks<Name<P>>, AllocError>
    requires kind { form.now.decl.kind ≡ Hash }
    requires form_fits { FormFits form.now }
    requires operands { All HasOperands sites.now }
    requires fitting { All (IsFitting form.now.decl) sites.now }
    ensures { IfOk result (λ r. IsMapBlock form.now parts control sites.now (trees_of r)) }
{
    laws::hashes::<P>();
    let decl = &form.decl;
    let first = value_first(decl);
    let found = find_words(alloc, form, first, parts, sites)?;
    let map = map_nets(control, found.slot);
    let asked = commit_hash(
        alloc,
        parts.asker,
        decl,
        sites,
        &found.words,
        map,
        control.idle,
    )?;
    let stores = hash(
        alloc,
        parts.own,
        form.number,
        decl,
        form.bits,
        asked.nets,
        &asked.keys,
        &asked.values,
    )?;
    Ok(MapBlocks {
        finds: found.finds,
        fetches: found.fetches,
        asks: asked.block,
        stores,
        slot: found.slot,
    })
}

/// The wire that shows the word that the host names.
fn word_name<P: Part>(form: &MapForm, own: P) -> Name<P>
    requires { form.now.decl.kind ≡ Hash }
    ensures { result ≡ host_word form.now own }
{
    value_name(own)
}

impl MapBlock for HashBlock {
    ghost form = { λ b. b };

    fn form(&self) -> &MapForm {
        &self.form
    }

    fn build<P: Part>(
        &self,
        alloc: Global,
        parts: MapParts<P>,
        control: ControlNets<Name<P>>,
        sites: &[CommitNets<'_, Name<P>>],
    ) -> Result<MapBlocks<Name<P>>, AllocError> {
        blocks(alloc, &self.form, parts, control, sites)
    }

    fn host_may<P: Part>(
        &self,
        alloc: Global,
        own: P,
        idle: Name<P>,
    ) -> Result<Expr<Name<P>>, AllocError> {
        let form = &self.form;
        has_word(alloc, own, form.number, form.bits, &form.decl, idle)
    }

    fn host_word<P: Part>(&self, own: P) -> Name<P> {
        word_name(&self.form, own)
    }

    fn first_value(&self) -> u32 {
        value_first(&self.form.decl)
    }
}
