//! The parts of one map.

ghost use Rattle.std.specs.Prelude.{◌≡◌, ◌<◌, All, IfOk, length};
ghost use Rattle.commit_net.specs.Choosing.{HasOperands};
ghost use Rattle.commit_net.specs.Words.{IsFitting};
ghost use Rattle.commit_net.specs.ChangeNet.Written.{key_count};
ghost use Rattle.commit_net.specs.MapBlock.Forms.{FormFits};
ghost use Rattle.commit_net.specs.MapBlock.Parts.{trees_of};
ghost use Rattle.commit_net.specs.MapBlock.Block.{IsMapBlock};
ghost use Rattle.pipe_net.specs.Parts.{IsSmall};
ghost use Rattle.pipe_design.specs.MapParts.Parts.{parts_in, control_in, ArePartsOver, IsChangeOver};

use crate::map_parts::parts::PartsOfMap;
use block_core::name::Name;
use commit_net::change_net::change::{ChangePart, change};
use commit_net::change_net::written::written;
use commit_net::choosing::CommitNets;
use commit_net::map_block::{
    ArrayBlock, ControlNets, HashBlock, MapBlock, MapBlocks, MapForm, MapParts,
};
use hazard_core::cell_core::xdp_state::xdp_maps::decl::MapKind;
use pipe_net::parts::{Part, Sizes};
use std::alloc::{AllocError, Global};
use turn_net::host_net::names::{Wire, wire_name};

// The parts of the table of a map, by their places.
fn places(sizes: &Sizes, form: &MapForm) -> MapParts<Part>
    requires small { IsSmall sizes.now }
    requires map { form.now.number < sizes.now.maps }
    ensures { result ≡ parts_in sizes.now form.now.number }
{
    let map = form.number as u32;
    MapParts {
        finder: sizes.finder(map),
        fetcher: sizes.fetcher(map),
        asker: sizes.asker(map),
        own: sizes.own(map),
    }
}

// What control says of a map.
fn control(sizes: &Sizes, commits: Name<Part>) -> ControlNets<Name<Part>>
    requires { IsSmall sizes.now }
    ensures { result ≡ control_in sizes.now commits }
{
    ControlNets {
        commits,
        writes: wire_name(sizes.host(), Wire::Writes),
        idle: wire_name(sizes.host(), Wire::Idle),
    }
}

// The blocks of a table, by the kind of the map. A map of each kind gives its slots the least bits that are enough, as the form does.
fn table(
    alloc: Global,
    form: &MapForm,
    parts: MapParts<Part>,
    control: ControlNets<Name<Part>>,
    operations: &[CommitNets<'_, Name<Part>>],
) -> Result<MapBlocks<Name<Part>>, AllocError>
    requires form_fits { FormFits form.now }
    requires operands { All HasOperands operations.now }
    requires fitting { All (IsFitting form.now.decl) operations.now }
    ensures { IfOk result (λ r. IsMapBlock form.now parts control operations.now (trees_of r)) }
{
    match form.decl.kind {
        MapKind::Hash => {
            let map = HashBlock::of(form.number, &form.decl);
            prove!(map.form().bits == form.bits);
            let blocks = map.build(alloc, parts, control, operations)?;
            Ok(blocks)
        }
        MapKind::Array => {
            let map = ArrayBlock::of(form.number, &form.decl);
            prove!(map.form().bits == form.bits);
            let blocks = map.build(alloc, parts, control, operations)?;
            Ok(blocks)
        }
    }
}

/// The parts of a map of the table and of what a clock writes there, over the operations on it.
pub(crate) fn parts_of_map(
    alloc: Global,
    sizes: &Sizes,
    form: &MapForm,
    commits: Name<Part>,
    operations: &[CommitNets<'_, Name<Part>>],
) -> Result<PartsOfMap, AllocError>
    requires small { IsSmall sizes.now }
    requires map { form.now.number < sizes.now.maps }
    requires form_fits { FormFits form.now }
    requires operands { All HasOperands operations.now }
    requires fitting { All (IsFitting form.now.decl) operations.now }
    ensures parts { IfOk result (ArePartsOver sizes.now form.now commits operations.now) }
    ensures keys { IfOk result (λ r. length r.written.words.items ≡ key_count form.now.decl) }
{
    let places = places(sizes, form);
    let table = table(alloc, form, places, control(sizes, commits), operations)?;
    let part = sizes.written(form.number as u32);
    let written = written(
        alloc, part, form.bits, &form.decl, commits, table.slot, places.own,
    )?;
    Ok(PartsOfMap { table, written })
}

/// The part of what a clock changes in a map, by what it writes there.
pub(crate) fn change_of_map(
    alloc: Global,
    sizes: &Sizes,
    form: &MapForm,
    commits: Name<Part>,
    operations: &[CommitNets<'_, Name<Part>>],
    parts: &PartsOfMap,
) -> Result<ChangePart<Name<Part>>, AllocError>
    requires small { IsSmall sizes.now }
    requires map { form.now.number < sizes.now.maps }
    requires form_fits { FormFits form.now }
    requires operands { All HasOperands operations.now }
    requires keys { length parts.now.written.words.items ≡ key_count form.now.decl }
    ensures { IfOk result (IsChangeOver sizes.now form.now commits operations.now parts.now) }
{
    let made = change(
        alloc,
        sizes.change(form.number as u32),
        form.number,
        form.bits,
        &form.decl,
        operations,
        commits,
        wire_name(sizes.host(), Wire::Writes),
        parts.written.slot,
        &parts.written.words,
    )?;
    Ok(made)
}
