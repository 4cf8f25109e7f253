//! Updates and deletes.

ghost use Rattle.std.specs.Prelude.{◌≡◌, ◌<◌, ◌≤◌, ◌++◌, [], ◌∷◌, ℕ, Bool, List, length, All, IfOk, OnOk, false};
ghost use Rattle.cell_core.specs.bpf_isa.Helpers.{helper_of};
ghost use Rattle.kind_core.specs.Tests.{passed};
ghost use Rattle.kind_core.specs.Kinds as kind;
ghost use Rattle.kind_core.specs.Effects.{effect_of, verdict};
ghost use Rattle.kind_core.specs.Edges.{transferred};
ghost use Rattle.operator_cells.specs.Making.{seen};
ghost use Rattle.operator_cells.specs.HeldCells.RegisterCells.{PointerView, AreInside};
ghost use Rattle.operator_cells.specs.HeldCells.Operating.{Operates};
ghost use Rattle.operator_cells.specs.HeldCells.Rows.{OperatesTo};
ghost use Rattle.operator_cells.specs.HeldCells.Pointing.{OperationPoints};
ghost use Rattle.site_cells.specs.Sited.{sited};
ghost use Rattle.site_cells.specs.Siting.{Changes};

use crate::declared::{key_bytes, map_in, value_bytes};
use crate::here::Here;
use crate::lookup::inputs;
use crate::numbers::number_in;
use crate::sizes::are_whole;
use crate::words::region_words;
use cell_core::cell::{Cell, Cells};
use cell_core::site::{Act, Site};
use cell_core::xdp_state::bpf_isa::{Helper, Insn, Op};
use cell_core::xdp_state::xdp_maps::decl::MapDecl;
use kind_core::Kinds;
use operator_cells::cells::{answer, found};
use operator_cells::held_cells::machine_cells::RegisterCells;
use std::alloc::{AllocError, Global};

// A change under a key. Of the operands its reads look at these: a value only has to be there when it is written.
fn change(
    cells: &mut Vec<Cell>,
    sites: &mut Vec<Site>,
    here: Here,
    map: u32,
    act: Act,
    key: &[u32],
    looked: &[u32],
    operands: &[u32],
) -> Result<u32, AllocError>
    requires key { All (λ i. i < length (seen cells.old.items)) key.now }
    requires looked { All (λ i. i < length (seen cells.old.items)) looked.now }
    requires pending { here.pending < length (seen cells.old.items) }
    ensures { IfOk result (λ c. Changes (seen cells.old.items) (seen cells.new.items) (sited sites.old.items) (sited sites.new.items) here map act key.now looked.now operands.now c) }
{
    let Ok(site) = u32::try_from(sites.len()) else {
        return Err(AllocError);
    };
    let ins = inputs(*cells.allocator(), key, looked, here.pending)?;
    let _there = found(cells, site, &ins)?;
    let c = answer(cells, site, &ins, 64)?;
    sites.push(Site {
        node: here.node,
        map,
        guard: here.guard,
        act,
        key: Cells::from_slice(*cells.allocator(), key)?,
        operands: Cells::from_slice(*cells.allocator(), operands)?,
    })?;
    Ok(c)
}

/// A delete: R0 gets the number that the helper answers.
pub fn operate_delete(
    cells: &mut Vec<Cell>,
    sites: &mut Vec<Site>,
    held: &mut RegisterCells,
    kinds: &Kinds,
    insn: &Insn,
    decls: &[MapDecl],
    here: Here,
) -> Result<(), AllocError>
    requires op { insn.now.op ≡ Op.Call }
    requires helper { helper_of insn.now.imm ≡ Some Helper.Delete }
    requires keys { (q : ℕ) → kind.key_bytes decls.now q ≤ 64 }
    requires pending { here.pending < length (seen cells.old.items) }
    requires guard { here.guard < length (seen cells.old.items) }
    requires inside { (ps : List PointerView) × AreInside decls.now (length (seen cells.old.items)) ps held.old kinds.now }
    ensures operates { (ps : List PointerView) (is_ref taken : Bool) → verdict (effect_of decls.now kinds.now insn.now) ≡ passed → AreInside decls.now (length (seen cells.old.items)) ps held.old kinds.now → OnOk result (Operates decls.now insn.now here.node here.guard is_ref taken kinds.now held.old held.new (seen cells.old.items) (seen cells.new.items) ps ps (sited sites.old.items) (sited sites.new.items)) }
    ensures rows { (ps : List PointerView) (is_ref : Bool) → verdict (effect_of decls.now kinds.now insn.now) ≡ passed → AreInside decls.now (length (seen cells.old.items)) ps held.old kinds.now → OnOk result (OperatesTo decls.now insn.now here.pending kinds.now held.old (transferred decls.now kinds.now insn.now here.node is_ref false) held.new (seen cells.old.items) (seen cells.new.items) ps ps (sited sites.old.items) (sited sites.new.items)) }
    ensures points { (ps : List PointerView) (is_ref : Bool) → verdict (effect_of decls.now kinds.now insn.now) ≡ passed → OnOk result (OperationPoints decls.now insn.now here.pending kinds.now held.old (transferred decls.now kinds.now insn.now here.node is_ref false) held.new (seen cells.old.items) (seen cells.new.items) ps ps (sited sites.old.items) (sited sites.new.items)) }
{
    are_whole(held, kinds);
    let map = map_in(kinds.registers[1]);
    let key = region_words(
        cells,
        held,
        kinds,
        kinds.registers[2],
        key_bytes(decls, map),
    )?;
    let c = change(cells, sites, here, map, Act::Delete, &key, &[], &[])?;
    held.registers[0] = c;
    Ok(())
}

// The operands of an update: the flags, and the words of the value.
fn update_operands(alloc: Global, flags: u32, value: &[u32]) -> Result<Vec<u32>, AllocError>
    ensures { IfOk result (λ all. all.items ≡ flags ∷ value.now) }
{
    let mut all = Vec::from_slice(alloc, &[flags])?;
    all.extend_from_slice(value)?;
    Ok(all)
}

/// An update: R0 gets the number that the helper answers.
pub fn operate_update(
    cells: &mut Vec<Cell>,
    sites: &mut Vec<Site>,
    held: &mut RegisterCells,
    kinds: &Kinds,
    insn: &Insn,
    decls: &[MapDecl],
    here: Here,
) -> Result<(), AllocError>
    requires op { insn.now.op ≡ Op.Call }
    requires helper { helper_of insn.now.imm ≡ Some Helper.Update }
    requires keys { (q : ℕ) → kind.key_bytes decls.now q ≤ 64 }
    requires values { (q : ℕ) → kind.value_bytes decls.now q ≤ 64 }
    requires pending { here.pending < length (seen cells.old.items) }
    requires guard { here.guard < length (seen cells.old.items) }
    requires inside { (ps : List PointerView) × AreInside decls.now (length (seen cells.old.items)) ps held.old kinds.now }
    ensures operates { (ps : List PointerView) (is_ref taken : Bool) → verdict (effect_of decls.now kinds.now insn.now) ≡ passed → AreInside decls.now (length (seen cells.old.items)) ps held.old kinds.now → OnOk result (Operates decls.now insn.now here.node here.guard is_ref taken kinds.now held.old held.new (seen cells.old.items) (seen cells.new.items) ps ps (sited sites.old.items) (sited sites.new.items)) }
    ensures rows { (ps : List PointerView) (is_ref : Bool) → verdict (effect_of decls.now kinds.now insn.now) ≡ passed → AreInside decls.now (length (seen cells.old.items)) ps held.old kinds.now → OnOk result (OperatesTo decls.now insn.now here.pending kinds.now held.old (transferred decls.now kinds.now insn.now here.node is_ref false) held.new (seen cells.old.items) (seen cells.new.items) ps ps (sited sites.old.items) (sited sites.new.items)) }
    ensures points { (ps : List PointerView) (is_ref : Bool) → verdict (effect_of decls.now kinds.now insn.now) ≡ passed → OnOk result (OperationPoints decls.now insn.now here.pending kinds.now held.old (transferred decls.now kinds.now insn.now here.node is_ref false) held.new (seen cells.old.items) (seen cells.new.items) ps ps (sited sites.old.items) (sited sites.new.items)) }
{
    are_whole(held, kinds);
    let map = map_in(kinds.registers[1]);
    let key = region_words(
        cells,
        held,
        kinds,
        kinds.registers[2],
        key_bytes(decls, map),
    )?;
    let value = region_words(
        cells,
        held,
        kinds,
        kinds.registers[3],
        value_bytes(decls, map),
    )?;
    let flags = number_in(cells, kinds.registers[4], held.registers[4])?;
    let operands = update_operands(*cells.allocator(), flags, &value)?;
    let c = change(
        cells,
        sites,
        here,
        map,
        Act::Update,
        &key,
        &[flags],
        &operands,
    )?;
    held.registers[0] = c;
    Ok(())
}
