//! Lookups.

ghost use Rattle.std.specs.Prelude.{◌≡◌, ◌<◌, ◌≤◌, ◌++◌, [], ◌∷◌, ℕ, Bool, List, length, All, IfOk, OnOk, false};
ghost use Rattle.cell_core.specs.bpf_isa.Helpers.{helper_of};
ghost use Rattle.cell_core.specs.xdp_maps.declared.decl.MapDecl.{MapDecl};
ghost use Rattle.kind_core.specs.Tests.{passed};
ghost use Rattle.kind_core.specs.Kinds as kind;
ghost use Rattle.kind_core.specs.Effects.{effect_of, verdict};
ghost use Rattle.kind_core.specs.Edges.{transferred};
ghost use Rattle.operator_cells.specs.Making.{seen};
ghost use Rattle.operator_cells.specs.HeldCells.RegisterCells.{PointerView, pointed, AreInside};
ghost use Rattle.operator_cells.specs.HeldCells.Operating.{Operates};
ghost use Rattle.operator_cells.specs.HeldCells.Rows.{OperatesTo};
ghost use Rattle.operator_cells.specs.HeldCells.Pointing.{OperationPoints};
ghost use Rattle.site_cells.specs.Sited.{sited};
ghost use Rattle.site_cells.specs.Siting.{LooksUp};

use crate::declared::{key_bytes, map_in};
use crate::here::Here;
use crate::sizes::are_whole;
use crate::words::region_words;
use cell_core::cell::{Cell, Cells};
use cell_core::site::{Act, Site};
use cell_core::xdp_state::bpf_isa::{Helper, Insn, Op};
use cell_core::xdp_state::xdp_maps::decl::MapDecl;
use kind_core::{Kind, Kinds};
use operator_cells::cells::found;
use operator_cells::held_cells::machine_cells::{Pointer, RegisterCells};
use std::alloc::{AllocError, Global};

// What the reads of a site come after.
pub(crate) fn inputs(
    alloc: Global,
    key: &[u32],
    operands: &[u32],
    pending: u32,
) -> Result<Vec<u32>, AllocError>
    ensures { IfOk result (λ ins. ins.items ≡ key.now ++ operands.now ++ pending ∷ []) }
{
    let mut ins = Vec::from_slice(alloc, key)?;
    ins.extend_from_slice(operands)?;
    ins.push(pending)?;
    Ok(ins)
}

// A lookup under a key.
fn look_up(
    cells: &mut Vec<Cell>,
    pointers: &mut Vec<Pointer>,
    sites: &mut Vec<Site>,
    here: Here,
    map: u32,
    key: &[u32],
) -> Result<u32, AllocError>
    requires key { All (λ i. i < length (seen cells.old.items)) key.now }
    requires pending { here.pending < length (seen cells.old.items) }
    ensures { IfOk result (λ c. LooksUp (seen cells.old.items) (seen cells.new.items) (pointed pointers.old.items) (pointed pointers.new.items) (sited sites.old.items) (sited sites.new.items) here map key.now c) }
{
    let Ok(site) = u32::try_from(sites.len()) else {
        return Err(AllocError);
    };
    let Ok(at) = u32::try_from(pointers.len()) else {
        return Err(AllocError);
    };
    let ins = inputs(*cells.allocator(), key, &[], here.pending)?;
    let there = found(cells, site, &ins)?;
    pointers.push(Pointer {
        found: there,
        key: Cells::from_slice(*cells.allocator(), key)?,
    })?;
    sites.push(Site {
        node: here.node,
        map,
        guard: here.guard,
        act: Act::Lookup,
        key: Cells::from_slice(*cells.allocator(), key)?,
        operands: Cells::new(*cells.allocator()),
    })?;
    Ok(at)
}

/// A lookup: R0 gets the entry, or null.
pub fn operate_lookup(
    cells: &mut Vec<Cell>,
    pointers: &mut Vec<Pointer>,
    sites: &mut Vec<Site>,
    held: &mut RegisterCells,
    kinds: &Kinds,
    insn: &Insn,
    decls: &[MapDecl],
    here: Here,
) -> Result<(), AllocError>
    requires op { insn.now.op ≡ Op.Call }
    requires helper { helper_of insn.now.imm ≡ Some Helper.Lookup }
    requires keys { (q : ℕ) → kind.key_bytes decls.now q ≤ 64 }
    requires pending { here.pending < length (seen cells.old.items) }
    requires guard { here.guard < length (seen cells.old.items) }
    requires inside { AreInside decls.now (length (seen cells.old.items)) (pointed pointers.old.items) held.old kinds.now }
    ensures operates { (is_ref taken : Bool) → verdict (effect_of decls.now kinds.now insn.now) ≡ passed → OnOk result (Operates decls.now insn.now here.node here.guard is_ref taken kinds.now held.old held.new (seen cells.old.items) (seen cells.new.items) (pointed pointers.old.items) (pointed pointers.new.items) (sited sites.old.items) (sited sites.new.items)) }
    ensures rows { (is_ref : Bool) → verdict (effect_of decls.now kinds.now insn.now) ≡ passed → OnOk result (OperatesTo decls.now insn.now here.pending kinds.now held.old (transferred decls.now kinds.now insn.now here.node is_ref false) held.new (seen cells.old.items) (seen cells.new.items) (pointed pointers.old.items) (pointed pointers.new.items) (sited sites.old.items) (sited sites.new.items)) }
    ensures points { (is_ref : Bool) → verdict (effect_of decls.now kinds.now insn.now) ≡ passed → OnOk result (OperationPoints decls.now insn.now here.pending kinds.now held.old (transferred decls.now kinds.now insn.now here.node is_ref false) held.new (seen cells.old.items) (seen cells.new.items) (pointed pointers.old.items) (pointed pointers.new.items) (sited sites.old.items) (sited sites.new.items)) }
{
    are_whole(held, kinds);
    let map = map_in(kinds.registers[1]);
    let key = region_words(
        cells,
        held,
        kinds,
        kinds.registers[2],
        key_bytes(decls, map),
    )?;
    let c = look_up(cells, pointers, sites, here, map, &key)?;
    held.registers[0] = c;
    Ok(())
}
