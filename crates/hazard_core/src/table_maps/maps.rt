//! The maps that tables stand for.

ghost use Rattle.std.specs.Prelude.{ℕ, ◌≡◌, ◌<◌, ◌^◌, length, All, IfOk};
ghost use Rattle.xdp_maps.specs.Contents.{IsWithinLimits};
ghost use Rattle.xdp_maps.specs.State.{decl_at, contents_at, with_contents};
ghost use Rattle.hazard_core.specs.Shaped.{IsShaped};
ghost use Rattle.hazard_core.specs.Tabled.{AreTables};
ghost use Rattle.hazard_core.specs.Tables.{slot_at, maps_of};
ghost use Rattle.hazard_core.specs.TableMaps.Refilled.{with_pair, refilled};

use crate::slot::Slot;
use crate::tables::Tables;
use std::alloc::{AllocError, Global};
use xdp_maps::laws;
use xdp_maps::state::Maps;

/// Puts the pair of a slot into a map, if the slot is used.
fn put(maps: &mut Maps, map: u32, slot: &Slot)
    requires map { map < length maps.old.decls }
    requires shape { IsShaped (decl_at maps.old map) slot.now }
    ensures { maps.new ≡ with_contents maps.old map (with_pair (decl_at maps.old map) slot.now (contents_at maps.old map)) }
{
    if slot.used {
        maps.update(map, slot.key.as_slice(), slot.value.as_slice(), 0);
    }
}

/// Puts the pairs of a table into its map, from the last slot to the first.
fn fill(maps: &mut Maps, map: u32, slots: &[Slot])
    requires map { map < length maps.old.decls }
    requires contents { map < length maps.old.contents }
    requires shape { (n : ℕ) → n < length slots.now → IsShaped (decl_at maps.old map) (slot_at slots.now n) }
    ensures { maps.new ≡ with_contents maps.old map (refilled (decl_at maps.old map) slots.now (contents_at maps.old map)) }
{
    let mut i = slots.len();
    while i > 0 {
        i -= 1;
        put(maps, map, &slots[i]);
    }
}

/// The declarations of tables are within the limits.
fn limits(tables: &Tables)
    ensures { All IsWithinLimits tables.now.decls }
{
    if !tables.decls().is_empty() {
        tables.decl(0);
    }
}

/// The maps that tables stand for, as a copy of their used slots.
pub fn maps_of(alloc: Global, tables: &Tables) -> Result<Maps, AllocError>
    requires { length tables.now.decls < 2 ^ 32 }
    ensures decls { IfOk result (λ maps. maps.decls ≡ tables.now.decls) }
    ensures maps { IfOk result (λ maps. AreTables tables.now → maps ≡ maps_of tables.now) }
{
    laws::index_laws();
    laws::keeps_over();
    limits(tables);
    let mut maps = Maps::new(alloc, tables.decls())?;
    for map in 0..tables.decls().len() as u32 {
        fill(&mut maps, map, tables.slots(map));
    }
    Ok(maps)
}
