//! What an operation of a packet does to the table of its map.

ghost use Rattle.std.specs.Prelude.{◌≡◌, ◌<◌, length};
ghost use Rattle.cell_core.specs.Formed.{AllFit, FitsMap};
ghost use Rattle.cell_core.specs.View.{program_of, site_of};
ghost use Rattle.hazard_core.specs.Tables.{decl_of, slot_at};
ghost use Rattle.hazard_core.specs.Shaped.{IsShaped};
ghost use Rattle.hazard_core.specs.StageValues.{asked, asked_key};
ghost use Rattle.hazard_core.specs.Commits.{makes_entry, slot_under, written_slot, slot_as, committed, taken_after, change_by};

use crate::change::Change;
use crate::operation::{key_of, operate};
use crate::overlay::written_pointer;
use crate::pointer::Pointer;
use crate::site::{is_delete, is_update, site_at};
use crate::slot::{Slot, free_slot};
use crate::stage_values::StageValues;
use crate::tables::Tables;
use cell_core::program::CellProgram;
use cell_core::site::{Act, Site};
use xdp_maps::short::ShortBytes;

/// Whether the operation at site j makes an entry of its own.
fn makes_entry(program: &CellProgram, tables: &Tables, held: &StageValues, j: usize) -> bool
    requires site { j < length program.now.sites.items }
    requires fits { AllFit tables.now.decls (program_of program.now).sites }
    ensures { result ≡ makes_entry (program_of program.now) tables.now held.now j }
{
    is_update(site_at(program, j).act)
        && written_pointer(program, tables, held, j).is_same(Pointer::Pending(j))
}

/// The slot that a pointer is to, where the operation at site j writes through it.
fn slot_under(slots: &[Slot], taken: &[usize], j: usize, pointer: Pointer) -> usize
    ensures { result ≡ slot_under slots.now taken.now j pointer }
{
    match pointer {
        Pointer::InSlot(n) => n,
        Pointer::Pending(i) => {
            if i == j {
                free_slot(slots)
            } else if i < taken.len() {
                taken[i]
            } else {
                0
            }
        }
        Pointer::Null => free_slot(slots),
    }
}

/// The slot that the operation at site j writes.
pub fn written_slot(
    program: &CellProgram,
    tables: &Tables,
    taken: &[usize],
    held: &StageValues,
    j: usize,
) -> usize
    requires site { j < length program.now.sites.items }
    requires fits { AllFit tables.now.decls (program_of program.now).sites }
    ensures { result ≡ written_slot (program_of program.now) tables.now taken.now held.now j }
{
    let slots = tables.slots(site_at(program, j).map);
    slot_under(slots, taken, j, written_pointer(program, tables, held, j))
}

/// What stands in a slot after the operation of a site, which makes a new entry there or not.
fn operate_slot(
    act: Act,
    tables: &Tables,
    held: &StageValues,
    site: &Site,
    new: bool,
    slot: &Slot,
) -> Slot
    requires fits { FitsMap tables.now.decls (site_of site.now) }
    requires shape { IsShaped (decl_of tables.now.decls site.now.map) slot.now }
    ensures slot { result ≡ slot_as act new (asked tables.now.decls held.now (site_of site.now)) (asked_key tables.now.decls held.now (site_of site.now)) slot.now }
    ensures key { length result.key ≡ (decl_of tables.now.decls site.now.map).key }
    ensures value { length result.value ≡ (decl_of tables.now.decls site.now.map).value }
{
    let mut slot = slot.copied();
    match act {
        Act::Update => {
            operate(tables, held, site, &mut slot.value);
            if new {
                slot.used = true;
                slot.key = key_of(tables, held, site);
            }
        }
        Act::Delete => slot.used = false,
        _ => operate(tables, held, site, &mut slot.value),
    }
    slot
}

/// Does the operation of a packet at site j to the tables, and keeps which slot an update takes.
#[tactic(auto, unfolding(crate::specs::Commits::committed))]
pub fn commit(
    program: &CellProgram,
    tables: &mut Tables,
    taken: &mut [usize],
    held: &StageValues,
    j: usize,
)
    requires site { j < length program.now.sites.items }
    requires fits { AllFit tables.old.decls (program_of program.now).sites }
    ensures tables { tables.new ≡ committed (program_of program.now) tables.old taken.old held.now j }
    ensures taken { taken.new ≡ taken_after (program_of program.now) tables.old taken.old held.now j }
{
    let site = site_at(program, j);
    let at = written_slot(program, tables, taken, held, j);
    let new = makes_entry(program, tables, held, j);
    let slots = tables.slots(site.map);
    if at < slots.len() {
        let slot = operate_slot(site.act, tables, held, site, new, &slots[at]);
        tables.put(site.map, at, slot);
    }
    if is_update(site.act) && j < taken.len() {
        taken[j] = at;
    }
}

/// The key in a slot, if there is such a one.
pub(crate) fn key_in(slots: &[Slot], at: usize) -> ShortBytes
    ensures { result ≡ (slot_at slots.now at).key }
{
    if at < slots.len() {
        slots[at].key.copied()
    } else {
        ShortBytes::zeros(0)
    }
}

/// The change that the operation of a packet at site j makes.
#[tactic(auto, unfolding(crate::specs::Commits::change_by))]
pub fn change_by(
    program: &CellProgram,
    tables: &Tables,
    taken: &[usize],
    held: &StageValues,
    j: usize,
) -> Change
    requires site { j < length program.now.sites.items }
    requires fits { AllFit tables.now.decls (program_of program.now).sites }
    ensures { result ≡ change_by (program_of program.now) tables.now taken.now held.now j }
{
    let site = site_at(program, j);
    let at = written_slot(program, tables, taken, held, j);
    let key = match site.act {
        Act::Update | Act::Delete => key_of(tables, held, site),
        _ => key_in(tables.slots(site.map), at),
    };
    Change {
        map: site.map,
        slot: at,
        key,
        presence: is_delete(site.act) || makes_entry(program, tables, held, j),
    }
}
