// The cells, pointers and sites of an instruction that leads on.

ghost use Rattle.std.specs.Prelude.{ℕ, Bool, ◌≡◌, ◌<◌, ◌≤◌, pos, false, true, Some, length, slice_index, All, OnOk};
ghost use Rattle.xdp_machine.specs.bpf_isa.Helpers.{helper_of};
ghost use Rattle.xdp_machine.specs.bpf_isa.Spelling.{IsInsn};
ghost use Rattle.kind_core.specs.Tests.{passed};
ghost use Rattle.kind_core.specs.Effects.{effect_of, verdict};
ghost use Rattle.kind_core.specs.Kinds as kind;
ghost use Rattle.kind_core.specs.Edges.{transferred};
ghost use Rattle.cell_core.specs.Formed.{AreFormed};
ghost use Rattle.operator_cells.specs.Making.{seen};
ghost use Rattle.operator_cells.specs.HeldCells.RegisterCells.{pointed, AreInside};
ghost use Rattle.operator_cells.specs.HeldCells.Operating.{Operates};
ghost use Rattle.operator_cells.specs.HeldCells.Rows.{map_used, OperatesTo};
ghost use Rattle.operator_cells.specs.HeldCells.Pointing.{OperationPoints, InstructionPoints};
ghost use Rattle.operator_cells.specs.row_rules.PlaceRows.Spans.{map_of};
ghost use Rattle.predicate_core.specs.StepCells.Rows.{InstructionRows};
ghost use Rattle.site_cells.specs.Sited.{sited};
ghost use Rattle.register_cells.specs.Plain as spec;
ghost use Rattle.edge_cells.specs.NodeCells.Carrying.{touches_map};
ghost use Rattle.edge_cells.specs.NodeCells.Ends.{leads_on};

use crate::step_cells::made::Made;
use cell_core::cell::Cell;
use cell_core::site::Site;
use edge_cells::node_cells::laws::carries_operate;
use kind_core::{Kind, Kinds};
use operator_cells::held_cells::machine_cells::{Pointer, RegisterCells};
use register_cells::plain::{carry_plain, is_plain};
use site_cells::access::{operate_load, operate_load_signed, operate_store, operate_store_imm};
use site_cells::atomic::operate_atomic;
use site_cells::change::{operate_delete, operate_update};
use site_cells::here::Here;
use site_cells::lookup::operate_lookup;
use std::alloc::AllocError;
use xdp_machine::bpf_isa::{Helper, Insn, Op};
use xdp_machine::xdp_maps::decl::MapDecl;

// The kind that tells the map of an instruction: of the pointer of an access, or R1's at a call.
fn kind_used(kinds: &Kinds, insn: &Insn) -> Kind
    requires { IsInsn insn.now }
    ensures { map_used kinds.now insn.now insn.now.op ≡ map_of result }
{
    match insn.op {
        Op::Load(_) | Op::LoadSigned(_) => kinds.registers[insn.src as usize],
        Op::Call => kinds.registers[1],
        _ => kinds.registers[insn.dst as usize],
    }
}

// The map that a kind speaks of, 0 where it speaks of none.
fn map_in(kind: Kind) -> u32
    ensures { (q : ℕ) → map_of kind ≡ Some q → result ≡ q }
{
    match kind {
        Kind::Entry(map, _) | Kind::MapRef(map) => map,
        _ => 0,
    }
}

// The cell of the writes of a map before a node. A map that is not declared has none: it is the guard.
fn pending_of(pending: &[u32], map: u32, guard: u32) -> u32
    ensures there { (n : ℕ) → All (λ c. c < n) pending.now → guard < n → result < n }
    ensures own { map < length pending.now → result ≡ slice_index pending.now map }
{
    match pending.get(map as usize) {
        Some(cell) => *cell,
        None => guard,
    }
}

// A call of a helper that asks a map.
fn operate_call(
    made: &mut Made,
    held: &mut RegisterCells,
    decls: &[MapDecl],
    kinds: &Kinds,
    insn: &Insn,
    here: Here,
) -> Result<(), AllocError>
    requires op { insn.now.op ≡ Op.Call }
    requires asks { spec.asks_no_map (helper_of insn.now.imm) ≡ false }
    requires guard { here.guard < length (seen made.old.cells.items) }
    requires pending { here.pending < length (seen made.old.cells.items) }
    requires inside { AreInside decls.now (length (seen made.old.cells.items)) (pointed made.old.pointers.items) held.old kinds.now }
    requires allowed { verdict (effect_of decls.now kinds.now insn.now) ≡ passed }
    requires keys { (q : ℕ) → kind.key_bytes decls.now q ≤ 64 }
    requires values { (q : ℕ) → kind.value_bytes decls.now q ≤ 64 }
    ensures operates { (is_ref : Bool) → OnOk result (Operates decls.now insn.now here.node here.guard is_ref false kinds.now held.old held.new (seen made.old.cells.items) (seen made.new.cells.items) (pointed made.old.pointers.items) (pointed made.new.pointers.items) (sited made.old.sites.items) (sited made.new.sites.items)) }
    ensures rows { (is_ref : Bool) → OnOk result (OperatesTo decls.now insn.now here.pending kinds.now held.old (transferred decls.now kinds.now insn.now here.node is_ref false) held.new (seen made.old.cells.items) (seen made.new.cells.items) (pointed made.old.pointers.items) (pointed made.new.pointers.items) (sited made.old.sites.items) (sited made.new.sites.items)) }
    ensures points { (is_ref : Bool) → OnOk result (OperationPoints decls.now insn.now here.pending kinds.now held.old (transferred decls.now kinds.now insn.now here.node is_ref false) held.new (seen made.old.cells.items) (seen made.new.cells.items) (pointed made.old.pointers.items) (pointed made.new.pointers.items) (sited made.old.sites.items) (sited made.new.sites.items)) }
    ensures ways { OnOk result (made.new.ways ≡ made.old.ways) }
    ensures exits { OnOk result (made.new.exits ≡ made.old.exits) }
{
    let cells = &mut made.cells;
    let sites = &mut made.sites;
    match Helper::known(insn.imm) {
        Helper::Lookup => operate_lookup(
            cells,
            &mut made.pointers,
            sites,
            held,
            kinds,
            insn,
            decls,
            here,
        ),
        Helper::Update => operate_update(cells, sites, held, kinds, insn, decls, here),
        _ => operate_delete(cells, sites, held, kinds, insn, decls, here),
    }
}

// An access to an entry of a map.
fn operate_access(
    made: &mut Made,
    held: &mut RegisterCells,
    decls: &[MapDecl],
    kinds: &Kinds,
    insn: &Insn,
    here: Here,
) -> Result<(), AllocError>
    requires insn { IsInsn insn.now }
    requires leads { leads_on insn.now.op ≡ true }
    requires call { insn.now.op ≡ Op.Call → ⊥ }
    requires accesses { spec.is_plain kinds.now insn.now ≡ false }
    requires guard { here.guard < length (seen made.old.cells.items) }
    requires pending { here.pending < length (seen made.old.cells.items) }
    requires inside { AreInside decls.now (length (seen made.old.cells.items)) (pointed made.old.pointers.items) held.old kinds.now }
    requires allowed { verdict (effect_of decls.now kinds.now insn.now) ≡ passed }
    requires values { (q : ℕ) → kind.value_bytes decls.now q ≤ 64 }
    ensures operates { (is_ref : Bool) → OnOk result (Operates decls.now insn.now here.node here.guard is_ref false kinds.now held.old held.new (seen made.old.cells.items) (seen made.new.cells.items) (pointed made.old.pointers.items) (pointed made.new.pointers.items) (sited made.old.sites.items) (sited made.new.sites.items)) }
    ensures rows { (is_ref : Bool) → OnOk result (OperatesTo decls.now insn.now here.pending kinds.now held.old (transferred decls.now kinds.now insn.now here.node is_ref false) held.new (seen made.old.cells.items) (seen made.new.cells.items) (pointed made.old.pointers.items) (pointed made.new.pointers.items) (sited made.old.sites.items) (sited made.new.sites.items)) }
    ensures points { (is_ref : Bool) → OnOk result (OperationPoints decls.now insn.now here.pending kinds.now held.old (transferred decls.now kinds.now insn.now here.node is_ref false) held.new (seen made.old.cells.items) (seen made.new.cells.items) (pointed made.old.pointers.items) (pointed made.new.pointers.items) (sited made.old.sites.items) (sited made.new.sites.items)) }
    ensures ways { OnOk result (made.new.ways ≡ made.old.ways) }
    ensures exits { OnOk result (made.new.exits ≡ made.old.exits) }
{
    let cells = &mut made.cells;
    let pointers = &made.pointers;
    let sites = &mut made.sites;
    match insn.op {
        Op::Load(size) => {
            operate_load(cells, pointers, sites, held, kinds, insn, decls, here, size)
        }
        Op::LoadSigned(size) => {
            operate_load_signed(cells, pointers, sites, held, kinds, insn, decls, here, size)
        }
        Op::Store(size) => {
            operate_store(cells, pointers, sites, held, kinds, insn, decls, here, size)
        }
        Op::StoreImm(size) => {
            operate_store_imm(cells, pointers, sites, held, kinds, insn, decls, here, size)
        }
        Op::Atomic(size) => {
            operate_atomic(cells, pointers, sites, held, kinds, insn, decls, here, size)
        }
        _ => Ok(()),
    }
}

/// An allowed instruction that leads on: its cells, pointers and sites, and what they hold.
pub(crate) fn operate_at(
    made: &mut Made,
    held: &mut RegisterCells,
    decls: &[MapDecl],
    node: u32,
    kinds: &Kinds,
    guard: u32,
    insn: &Insn,
    pending: &[u32],
) -> Result<(), AllocError>
    requires insn { IsInsn insn.now }
    requires leads { leads_on insn.now.op ≡ true }
    requires formed { AreFormed (seen made.old.cells.items) }
    requires guard { guard < length (seen made.old.cells.items) }
    requires pending { All (λ c. c < length (seen made.old.cells.items)) pending.now }
    requires inside { AreInside decls.now (length (seen made.old.cells.items)) (pointed made.old.pointers.items) held.old kinds.now }
    requires allowed { verdict (effect_of decls.now kinds.now insn.now) ≡ passed }
    requires keys { (q : ℕ) → kind.key_bytes decls.now q ≤ 64 }
    requires values { (q : ℕ) → kind.value_bytes decls.now q ≤ 64 }
    ensures operates { (is_ref : Bool) → OnOk result (Operates decls.now insn.now node guard is_ref false kinds.now held.old held.new (seen made.old.cells.items) (seen made.new.cells.items) (pointed made.old.pointers.items) (pointed made.new.pointers.items) (sited made.old.sites.items) (sited made.new.sites.items)) }
    ensures rows { (is_ref : Bool) → OnOk result (InstructionRows decls.now kinds.now held.old insn.now (transferred decls.now kinds.now insn.now node is_ref false) held.new pending.now (seen made.old.cells.items) (seen made.new.cells.items) (pointed made.old.pointers.items) (pointed made.new.pointers.items) (sited made.old.sites.items) (sited made.new.sites.items)) }
    ensures points { (is_ref : Bool) → OnOk result (InstructionPoints decls.now insn.now pending.now kinds.now held.old (transferred decls.now kinds.now insn.now node is_ref false) held.new (seen made.old.cells.items) (seen made.new.cells.items) (pointed made.old.pointers.items) (pointed made.new.pointers.items) (sited made.old.sites.items) (sited made.new.sites.items)) }
    ensures ways { OnOk result (made.new.ways ≡ made.old.ways) }
    ensures exits { OnOk result (made.new.exits ≡ made.old.exits) }
{
    if is_plain(kinds, insn) {
        carries_operate();
        return carry_plain(&mut made.cells, &made.pointers, held, kinds, insn);
    }
    let here = Here {
        node,
        guard,
        pending: pending_of(pending, map_in(kind_used(kinds, insn)), guard),
    };
    match insn.op {
        Op::Call => operate_call(made, held, decls, kinds, insn, here),
        _ => operate_access(made, held, decls, kinds, insn, here),
    }
}
