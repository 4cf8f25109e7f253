//! Accesses through a pointer to an entry.

ghost use Rattle.std.specs.Prelude.{◌≡◌, ◌<◌, ◌≤◌, ◌++◌, [], ◌∷◌, ℕ, ℤ, pos, ◌+◌, ◌+ℤ◌, Bool, List, length, All, IfOk, IfSome, OnOk, false};
ghost use Rattle.cell_core.specs.xdp_maps.declared.decl.MapDecl.{MapDecl};
ghost use Rattle.cell_core.specs.xdp_machine.Memory.{bytes_in};
ghost use Rattle.cell_core.specs.xdp_machine.Memory as machine;
ghost use Rattle.cell_core.specs.bpf_isa.Spelling.{IsInsn};
ghost use Rattle.kind_core.specs.Tests.{passed};
ghost use Rattle.kind_core.specs.Kinds as kind;
ghost use Rattle.kind_core.specs.declared.kind.Kind.TheVariants as kind_is;
ghost use Rattle.kind_core.specs.Effects.{effect_of, verdict};
ghost use Rattle.kind_core.specs.Edges.{transferred};
ghost use Rattle.cell_core.specs.Formed.{AreFormed};
ghost use Rattle.operator_cells.specs.Making.{seen};
ghost use Rattle.operator_cells.specs.HeldCells.RegisterCells.{pointed, pointer_of, AreInside};
ghost use Rattle.operator_cells.specs.HeldCells.Operating.{Operates};
ghost use Rattle.operator_cells.specs.HeldCells.Rows.{OperatesTo};
ghost use Rattle.operator_cells.specs.HeldCells.Pointing.{OperationPoints};
ghost use Rattle.site_cells.specs.Sited.{sited};
ghost use Rattle.site_cells.specs.Siting.{Accesses, access_site};

use crate::declared::value_bytes;
use crate::here::Here;
use crate::lookup::inputs;
use crate::numbers::number_in;
use crate::sizes::are_whole;
use cell_core::cell::{Cell, Cells};
use cell_core::site::{Act, Site};
use cell_core::xdp_state::bpf_isa::{Insn, Op, Size, Width};
use cell_core::xdp_state::memory::{aligned, bytes_in};
use cell_core::xdp_state::xdp_maps::decl::MapDecl;
use kind_core::{Kind, Kinds};
use operator_cells::cells::{answer, constant};
use operator_cells::held_cells::machine_cells::{Pointer, RegisterCells};
use operator_cells::slicing::extend;
use std::alloc::AllocError;

/// Where an access begins in a value.
pub(crate) fn place(decls: &[MapDecl], map: u32, o: u32, offset: i16, size: Size) -> u32
    requires { (q : ℕ) → kind.value_bytes decls.now q ≤ 64 }
    ensures { (a : ℕ) → machine.aligned (pos o +ℤ offset) (bytes_in size) (kind.value_bytes decls.now map) ≡ Some a → result ≡ a }
{
    let from = i128::from(o) + i128::from(offset);
    match aligned(from, bytes_in(size), value_bytes(decls, map) as usize) {
        Some(at) => at as u32,
        None => 0,
    }
}

/// The site of an access.
pub(crate) fn push_access(
    sites: &mut Vec<Site>,
    here: Here,
    map: u32,
    act: Act,
    pointer: &Pointer,
    operands: &[u32],
) -> Result<(), AllocError>
    ensures { OnOk result (sited sites.new.items ≡ sited sites.old.items ++ access_site here map act (pointer_of pointer.now) operands.now ∷ []) }
{
    let mut all = Cells::from_slice(*sites.allocator(), operands)?;
    all.push(pointer.found)?;
    sites.push(Site {
        node: here.node,
        map,
        guard: here.guard,
        act,
        key: Cells::from_slice(*sites.allocator(), &pointer.key)?,
        operands: all,
    })?;
    Ok(())
}

/// What an access answers, of so many bits.
pub(crate) fn access_answer(
    cells: &mut Vec<Cell>,
    sites: &mut Vec<Site>,
    here: Here,
    map: u32,
    act: Act,
    pointer: &Pointer,
    operands: &[u32],
    width: u32,
) -> Result<u32, AllocError>
    requires key { All (λ i. i < length (seen cells.old.items)) pointer.now.key.items }
    requires found { pointer.now.found < length (seen cells.old.items) }
    requires operands { All (λ i. i < length (seen cells.old.items)) operands.now }
    requires pending { here.pending < length (seen cells.old.items) }
    requires width { width ≤ 64 }
    ensures { IfOk result (λ c. Accesses (seen cells.old.items) (seen cells.new.items) (sited sites.old.items) (sited sites.new.items) here map act (pointer_of pointer.now) operands.now c width) }
{
    let Ok(site) = u32::try_from(sites.len()) else {
        return Err(AllocError);
    };
    let mut all = Vec::from_slice(*cells.allocator(), operands)?;
    all.push(pointer.found)?;
    let ins = inputs(*cells.allocator(), &pointer.key, &all, here.pending)?;
    let c = answer(cells, site, &ins, width)?;
    push_access(sites, here, map, act, pointer, operands)?;
    Ok(c)
}

/// A load: its destination gets a number of the entry.
pub fn operate_load(
    cells: &mut Vec<Cell>,
    pointers: &[Pointer],
    sites: &mut Vec<Site>,
    held: &mut RegisterCells,
    kinds: &Kinds,
    insn: &Insn,
    decls: &[MapDecl],
    here: Here,
    size: Size,
) -> Result<(), AllocError>
    requires insn { IsInsn insn.now }
    requires op { insn.now.op ≡ Op.Load size }
    requires base { (q : ℕ) × (o : ℕ) × (kind.register kinds.now insn.now.src ≡ kind_is.Entry q o) }
    requires values { (q : ℕ) → kind.value_bytes decls.now q ≤ 64 }
    requires pending { here.pending < length (seen cells.old.items) }
    requires guard { here.guard < length (seen cells.old.items) }
    requires inside { AreInside decls.now (length (seen cells.old.items)) (pointed pointers.now) held.old kinds.now }
    ensures operates { (is_ref taken : Bool) → verdict (effect_of decls.now kinds.now insn.now) ≡ passed → OnOk result (Operates decls.now insn.now here.node here.guard is_ref taken kinds.now held.old held.new (seen cells.old.items) (seen cells.new.items) (pointed pointers.now) (pointed pointers.now) (sited sites.old.items) (sited sites.new.items)) }
    ensures rows { (is_ref : Bool) → verdict (effect_of decls.now kinds.now insn.now) ≡ passed → OnOk result (OperatesTo decls.now insn.now here.pending kinds.now held.old (transferred decls.now kinds.now insn.now here.node is_ref false) held.new (seen cells.old.items) (seen cells.new.items) (pointed pointers.now) (pointed pointers.now) (sited sites.old.items) (sited sites.new.items)) }
    ensures points { (is_ref : Bool) → verdict (effect_of decls.now kinds.now insn.now) ≡ passed → OnOk result (OperationPoints decls.now insn.now here.pending kinds.now held.old (transferred decls.now kinds.now insn.now here.node is_ref false) held.new (seen cells.old.items) (seen cells.new.items) (pointed pointers.now) (pointed pointers.now) (sited sites.old.items) (sited sites.new.items)) }
{
    are_whole(held, kinds);
    if let Kind::Entry(map, o) = kinds.registers[insn.src as usize] {
        let act = Act::Load(place(decls, map, o, insn.offset, size), size);
        let pointer = &pointers[held.registers[insn.src as usize] as usize];
        let width = 8 * bytes_in(size) as u32;
        let c = access_answer(cells, sites, here, map, act, pointer, &[], width)?;
        held.registers[insn.dst as usize] = c;
    }
    Ok(())
}

/// A load that extends the sign.
pub fn operate_load_signed(
    cells: &mut Vec<Cell>,
    pointers: &[Pointer],
    sites: &mut Vec<Site>,
    held: &mut RegisterCells,
    kinds: &Kinds,
    insn: &Insn,
    decls: &[MapDecl],
    here: Here,
    size: Size,
) -> Result<(), AllocError>
    requires insn { IsInsn insn.now }
    requires op { insn.now.op ≡ Op.LoadSigned size }
    requires base { (q : ℕ) × (o : ℕ) × (kind.register kinds.now insn.now.src ≡ kind_is.Entry q o) }
    requires values { (q : ℕ) → kind.value_bytes decls.now q ≤ 64 }
    requires pending { here.pending < length (seen cells.old.items) }
    requires guard { here.guard < length (seen cells.old.items) }
    requires inside { AreInside decls.now (length (seen cells.old.items)) (pointed pointers.now) held.old kinds.now }
    ensures operates { (is_ref taken : Bool) → verdict (effect_of decls.now kinds.now insn.now) ≡ passed → OnOk result (Operates decls.now insn.now here.node here.guard is_ref taken kinds.now held.old held.new (seen cells.old.items) (seen cells.new.items) (pointed pointers.now) (pointed pointers.now) (sited sites.old.items) (sited sites.new.items)) }
    ensures rows { (is_ref : Bool) → verdict (effect_of decls.now kinds.now insn.now) ≡ passed → OnOk result (OperatesTo decls.now insn.now here.pending kinds.now held.old (transferred decls.now kinds.now insn.now here.node is_ref false) held.new (seen cells.old.items) (seen cells.new.items) (pointed pointers.now) (pointed pointers.now) (sited sites.old.items) (sited sites.new.items)) }
    ensures points { (is_ref : Bool) → verdict (effect_of decls.now kinds.now insn.now) ≡ passed → OnOk result (OperationPoints decls.now insn.now here.pending kinds.now held.old (transferred decls.now kinds.now insn.now here.node is_ref false) held.new (seen cells.old.items) (seen cells.new.items) (pointed pointers.now) (pointed pointers.now) (sited sites.old.items) (sited sites.new.items)) }
{
    are_whole(held, kinds);
    if let Kind::Entry(map, o) = kinds.registers[insn.src as usize] {
        let act = Act::Load(place(decls, map, o, insn.offset, size), size);
        let pointer = &pointers[held.registers[insn.src as usize] as usize];
        let count = 8 * bytes_in(size) as u32;
        let answer = access_answer(cells, sites, here, map, act, pointer, &[], count)?;
        let c = extend(cells, Width::Bits64, count, answer)?;
        held.registers[insn.dst as usize] = c;
    }
    Ok(())
}

/// A store of a register.
pub fn operate_store(
    cells: &mut Vec<Cell>,
    pointers: &[Pointer],
    sites: &mut Vec<Site>,
    held: &RegisterCells,
    kinds: &Kinds,
    insn: &Insn,
    decls: &[MapDecl],
    here: Here,
    size: Size,
) -> Result<(), AllocError>
    requires insn { IsInsn insn.now }
    requires op { insn.now.op ≡ Op.Store size }
    requires base { (q : ℕ) × (o : ℕ) × (kind.register kinds.now insn.now.dst ≡ kind_is.Entry q o) }
    requires values { (q : ℕ) → kind.value_bytes decls.now q ≤ 64 }
    requires guard { here.guard < length (seen cells.old.items) }
    requires inside { AreInside decls.now (length (seen cells.old.items)) (pointed pointers.now) held.now kinds.now }
    ensures operates { (is_ref taken : Bool) → verdict (effect_of decls.now kinds.now insn.now) ≡ passed → OnOk result (Operates decls.now insn.now here.node here.guard is_ref taken kinds.now held.now held.now (seen cells.old.items) (seen cells.new.items) (pointed pointers.now) (pointed pointers.now) (sited sites.old.items) (sited sites.new.items)) }
    ensures rows { (is_ref : Bool) → verdict (effect_of decls.now kinds.now insn.now) ≡ passed → OnOk result (OperatesTo decls.now insn.now here.pending kinds.now held.now (transferred decls.now kinds.now insn.now here.node is_ref false) held.now (seen cells.old.items) (seen cells.new.items) (pointed pointers.now) (pointed pointers.now) (sited sites.old.items) (sited sites.new.items)) }
    ensures points { (is_ref : Bool) → verdict (effect_of decls.now kinds.now insn.now) ≡ passed → OnOk result (OperationPoints decls.now insn.now here.pending kinds.now held.now (transferred decls.now kinds.now insn.now here.node is_ref false) held.now (seen cells.old.items) (seen cells.new.items) (pointed pointers.now) (pointed pointers.now) (sited sites.old.items) (sited sites.new.items)) }
{
    are_whole(held, kinds);
    if let Kind::Entry(map, o) = kinds.registers[insn.dst as usize] {
        let act = Act::Store(place(decls, map, o, insn.offset, size), size);
        let pointer = &pointers[held.registers[insn.dst as usize] as usize];
        let kind = kinds.registers[insn.src as usize];
        let source = number_in(cells, kind, held.registers[insn.src as usize])?;
        push_access(sites, here, map, act, pointer, &[source])?;
    }
    Ok(())
}

/// A store of an immediate number.
pub fn operate_store_imm(
    cells: &mut Vec<Cell>,
    pointers: &[Pointer],
    sites: &mut Vec<Site>,
    held: &RegisterCells,
    kinds: &Kinds,
    insn: &Insn,
    decls: &[MapDecl],
    here: Here,
    size: Size,
) -> Result<(), AllocError>
    requires insn { IsInsn insn.now }
    requires op { insn.now.op ≡ Op.StoreImm size }
    requires base { (q : ℕ) × (o : ℕ) × (kind.register kinds.now insn.now.dst ≡ kind_is.Entry q o) }
    requires values { (q : ℕ) → kind.value_bytes decls.now q ≤ 64 }
    requires guard { here.guard < length (seen cells.old.items) }
    requires inside { AreInside decls.now (length (seen cells.old.items)) (pointed pointers.now) held.now kinds.now }
    ensures operates { (is_ref taken : Bool) → verdict (effect_of decls.now kinds.now insn.now) ≡ passed → OnOk result (Operates decls.now insn.now here.node here.guard is_ref taken kinds.now held.now held.now (seen cells.old.items) (seen cells.new.items) (pointed pointers.now) (pointed pointers.now) (sited sites.old.items) (sited sites.new.items)) }
    ensures rows { (is_ref : Bool) → verdict (effect_of decls.now kinds.now insn.now) ≡ passed → OnOk result (OperatesTo decls.now insn.now here.pending kinds.now held.now (transferred decls.now kinds.now insn.now here.node is_ref false) held.now (seen cells.old.items) (seen cells.new.items) (pointed pointers.now) (pointed pointers.now) (sited sites.old.items) (sited sites.new.items)) }
    ensures points { (is_ref : Bool) → verdict (effect_of decls.now kinds.now insn.now) ≡ passed → OnOk result (OperationPoints decls.now insn.now here.pending kinds.now held.now (transferred decls.now kinds.now insn.now here.node is_ref false) held.now (seen cells.old.items) (seen cells.new.items) (pointed pointers.now) (pointed pointers.now) (sited sites.old.items) (sited sites.new.items)) }
{
    are_whole(held, kinds);
    if let Kind::Entry(map, o) = kinds.registers[insn.dst as usize] {
        let act = Act::Store(place(decls, map, o, insn.offset, size), size);
        let pointer = &pointers[held.registers[insn.dst as usize] as usize];
        let source = constant(cells, insn.imm.cast_unsigned(), 64)?;
        push_access(sites, here, map, act, pointer, &[source])?;
    }
    Ok(())
}
