//! What updates, deletes and lookups answer over a packet's earlier operations.

ghost use Rattle.std.specs.Prelude.{ℕ, ℤ, List, [], ◌∷◌, ◌++◌, ◌≡◌, ◌==◌, ◌+◌, ◌*◌, ◌^◌, ◌<◌, ◌≤◌, not, nat_le, All, length, slice_index, count_by, if◌then◌else◌, IfOk, OnOk, map as map_list};
ghost use Rattle.std.specs.Int.{w64, cast_unsigned};
ghost use Rattle.block_core.specs.net_core.Value.{Env};
ghost use Rattle.hazard_core.specs.xdp_maps.declared.decl.MapDecl.{MapDecl};
ghost use Rattle.hazard_core.specs.xdp_maps.declared.decl.MapKind.TheVariants as kind;
ghost use Rattle.hazard_core.specs.xdp_maps.Calls.{hash_refusal, array_refusal, number_of};
ghost use Rattle.hazard_core.specs.cell_core.declared.site.Act.TheVariants as act;
ghost use Rattle.hazard_core.specs.cell_core.Cells.{bit, on, bits_from, phi};
ghost use Rattle.hazard_core.specs.cell_core.Sites.{ProgramView, site_at};
ghost use Rattle.hazard_core.specs.Tables.{TableState, table_at, used_count};
ghost use Rattle.hazard_core.specs.StageValues.{StageValues, adds_key, takes_key};
ghost use Rattle.hazard_core.specs.Overlay.{answer_over};
ghost use Rattle.cell_nets.specs.Operands.{IsOperand, IsNarrow, IsWide, number_in};
ghost use Rattle.cell_nets.specs.Wires.{wires_of, always, HasBits, Gives};
ghost use Rattle.overlay_net.specs.SiteOperands.Sites.{operands_of, all_of, ShowsAsked};
ghost use Rattle.overlay_net.specs.Reading.{IsSite, ShowsKey};
ghost use Rattle.overlay_net.specs.Seen.{read_of, all_read, HasOperands, IsOf, ShowsPending, AreOf, ShowPending};

use crate::finding::operand_at;
use crate::site_operands::{Pending, SiteNets};
use crate::writing::{adds_key, takes_key};
use block_core::block::BlockWire;
use block_core::name::Name;
use cell_nets::cell_core::operator::Operator;
use cell_nets::cell_core::value::bits_from;
use cell_nets::cell_core::xdp_state::xdp_maps::decl::{MapDecl, MapKind};
use cell_nets::cell_core::xdp_state::xdp_maps::errno::{E2BIG, EEXIST, EINVAL, ENOENT};
use cell_nets::operand::Operand;
use cell_nets::operators::cell_wires;
use cell_nets::step_nets::{at_most, below, both, equal, sum};
use cell_nets::wires::cut;
use std::alloc::{AllocError, Global};

/// How many bits a number of keys has, with those that a packet adds to it or may take away.
const COUNT_BITS: u8 = 18;

/// A number and the keys that some operations bring, in its low bits.
fn keys_added<P: Copy>(
    alloc: Global,
    wires: &mut Vec<BlockWire<Name<P>>>,
    part: P,
    start: Operand<Name<P>>,
    pending: &[Pending<Name<P>>],
) -> Result<Operand<Name<P>>, AllocError>
    requires start { IsOperand start }
    requires pending { All HasOperands pending.now }
    ensures operand { IfOk result IsOperand }
    ensures bits { IfOk result (HasBits COUNT_BITS) }
    ensures given { (p : ProgramView) (t : TableState) (h : StageValues) (m : ℕ) (before : List ℕ) → AreOf p m before pending.now → IfOk result (Gives part (wires_of wires.old.items) (wires_of wires.new.items) (start ∷ all_read pending.now)
        (λ v. ShowPending v p t h before pending.now) (λ v. bits_from (number_in v start + count_by (adds_key p t.decls h) before) 0 COUNT_BITS) COUNT_BITS) }
{
    let mut count = cut(alloc, wires, part, start, 0, COUNT_BITS)?;
    for seen in pending {
        let more = adds_key(alloc, wires, part, seen.act, seen.nets, seen.writes)?;
        count = sum(alloc, wires, part, count, more, COUNT_BITS)?;
    }
    Ok(count)
}

/// The same with the keys that they take away.
fn keys_taken<P: Copy>(
    alloc: Global,
    wires: &mut Vec<BlockWire<Name<P>>>,
    part: P,
    start: Operand<Name<P>>,
    pending: &[Pending<Name<P>>],
) -> Result<Operand<Name<P>>, AllocError>
    requires start { IsOperand start }
    requires pending { All HasOperands pending.now }
    ensures operand { IfOk result IsOperand }
    ensures bits { IfOk result (HasBits COUNT_BITS) }
    ensures given { (p : ProgramView) (t : TableState) (h : StageValues) (m : ℕ) (before : List ℕ) → AreOf p m before pending.now → IfOk result (Gives part (wires_of wires.old.items) (wires_of wires.new.items) (start ∷ all_read pending.now)
        (λ v. ShowPending v p t h before pending.now) (λ v. bits_from (number_in v start + count_by (takes_key p t.decls h) before) 0 COUNT_BITS) COUNT_BITS) }
{
    let mut count = cut(alloc, wires, part, start, 0, COUNT_BITS)?;
    for seen in pending {
        let less = takes_key(alloc, wires, part, seen.act, seen.writes)?;
        count = sum(alloc, wires, part, count, less, COUNT_BITS)?;
    }
    Ok(count)
}

/// The number of an error, as it is answered.
fn error(number: i64) -> u64
    ensures { result ≡ cast_unsigned w64 number }
{
    number.cast_unsigned()
}

/// One pair more: a test, and the number that is the answer where it holds and none before it does.
fn add_pair<N: Copy>(
    pairs: &mut Vec<Operand<N>>,
    test: Operand<N>,
    number: u64,
) -> Result<(), AllocError>
    ensures { OnOk result (pairs.new.items ≡ pairs.old.items ++ test ∷ Operand.Known number ∷ []) }
{
    pairs.push(test)?;
    pairs.push(Operand::Known(number))?;
    Ok(())
}

/// The number of the first of several pairs whose test holds, or of the last, so many bits from one on.
fn first_number<P: Copy>(
    alloc: Global,
    wires: &mut Vec<BlockWire<Name<P>>>,
    part: P,
    pairs: &[Operand<Name<P>>],
    from: u8,
    width: u8,
) -> Result<Operand<Name<P>>, AllocError>
    requires pairs { All IsOperand pairs.now }
    requires from { from ≤ 63 }
    requires width { width ≤ 64 }
    ensures { IfOk result (Gives part (wires_of wires.old.items) (wires_of wires.new.items) pairs.now always (λ v. bits_from (phi (map_list (number_in v) pairs.now)) from width) width) }
{
    let out = cell_wires(alloc, wires, part, Operator::Phi, pairs, width, from)?;
    Ok(out)
}

/// What an update of a hash answers, by its flags, whether its key is there, and whether the table is full.
fn hash_answer<P: Copy>(
    alloc: Global,
    wires: &mut Vec<BlockWire<Name<P>>>,
    part: P,
    flags: Operand<Name<P>>,
    present: Operand<Name<P>>,
    full: Operand<Name<P>>,
    from: u8,
    width: u8,
) -> Result<Operand<Name<P>>, AllocError>
    requires flags { IsOperand flags }
    requires present { IsOperand present }
    requires full { IsOperand full }
    requires from { from ≤ 63 }
    requires width { width ≤ 64 }
    ensures { (cap used : ℕ) → IfOk result (Gives part (wires_of wires.old.items) (wires_of wires.new.items) (flags ∷ present ∷ full ∷ []) (λ v. number_in v full ≡ bit (nat_le cap used))
        (λ v. bits_from (cast_unsigned w64 (number_of (hash_refusal cap used (on (number_in v present)) (number_in v flags)))) from width) width) }
{
    let unknown = below(alloc, wires, part, Operand::Known(2), flags)?;
    let fresh = equal(alloc, wires, part, flags, Operand::Known(1))?;
    let exists = both(alloc, wires, part, fresh, present)?;
    let known = equal(alloc, wires, part, flags, Operand::Known(2))?;
    let mut pairs = Vec::new(alloc);
    let invalid = error(EINVAL);
    add_pair(&mut pairs, unknown, invalid)?;
    let there = error(EEXIST);
    add_pair(&mut pairs, exists, there)?;
    add_pair(&mut pairs, present, 0)?;
    let missing = error(ENOENT);
    add_pair(&mut pairs, known, missing)?;
    let crowded = error(E2BIG);
    add_pair(&mut pairs, full, crowded)?;
    add_pair(&mut pairs, Operand::Known(1), 0)?;
    let out = first_number(alloc, wires, part, &pairs, from, width)?;
    Ok(out)
}

/// What an update of an array answers, by its flags and its key, whose first four bytes are the index.
fn array_answer<P: Copy>(
    alloc: Global,
    wires: &mut Vec<BlockWire<Name<P>>>,
    part: P,
    cap: u32,
    flags: Operand<Name<P>>,
    key: &[Operand<Name<P>>],
    from: u8,
    width: u8,
) -> Result<Operand<Name<P>>, AllocError>
    requires flags { IsOperand flags }
    requires key { All IsOperand key.now }
    requires from { from ≤ 63 }
    requires width { width ≤ 64 }
    ensures { IfOk result (Gives part (wires_of wires.old.items) (wires_of wires.new.items) (flags ∷ key.now) always
        (λ v. bits_from (cast_unsigned w64 (number_of (array_refusal cap (bits_from (slice_index (map_list (number_in v) key.now) 0) 0 32) (number_in v flags)))) from width) width) }
{
    let first = operand_at(key, 0);
    let index = cut(alloc, wires, part, first, 0, 32)?;
    let unknown = below(alloc, wires, part, Operand::Known(2), flags)?;
    let outside = at_most(alloc, wires, part, Operand::Known(cap as u64), index)?;
    let fresh = equal(alloc, wires, part, flags, Operand::Known(1))?;
    let mut pairs = Vec::new(alloc);
    let invalid = error(EINVAL);
    add_pair(&mut pairs, unknown, invalid)?;
    let crowded = error(E2BIG);
    add_pair(&mut pairs, outside, crowded)?;
    let there = error(EEXIST);
    add_pair(&mut pairs, fresh, there)?;
    add_pair(&mut pairs, Operand::Known(1), 0)?;
    let out = first_number(alloc, wires, part, &pairs, from, width)?;
    Ok(out)
}

/// Whether a table has room for no key more: its keys and those that a packet adds are no fewer than what it has room for and those that it
/// takes away.
fn is_full<P: Copy>(
    alloc: Global,
    wires: &mut Vec<BlockWire<Name<P>>>,
    part: P,
    cap: u32,
    pending: &[Pending<Name<P>>],
    used: Operand<Name<P>>,
) -> Result<Operand<Name<P>>, AllocError>
    requires cap { cap ≤ 65536 }
    requires pending { All HasOperands pending.now }
    requires few { length pending.now < 65536 }
    requires used { IsOperand used }
    requires used_narrow { IsNarrow 17 used }
    ensures operand { IfOk result IsOperand }
    ensures bits { IfOk result (HasBits 1) }
    ensures given { (p : ProgramView) (t : TableState) (h : StageValues) (m : ℕ) (before : List ℕ) → AreOf p m before pending.now → IfOk result (Gives part (wires_of wires.old.items) (wires_of wires.new.items) (used ∷ all_read pending.now)
        (λ v. ShowPending v p t h before pending.now × (number_in v used ≡ used_count (table_at t m))) (λ v. bit (nat_le (cap + count_by (takes_key p t.decls h) before) (used_count (table_at t m) + count_by (adds_key p t.decls h) before))) 1) }
{
    let room = Operand::Known(cap as u64);
    let plus = keys_added(alloc, wires, part, used, pending)?;
    let room_plus = keys_taken(alloc, wires, part, room, pending)?;
    let full = at_most(alloc, wires, part, room_plus, plus)?;
    Ok(full)
}

/// What an update answers, so many bits from one on, by the entry under its key and the number of used slots.
pub fn update_answer<P: Copy>(
    alloc: Global,
    wires: &mut Vec<BlockWire<Name<P>>>,
    part: P,
    decl: &MapDecl,
    nets: &SiteNets<Name<P>>,
    pending: &[Pending<Name<P>>],
    key: Operand<Name<P>>,
    used: Operand<Name<P>>,
    from: u8,
    width: u8,
) -> Result<Operand<Name<P>>, AllocError>
    requires operands { All IsOperand (all_of (operands_of nets.now)) }
    requires pending { All HasOperands pending.now }
    requires few { length pending.now < 65536 }
    requires cap { decl.now.cap ≤ 65536 }
    requires index { decl.now.kind ≡ kind.Array → decl.now.key ≡ 4 }
    requires key { IsOperand key }
    requires used { IsOperand used }
    requires used_narrow { IsNarrow 17 used }
    requires from { from ≤ 63 }
    requires width { width ≤ 64 }
    ensures operand { IfOk result IsOperand }
    ensures bits { IfOk result (HasBits width) }
    ensures given { (p : ProgramView) (t : TableState) (h : StageValues) (before : List ℕ) (j : ℕ) → IsSite p t.decls j act.Update decl.now → AreOf p (site_at p.sites j).map before pending.now → IfOk result (Gives part (wires_of wires.old.items) (wires_of wires.new.items) (key ∷ used ∷ all_of (operands_of nets.now) ++ all_read pending.now)
        (λ v. ShowsAsked v p h j (operands_of nets.now) × ShowPending v p t h before pending.now × ShowsKey v p t h before j key × (number_in v used ≡ used_count (table_at t (site_at p.sites j).map)))
        (λ v. bits_from (answer_over p t h before j) from width) width) }
{
    let flags = operand_at(&nets.operands, 0);
    match decl.kind {
        MapKind::Hash => {
            let full = is_full(alloc, wires, part, decl.cap, pending, used)?;
            let out = hash_answer(alloc, wires, part, flags, key, full, from, width)?;
            Ok(out)
        }
        MapKind::Array => {
            let out = array_answer(alloc, wires, part, decl.cap, flags, &nets.key, from, width)?;
            Ok(out)
        }
    }
}

/// One number where a key is there, and another one where it is not, so many bits from one on.
fn by_presence<P: Copy>(
    alloc: Global,
    wires: &mut Vec<BlockWire<Name<P>>>,
    part: P,
    key: Operand<Name<P>>,
    there: u64,
    absent: u64,
    from: u8,
    width: u8,
) -> Result<Operand<Name<P>>, AllocError>
    requires key { IsOperand key }
    requires from { from ≤ 63 }
    requires width { width ≤ 64 }
    ensures { IfOk result (Gives part (wires_of wires.old.items) (wires_of wires.new.items) (key ∷ []) always (λ v. bits_from (if on (number_in v key) then there else absent) from width) width) }
{
    let mut pairs = Vec::new(alloc);
    add_pair(&mut pairs, key, there)?;
    add_pair(&mut pairs, Operand::Known(1), absent)?;
    let out = first_number(alloc, wires, part, &pairs, from, width)?;
    Ok(out)
}

/// What a delete answers, so many bits from one on, by the entry under its key.
pub fn delete_answer<P: Copy>(
    alloc: Global,
    wires: &mut Vec<BlockWire<Name<P>>>,
    part: P,
    decl: &MapDecl,
    key: Operand<Name<P>>,
    from: u8,
    width: u8,
) -> Result<Operand<Name<P>>, AllocError>
    requires key { IsOperand key }
    requires from { from ≤ 63 }
    requires width { width ≤ 64 }
    ensures operand { IfOk result IsOperand }
    ensures bits { IfOk result (HasBits width) }
    ensures given { (p : ProgramView) (t : TableState) (h : StageValues) (before : List ℕ) (j : ℕ) → IsSite p t.decls j act.Delete decl.now → IfOk result (Gives part (wires_of wires.old.items) (wires_of wires.new.items) (key ∷ [])
        (λ v. ShowsKey v p t h before j key) (λ v. bits_from (answer_over p t h before j) from width) width) }
{
    match decl.kind {
        MapKind::Hash => {
            let missing = error(ENOENT);
            let out = by_presence(alloc, wires, part, key, 0, missing, from, width)?;
            Ok(out)
        }
        MapKind::Array => Ok(Operand::Known(bits_from(error(EINVAL), from as u32, width as u32))),
    }
}

/// What a lookup answers, so many bits from one on: 1 where its key is there, else 0.
pub fn lookup_answer<P: Copy>(
    alloc: Global,
    wires: &mut Vec<BlockWire<Name<P>>>,
    part: P,
    key: Operand<Name<P>>,
    from: u8,
    width: u8,
) -> Result<Operand<Name<P>>, AllocError>
    requires key { IsOperand key }
    requires from { from ≤ 63 }
    requires width { width ≤ 64 }
    ensures operand { IfOk result IsOperand }
    ensures bits { IfOk result (HasBits width) }
    ensures given { (p : ProgramView) (t : TableState) (h : StageValues) (before : List ℕ) (j : ℕ) → (site_at p.sites j).act ≡ act.Lookup → IfOk result (Gives part (wires_of wires.old.items) (wires_of wires.new.items) (key ∷ [])
        (λ v. ShowsKey v p t h before j key) (λ v. bits_from (answer_over p t h before j) from width) width) }
{
    let out = by_presence(alloc, wires, part, key, 1, 0, from, width)?;
    Ok(out)
}
