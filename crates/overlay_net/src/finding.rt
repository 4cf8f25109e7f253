//! Where a key is found over a packet's earlier operations.

ghost use Rattle.std.specs.Prelude.{ℕ, List, ◌∷◌, ◌++◌, ◌≡◌, ◌&&◌, ◌*◌, ◌≤◌, All, length, slice_index, if◌then◌else◌, IfOk, map as map_list};
ghost use Rattle.std.specs.Str.{bytes_eq};
ghost use Rattle.block_core.specs.net_core.Value.{Env};
ghost use Rattle.hazard_core.specs.cell_core.Cells.{on};
ghost use Rattle.hazard_core.specs.cell_core.Sites.{ProgramView, site_at, bytes_of};
ghost use Rattle.hazard_core.specs.Tables.{TableState, decl_of};
ghost use Rattle.hazard_core.specs.declared.pointer.Pointer.{Pointer};
ghost use Rattle.hazard_core.specs.StageValues.{StageValues};
ghost use Rattle.hazard_core.specs.Overlay.{found_over, key_pointer, found_pointer};
ghost use Rattle.cell_nets.specs.Operands.{IsOperand, IsNarrow, IsWide, IsAvailable, number_in};
ghost use Rattle.cell_nets.specs.Wires.{wires_of, always, HasBits, Gives};
ghost use Rattle.overlay_net.specs.SiteOperands.Pointers.{pointer_number};
ghost use Rattle.overlay_net.specs.SiteOperands.Sites.{operands_of, all_of, ShowsAsked};
ghost use Rattle.overlay_net.specs.Reading.{IsSite, ShowsSlot, ShowsKey};
ghost use Rattle.overlay_net.specs.Seen.{read_of, all_read, IsSeen, IsOf, ShowsPending, AreOf, ShowPending};

use crate::keys::same_key;
use crate::site_operands::{Pending, SiteNets};
use block_core::block::BlockWire;
use block_core::name::Name;
use cell_nets::cell_core::site::Act;
use cell_nets::cell_core::xdp_state::xdp_maps::decl::{MapDecl, MapKind};
use cell_nets::operand::Operand;
use cell_nets::step_nets::{below, both, choose};
use cell_nets::wires::cut;
use std::alloc::{AllocError, Global};

/// A pointer in place of another one where an operation wrote under a key.
fn moved<P: Copy>(
    alloc: Global,
    wires: &mut Vec<BlockWire<Name<P>>>,
    part: P,
    bits: u8,
    bytes: u32,
    key: &[Operand<Name<P>>],
    seen: &Pending<Name<P>>,
    new: Operand<Name<P>>,
    found: Operand<Name<P>>,
) -> Result<Operand<Name<P>>, AllocError>
    requires bits { IsWide bits }
    requires key { All IsOperand key.now }
    requires words { bytes ≤ 8 * length key.now }
    requires seen { IsSeen bytes bits seen.now }
    requires new { IsOperand new }
    requires new_narrow { IsNarrow bits new }
    requires found { IsOperand found }
    requires found_narrow { IsNarrow bits found }
    ensures { IfOk result (Gives part (wires_of wires.old.items) (wires_of wires.new.items) (new ∷ found ∷ read_of seen.now ++ key.now) always
        (λ v. if on (number_in v seen.now.writes) && bytes_eq (bytes_of bytes (map_list (number_in v) seen.now.nets.now.key.items)) (bytes_of bytes (map_list (number_in v) key.now)) then number_in v new else number_in v found) bits) }
{
    let same = same_key(alloc, wires, part, bytes, &seen.nets.key, key)?;
    let hit = both(alloc, wires, part, seen.writes, same)?;
    let out = choose(alloc, wires, part, hit, new, found, bits)?;
    Ok(out)
}

/// Where a key is found over one operation: an update of it wrote its entry there, and a delete took it away.
fn found_over<P: Copy>(
    alloc: Global,
    wires: &mut Vec<BlockWire<Name<P>>>,
    part: P,
    bits: u8,
    bytes: u32,
    key: &[Operand<Name<P>>],
    seen: &Pending<Name<P>>,
    found: Operand<Name<P>>,
) -> Result<Operand<Name<P>>, AllocError>
    requires bits { IsWide bits }
    requires key { All IsOperand key.now }
    requires words { bytes ≤ 8 * length key.now }
    requires seen { IsSeen bytes bits seen.now }
    requires found { IsOperand found }
    requires found_bits { HasBits bits found }
    ensures operand { IfOk result IsOperand }
    ensures bits { IfOk result (HasBits bits) }
    ensures given { (p : ProgramView) (t : TableState) (h : StageValues) (m i : ℕ) (own : List ℕ) (f : Pointer) → IsOf p m i seen.now → (decl_of t.decls m).key ≡ bytes → IfOk result (Gives part (wires_of wires.old.items) (wires_of wires.new.items) (found ∷ read_of seen.now ++ key.now)
        (λ v. ShowsPending v p t h i seen.now × (bytes_of bytes (map_list (number_in v) key.now) ≡ own) × (number_in v found ≡ pointer_number f)) (λ v. pointer_number (found_over p t h own f i)) bits) }
{
    match seen.act {
        Act::Update => {
            let out = moved(
                alloc,
                wires,
                part,
                bits,
                bytes,
                key,
                seen,
                seen.written,
                found,
            )?;
            Ok(out)
        }
        Act::Delete => {
            let gone = Operand::Known(0);
            let out = moved(alloc, wires, part, bits, bytes, key, seen, gone, found)?;
            Ok(out)
        }
        _ => Ok(found),
    }
}

/// The number of the pointer of the entry under the key of a site over a packet's operations at some sites, one after another, from the slot
/// of the key in its table on. The keys of an array are always there.
pub fn key_pointer<P: Copy>(
    alloc: Global,
    wires: &mut Vec<BlockWire<Name<P>>>,
    part: P,
    bits: u8,
    decl: &MapDecl,
    nets: &SiteNets<Name<P>>,
    pending: &[Pending<Name<P>>],
    slot: Operand<Name<P>>,
) -> Result<Operand<Name<P>>, AllocError>
    requires bits { IsWide bits }
    requires operands { All IsOperand (all_of (operands_of nets.now)) }
    requires words { decl.now.key ≤ 8 * length nets.now.key.items }
    requires pending { All (IsSeen decl.now.key bits) pending.now }
    requires slot { IsOperand slot }
    requires slot_narrow { IsNarrow bits slot }
    ensures operand { IfOk result IsOperand }
    ensures bits { IfOk result (HasBits bits) }
    ensures given { (p : ProgramView) (t : TableState) (h : StageValues) (before : List ℕ) (j : ℕ) → decl_of t.decls (site_at p.sites j).map ≡ decl.now → AreOf p (site_at p.sites j).map before pending.now → IfOk result (Gives part (wires_of wires.old.items) (wires_of wires.new.items) (slot ∷ all_of (operands_of nets.now) ++ all_read pending.now)
        (λ v. ShowsAsked v p h j (operands_of nets.now) × ShowsSlot v p t h j slot × ShowPending v p t h before pending.now) (λ v. pointer_number (key_pointer p t h before j)) bits) }
{
    let mut found = cut(alloc, wires, part, slot, 0, bits)?;
    match decl.kind {
        MapKind::Array => Ok(found),
        MapKind::Hash => {
            for seen in pending {
                found = found_over(alloc, wires, part, bits, decl.key, &nets.key, seen, found)?;
            }
            Ok(found)
        }
    }
}

/// One of several operands by its number, 0 past the last.
pub(crate) fn operand_at<N: Copy>(operands: &[Operand<N>], at: usize) -> Operand<N>
    requires { All IsOperand operands.now }
    ensures operand { IsOperand result }
    ensures there { (ins : List (Operand N)) → All (IsAvailable ins) operands.now → IsAvailable ins result }
    ensures number { (v : Env N) → number_in v result ≡ slice_index (map_list (number_in v) operands.now) at }
{
    if at < operands.len() {
        operands[at]
    } else {
        Operand::Known(0)
    }
}

/// What a site finds, by the entry under its key: an update with flags that no one knows does not look.
pub fn found_pointer<P: Copy>(
    alloc: Global,
    wires: &mut Vec<BlockWire<Name<P>>>,
    part: P,
    bits: u8,
    act: Act,
    nets: &SiteNets<Name<P>>,
    key: Operand<Name<P>>,
) -> Result<Operand<Name<P>>, AllocError>
    requires bits { IsWide bits }
    requires operands { All IsOperand (all_of (operands_of nets.now)) }
    requires key { IsOperand key }
    requires key_narrow { IsNarrow bits key }
    ensures operand { IfOk result IsOperand }
    ensures bits { IfOk result (HasBits bits) }
    ensures given { (p : ProgramView) (t : TableState) (h : StageValues) (before : List ℕ) (j : ℕ) → (site_at p.sites j).act ≡ act → IfOk result (Gives part (wires_of wires.old.items) (wires_of wires.new.items) (key ∷ all_of (operands_of nets.now))
        (λ v. ShowsAsked v p h j (operands_of nets.now) × ShowsKey v p t h before j key) (λ v. pointer_number (found_pointer p t h before j)) bits) }
{
    match act {
        Act::Update => {
            let flags = operand_at(&nets.operands, 0);
            let unknown = below(alloc, wires, part, Operand::Known(2), flags)?;
            let none = Operand::Known(0);
            let out = choose(alloc, wires, part, unknown, none, key, bits)?;
            Ok(out)
        }
        _ => {
            let out = cut(alloc, wires, part, key, 0, bits)?;
            Ok(out)
        }
    }
}
