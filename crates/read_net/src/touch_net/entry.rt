//! Whether a change touches the entry that a pointer is to.

ghost use Rattle.std.specs.Prelude.{ℕ, List, [], ◌∷◌, ◌++◌, ◌≡◌, ◌==◌, ◌&&◌, ◌+◌, ◌*◌, ◌/◌, ◌≤◌, All, length, if◌then◌else◌, IfOk, map as map_list};
ghost use Rattle.std.specs.Str.{bytes_eq};
ghost use Rattle.overlay_net.specs.xdp_maps.declared.decl.MapDecl.{MapDecl};
ghost use Rattle.overlay_net.specs.cell_core.Cells.{bit, on, bits_from};
ghost use Rattle.overlay_net.specs.cell_core.Sites.{ProgramView, bytes_of};
ghost use Rattle.pipe_core.specs.hazard_core.declared.pointer.Pointer.{Pointer};
ghost use Rattle.pipe_core.specs.hazard_core.StageValues.{StageValues};
ghost use Rattle.pipe_core.specs.hazard_core.declared.change.Change.{Change};
ghost use Rattle.pipe_core.specs.hazard_core.Marks.{entry_touched};
ghost use Rattle.overlay_net.specs.cell_nets.Operands.{IsOperand, number_in};
ghost use Rattle.overlay_net.specs.cell_nets.Wires.{wires_of, always, HasBits, Gives};
ghost use Rattle.overlay_net.specs.SiteOperands.Pointers.{pointer_number};
ghost use Rattle.read_net.specs.TouchNet.Touching.{change_operands, own_operands, IsChangeNets, IsOwnKey, HaveKeys, ShowsChange, ShowsOwn, IsMade};

use crate::touch_net::change::{ChangeNets, OwnKey};
use block_core::block::BlockWire;
use block_core::name::Name;
use overlay_net::cell_nets::comparing::span;
use overlay_net::cell_nets::operand::Operand;
use overlay_net::cell_nets::step_nets::{both, choose, equal};
use overlay_net::cell_nets::wires::cut;
use overlay_net::keys::same_key;
use std::alloc::{AllocError, Global};

/// Whether a pointer, by its number, is to a slot: the low bit is 1 of no other pointer.
fn in_slot<P: Copy>(
    alloc: Global,
    wires: &mut Vec<BlockWire<Name<P>>>,
    part: P,
    pointer: Operand<Name<P>>,
    slot: Operand<Name<P>>,
) -> Result<Operand<Name<P>>, AllocError>
    requires pointer { IsOperand pointer }
    requires slot { IsOperand slot }
    ensures { IfOk result (Gives part (wires_of wires.old.items) (wires_of wires.new.items) (pointer ∷ slot ∷ []) always (λ v. bit (on (bits_from (number_in v pointer) 0 1) && (number_in v pointer / 4 == number_in v slot))) 1) }
{
    let bits = span(pointer).max(3) - 2;
    let some = cut(alloc, wires, part, pointer, 0, 1)?;
    let index = cut(alloc, wires, part, pointer, 2, bits)?;
    let same = equal(alloc, wires, part, index, slot)?;
    let out = both(alloc, wires, part, some, same)?;
    Ok(out)
}

/// Where a pointer is to the entry of an own update, whether the key of this is another one; else another bit.
fn where_own<P: Copy>(
    alloc: Global,
    wires: &mut Vec<BlockWire<Name<P>>>,
    part: P,
    bytes: u32,
    pointer: Operand<Name<P>>,
    own: &OwnKey<Name<P>>,
    key: &[Operand<Name<P>>],
    other: Operand<Name<P>>,
) -> Result<Operand<Name<P>>, AllocError>
    requires pointer { IsOperand pointer }
    requires own { IsOwnKey bytes own.now }
    requires key { All IsOperand key.now }
    requires words { bytes ≤ 8 * length key.now }
    requires other { IsOperand other }
    ensures { IfOk result (Gives part (wires_of wires.old.items) (wires_of wires.new.items) (pointer ∷ other ∷ own.now.key.now ++ key.now) always
        (λ v. bits_from (if number_in v pointer == 4 * own.now.site + 2 then bit (bytes_eq (bytes_of bytes (map_list (number_in v) own.now.key.now)) (bytes_of bytes (map_list (number_in v) key.now))) else number_in v other) 0 1) 1) }
{
    let number = Operand::Known(4 * (own.site as u64) + 2);
    let made = equal(alloc, wires, part, pointer, number)?;
    let same = same_key(alloc, wires, part, bytes, own.key, key)?;
    let out = choose(alloc, wires, part, made, same, other, 1)?;
    Ok(out)
}

/// Whether a change touches the entry that a pointer is to: that in the slot of the change, or one that an update of its key is to make.
pub(crate) fn entry_touched<P: Copy>(
    alloc: Global,
    wires: &mut Vec<BlockWire<Name<P>>>,
    part: P,
    bytes: u32,
    pointer: Operand<Name<P>>,
    owns: &[OwnKey<Name<P>>],
    change: &ChangeNets<Name<P>>,
) -> Result<Operand<Name<P>>, AllocError>
    requires pointer { IsOperand pointer }
    requires owns { All (IsOwnKey bytes) owns.now }
    requires change { IsChangeNets bytes change.now }
    ensures operand { IfOk result IsOperand }
    ensures bits { IfOk result (HasBits 1) }
    ensures given { (p : ProgramView) (decls : List MapDecl) (h : StageValues) (e : Change) (q : Pointer) → HaveKeys p decls bytes owns.now → IfOk result (Gives part (wires_of wires.old.items) (wires_of wires.new.items) (pointer ∷ change_operands change.now ++ own_operands owns.now)
        (λ v. (number_in v pointer ≡ pointer_number q) × ShowsChange v bytes e change.now × ShowsOwn v p h owns.now × IsMade p decls bytes q owns.now) (λ v. bit (entry_touched p decls h e q)) 1) }
{
    let mut touched = in_slot(alloc, wires, part, pointer, change.slot)?;
    for own in owns {
        touched = where_own(alloc, wires, part, bytes, pointer, own, change.key, touched)?;
    }
    Ok(touched)
}
