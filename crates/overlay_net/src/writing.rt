//! Whether an operation of a packet writes, which entry it writes, and whether it brings a key or takes one away.

ghost use Rattle.std.specs.Prelude.{ℕ, List, [], ◌∷◌, ◌≡◌, ◌+◌, ◌*◌, ◌^◌, ◌<◌, All, IfOk};
ghost use Rattle.hazard_core.specs.xdp_maps.declared.decl.MapDecl.{MapDecl};
ghost use Rattle.hazard_core.specs.xdp_maps.declared.decl.MapKind.TheVariants as kind;
ghost use Rattle.hazard_core.specs.cell_core.declared.site.Act.TheVariants as does;
ghost use Rattle.hazard_core.specs.cell_core.Cells.{bit};
ghost use Rattle.hazard_core.specs.cell_core.Sites.{ProgramView, site_at};
ghost use Rattle.hazard_core.specs.Tables.{TableState};
ghost use Rattle.hazard_core.specs.StageValues.{StageValues, writes, written_pointer, adds_key, takes_key};
ghost use Rattle.cell_nets.specs.Operands.{IsOperand, IsNarrow, IsWide, number_in};
ghost use Rattle.cell_nets.specs.Wires.{wires_of, HasBits, Gives};
ghost use Rattle.overlay_net.specs.SiteOperands.Pointers.{pointer_number};
ghost use Rattle.overlay_net.specs.SiteOperands.Sites.{operands_of, all_of, ShowsSite};
ghost use Rattle.overlay_net.specs.Reading.{IsSite, ShowsSlot};

use crate::site_operands::SiteNets;
use block_core::block::BlockWire;
use block_core::name::Name;
use cell_nets::cell_core::site::Act;
use cell_nets::cell_core::xdp_state::xdp_maps::decl::{MapDecl, MapKind};
use cell_nets::operand::Operand;
use cell_nets::step_nets::{choose, truth, without};
use cell_nets::wires::cut;
use std::alloc::{AllocError, Global};

/// Whether the operation at a site writes: 1 or 0, by its guard and by what it answered.
pub fn writes<P: Copy>(
    alloc: Global,
    wires: &mut Vec<BlockWire<Name<P>>>,
    part: P,
    act: Act,
    decl: &MapDecl,
    nets: &SiteNets<Name<P>>,
) -> Result<Operand<Name<P>>, AllocError>
    requires { All IsOperand (all_of (operands_of nets.now)) }
    ensures operand { IfOk result IsOperand }
    ensures bits { IfOk result (HasBits 1) }
    ensures given { (p : ProgramView) (decls : List MapDecl) (h : StageValues) (j : ℕ) → IsSite p decls j act decl.now → IfOk result (Gives part (wires_of wires.old.items) (wires_of wires.new.items) (all_of (operands_of nets.now)) (λ v. ShowsSite v p h j (operands_of nets.now)) (λ v. bit (writes p decls h j)) 1) }
{
    match act {
        Act::Update => {
            let out = without(alloc, wires, part, nets.guard, nets.answer)?;
            Ok(out)
        }
        Act::Delete => match decl.kind {
            MapKind::Hash => {
                let out = without(alloc, wires, part, nets.guard, nets.answer)?;
                Ok(out)
            }
            MapKind::Array => Ok(Operand::Known(0)),
        },
        _ => {
            if !act.records() {
                return Ok(Operand::Known(0));
            }
            let out = truth(alloc, wires, part, nets.guard)?;
            Ok(out)
        }
    }
}

/// The number of the pointer of the entry that the operation at a site writes, in so many bits. An update of an array takes the slot of its key.
pub fn written_pointer<P: Copy>(
    alloc: Global,
    wires: &mut Vec<BlockWire<Name<P>>>,
    part: P,
    bits: u8,
    number: u32,
    act: Act,
    decl: &MapDecl,
    nets: &SiteNets<Name<P>>,
    slot: Operand<Name<P>>,
) -> Result<Operand<Name<P>>, AllocError>
    requires operands { All IsOperand (all_of (operands_of nets.now)) }
    requires slot_operand { IsOperand slot }
    requires bits { IsWide bits }
    requires number { 4 * number + 2 < 2 ^ bits }
    requires found { IsNarrow bits nets.now.found }
    requires pointer { IsNarrow bits nets.now.pointer }
    requires slot { IsNarrow bits slot }
    ensures operand { IfOk result IsOperand }
    ensures bits { IfOk result (HasBits bits) }
    ensures given { (p : ProgramView) (t : TableState) (h : StageValues) → IsSite p t.decls number act decl.now → IfOk result (Gives part (wires_of wires.old.items) (wires_of wires.new.items) (slot ∷ all_of (operands_of nets.now)) (λ v. ShowsSite v p h number (operands_of nets.now) × (act ≡ does.Update → decl.now.kind ≡ kind.Array → ShowsSlot v p t h number slot)) (λ v. pointer_number (written_pointer p t h number)) bits) }
{
    match act {
        Act::Update => match decl.kind {
            MapKind::Hash => {
                let new = Operand::Known(4 * (number as u64) + 2);
                let out = choose(alloc, wires, part, nets.found, nets.found, new, bits)?;
                Ok(out)
            }
            MapKind::Array => {
                let out = cut(alloc, wires, part, slot, 0, bits)?;
                Ok(out)
            }
        },
        Act::Delete => {
            let out = cut(alloc, wires, part, nets.found, 0, bits)?;
            Ok(out)
        }
        _ => {
            let out = cut(alloc, wires, part, nets.pointer, 0, bits)?;
            Ok(out)
        }
    }
}

/// Whether it brings a key, by whether it writes.
pub fn adds_key<P: Copy>(
    alloc: Global,
    wires: &mut Vec<BlockWire<Name<P>>>,
    part: P,
    act: Act,
    nets: &SiteNets<Name<P>>,
    wrote: Operand<Name<P>>,
) -> Result<Operand<Name<P>>, AllocError>
    requires operands { All IsOperand (all_of (operands_of nets.now)) }
    requires wrote { IsOperand wrote }
    ensures operand { IfOk result IsOperand }
    ensures bits { IfOk result (HasBits 1) }
    ensures given { (p : ProgramView) (decls : List MapDecl) (h : StageValues) (j : ℕ) → (site_at p.sites j).act ≡ act → IfOk result (Gives part (wires_of wires.old.items) (wires_of wires.new.items) (wrote ∷ all_of (operands_of nets.now)) (λ v. ShowsSite v p h j (operands_of nets.now) × (number_in v wrote ≡ bit (writes p decls h j))) (λ v. bit (adds_key p decls h j)) 1) }
{
    match act {
        Act::Update => {
            let out = without(alloc, wires, part, wrote, nets.found)?;
            Ok(out)
        }
        _ => Ok(Operand::Known(0)),
    }
}

/// Whether it takes one away.
pub fn takes_key<P: Copy>(
    alloc: Global,
    wires: &mut Vec<BlockWire<Name<P>>>,
    part: P,
    act: Act,
    wrote: Operand<Name<P>>,
) -> Result<Operand<Name<P>>, AllocError>
    requires { IsOperand wrote }
    ensures operand { IfOk result IsOperand }
    ensures bits { IfOk result (HasBits 1) }
    ensures given { (p : ProgramView) (decls : List MapDecl) (h : StageValues) (j : ℕ) → (site_at p.sites j).act ≡ act → IfOk result (Gives part (wires_of wires.old.items) (wires_of wires.new.items) (wrote ∷ []) (λ v. number_in v wrote ≡ bit (writes p decls h j)) (λ v. bit (takes_key p decls h j)) 1) }
{
    match act {
        Act::Delete => {
            let out = truth(alloc, wires, part, wrote)?;
            Ok(out)
        }
        _ => Ok(Operand::Known(0)),
    }
}
