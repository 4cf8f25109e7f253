//! Whether a change touches the read of a site.

ghost use Rattle.std.specs.Prelude.{ℕ, List, ◌++◌, true, ◌≡◌, ◌*◌, ◌≤◌, All, length, IfOk};
ghost use Rattle.overlay_net.specs.xdp_maps.declared.decl.MapDecl.{MapDecl};
ghost use Rattle.overlay_net.specs.cell_core.Acts.{finds_key};
ghost use Rattle.overlay_net.specs.cell_core.Cells.{bit};
ghost use Rattle.overlay_net.specs.cell_core.Sites.{ProgramView, site_at};
ghost use Rattle.pipe_core.specs.hazard_core.StageValues.{StageValues, access_pointer};
ghost use Rattle.pipe_core.specs.hazard_core.declared.change.Change.{Change};
ghost use Rattle.pipe_core.specs.hazard_core.Marks.{touches};
ghost use Rattle.overlay_net.specs.cell_nets.Operands.{IsOperand};
ghost use Rattle.overlay_net.specs.cell_nets.Wires.{wires_of, HasBits, Gives};
ghost use Rattle.overlay_net.specs.SiteOperands.Sites.{operands_of, all_of, ShowsSite};
ghost use Rattle.overlay_net.specs.Reading.{IsSite};
ghost use Rattle.read_net.specs.TouchNet.Touching.{change_operands, own_operands, IsChangeNets, IsOwnKey, HaveKeys, ShowsChange, ShowsOwn, IsMade, reads_entry};

use crate::touch_net::change::{ChangeNets, OwnKey};
use crate::touch_net::entry::entry_touched;
use crate::touch_net::key::presence_touched;
use block_core::block::BlockWire;
use block_core::name::Name;
use overlay_net::cell_nets::cell_core::site::Act;
use overlay_net::cell_nets::cell_core::xdp_state::xdp_maps::decl::MapDecl;
use overlay_net::cell_nets::operand::Operand;
use overlay_net::site_operands::SiteNets;
use std::alloc::{AllocError, Global};

/// Whether an operation reads the entry that its pointer is to.
fn reads_entry(act: Act) -> bool
    ensures { result ≡ reads_entry act }
{
    match act {
        Act::Load(..) => true,
        Act::Atomic(_, atomic) => atomic.fetch,
        _ => false,
    }
}

/// Whether it looks for its key.
fn finds_key(act: Act) -> bool
    ensures { result ≡ finds_key act }
{
    matches!(act, Act::Lookup | Act::Update | Act::Delete)
}

/// Whether a change of the map of a site touches what it reads: 1 or 0, for whatever packet the operands show.
pub fn touches<P: Copy>(
    alloc: Global,
    wires: &mut Vec<BlockWire<Name<P>>>,
    part: P,
    act: Act,
    decl: &MapDecl,
    nets: &SiteNets<Name<P>>,
    owns: &[OwnKey<Name<P>>],
    change: &ChangeNets<Name<P>>,
) -> Result<Operand<Name<P>>, AllocError>
    requires operands { All IsOperand (all_of (operands_of nets.now)) }
    requires words { decl.now.key ≤ 8 * length nets.now.key.items }
    requires owns { All (IsOwnKey decl.now.key) owns.now }
    requires change { IsChangeNets decl.now.key change.now }
    ensures operand { IfOk result IsOperand }
    ensures bits { IfOk result (HasBits 1) }
    ensures given { (p : ProgramView) (decls : List MapDecl) (h : StageValues) (j : ℕ) (e : Change) → IsSite p decls j act decl.now → (site_at p.sites j).map ≡ e.map → HaveKeys p decls decl.now.key owns.now → IfOk result (Gives part (wires_of wires.old.items) (wires_of wires.new.items)
        (all_of (operands_of nets.now) ++ (change_operands change.now ++ own_operands owns.now))
        (λ v. ShowsSite v p h j (operands_of nets.now) × ShowsChange v decl.now.key e change.now × ShowsOwn v p h owns.now × (reads_entry act ≡ true → IsMade p decls decl.now.key (access_pointer h (site_at p.sites j)) owns.now)) (λ v. bit (touches p decls h j e)) 1) }
{
    if reads_entry(act) {
        let out = entry_touched(alloc, wires, part, decl.key, nets.pointer, owns, change)?;
        return Ok(out);
    }
    if finds_key(act) {
        let out = presence_touched(alloc, wires, part, act, decl, nets, change)?;
        return Ok(out);
    }
    Ok(Operand::Known(0))
}
