//! Whether a read under a key sees that a key comes or goes.

ghost use Rattle.std.specs.Prelude.{ℕ, List, [], ◌∷◌, ◌++◌, true, ◌≡◌, ◌*◌, ◌≤◌, ◌&&◌, ◌||◌, not, nat_lt, All, length, slice_index, IfOk, map as map_list};
ghost use Rattle.block_core.specs.net_core.Value.{Env};
ghost use Rattle.overlay_net.specs.xdp_maps.declared.decl.MapDecl.{MapDecl};
ghost use Rattle.overlay_net.specs.cell_core.Acts.{finds_key};
ghost use Rattle.overlay_net.specs.cell_core.Cells.{bit, on};
ghost use Rattle.overlay_net.specs.cell_core.Sites.{ProgramView, site_at, bytes_of, operation_with};
ghost use Rattle.pipe_core.specs.hazard_core.StageValues.{StageValues, asked, is_null, pointer_in, found_cell};
ghost use Rattle.pipe_core.specs.hazard_core.declared.change.Change.{Change};
ghost use Rattle.pipe_core.specs.hazard_core.Marks.{key_touched, presence_touched};
ghost use Rattle.pipe_core.specs.hazard_core.Tables.{decl_of};
ghost use Rattle.overlay_net.specs.cell_nets.Operands.{IsOperand, IsAvailable, number_in};
ghost use Rattle.overlay_net.specs.cell_nets.Wires.{wires_of, always, HasBits, Gives};
ghost use Rattle.overlay_net.specs.SiteOperands.Sites.{operands_of, all_of, ShowsSite};
ghost use Rattle.overlay_net.specs.Reading.{IsSite};
ghost use Rattle.read_net.specs.TouchNet.Touching.{change_operands, IsChangeNets, ShowsChange};

use crate::touch_net::change::ChangeNets;
use crate::touch_net::steps::either;
use block_core::block::BlockWire;
use block_core::name::Name;
use overlay_net::cell_nets::cell_core::site::Act;
use overlay_net::cell_nets::cell_core::xdp_state::xdp_maps::decl::{MapDecl, MapKind};
use overlay_net::cell_nets::operand::Operand;
use overlay_net::cell_nets::step_nets::{below, both, without};
use overlay_net::keys::same_key;
use overlay_net::site_operands::SiteNets;
use std::alloc::{AllocError, Global};

/// The first of several operands, 0 where there is none.
fn first_operand<N: Copy>(operands: &[Operand<N>]) -> Operand<N>
    requires { All IsOperand operands.now }
    ensures operand { IsOperand result }
    ensures there { (ins : List (Operand N)) → All (IsAvailable ins) operands.now → IsAvailable ins result }
    ensures number { (v : Env N) → number_in v result ≡ slice_index (map_list (number_in v) operands.now) 0 }
{
    if operands.len() > 0 {
        operands[0]
    } else {
        Operand::Known(0)
    }
}

/// Whether an update with these flags sees that a key comes or goes, having found its own or not: its own key does, or another one, if it
/// may bring a key, since that changes the number of keys. With flags that no one knows it does not look.
fn update_touched<P: Copy>(
    alloc: Global,
    wires: &mut Vec<BlockWire<Name<P>>>,
    part: P,
    flags: Operand<Name<P>>,
    found: Operand<Name<P>>,
    same: Operand<Name<P>>,
) -> Result<Operand<Name<P>>, AllocError>
    requires flags { IsOperand flags }
    requires found { IsOperand found }
    requires same { IsOperand same }
    ensures { IfOk result (Gives part (wires_of wires.old.items) (wires_of wires.new.items) (flags ∷ found ∷ same ∷ []) always
        (λ v. bit (not (nat_lt 2 (number_in v flags)) && (on (number_in v same) || (nat_lt (number_in v flags) 2 && not (on (number_in v found)))))) 1) }
{
    let brings = below(alloc, wires, part, flags, Operand::Known(2))?;
    let grows = without(alloc, wires, part, brings, found)?;
    let seen = either(alloc, wires, part, same, grows)?;
    let unknown = below(alloc, wires, part, Operand::Known(2), flags)?;
    let out = without(alloc, wires, part, seen, unknown)?;
    Ok(out)
}

/// Whether an operation that looks for its key sees that a key comes or goes.
fn key_touched<P: Copy>(
    alloc: Global,
    wires: &mut Vec<BlockWire<Name<P>>>,
    part: P,
    act: Act,
    decl: &MapDecl,
    nets: &SiteNets<Name<P>>,
    key: &[Operand<Name<P>>],
) -> Result<Operand<Name<P>>, AllocError>
    requires finds { finds_key act ≡ true }
    requires operands { All IsOperand (all_of (operands_of nets.now)) }
    requires words { decl.now.key ≤ 8 * length nets.now.key.items }
    requires key { All IsOperand key.now }
    requires key_words { decl.now.key ≤ 8 * length key.now }
    ensures { IfOk result (Gives part (wires_of wires.old.items) (wires_of wires.new.items) (all_of (operands_of nets.now) ++ key.now) always
        (λ v. bit (key_touched (operation_with decl.now act (map_list (number_in v) nets.now.key.items) (map_list (number_in v) nets.now.operands.items)) (on (number_in v nets.now.found)) (bytes_of decl.now.key (map_list (number_in v) key.now)))) 1) }
{
    let same = same_key(alloc, wires, part, decl.key, &nets.key, key)?;
    match act {
        Act::Update => {
            let flags = first_operand(&nets.operands);
            let out = update_touched(alloc, wires, part, flags, nets.found, same)?;
            Ok(out)
        }
        _ => Ok(same),
    }
}

/// Whether a change touches what a site finds under its key. The keys of an array neither come nor go.
pub(crate) fn presence_touched<P: Copy>(
    alloc: Global,
    wires: &mut Vec<BlockWire<Name<P>>>,
    part: P,
    act: Act,
    decl: &MapDecl,
    nets: &SiteNets<Name<P>>,
    change: &ChangeNets<Name<P>>,
) -> Result<Operand<Name<P>>, AllocError>
    requires finds { finds_key act ≡ true }
    requires operands { All IsOperand (all_of (operands_of nets.now)) }
    requires words { decl.now.key ≤ 8 * length nets.now.key.items }
    requires change { IsChangeNets decl.now.key change.now }
    ensures operand { IfOk result IsOperand }
    ensures bits { IfOk result (HasBits 1) }
    ensures given { (p : ProgramView) (decls : List MapDecl) (h : StageValues) (j : ℕ) (e : Change) → IsSite p decls j act decl.now → IfOk result (Gives part (wires_of wires.old.items) (wires_of wires.new.items) (all_of (operands_of nets.now) ++ change_operands change.now)
        (λ v. ShowsSite v p h j (operands_of nets.now) × ShowsChange v decl.now.key e change.now)
        (λ v. bit (presence_touched (decl_of decls (site_at p.sites j).map).kind (asked decls h (site_at p.sites j)) (not (is_null (pointer_in h (found_cell p.cells j)))) e)) 1) }
{
    match decl.kind {
        MapKind::Array => Ok(Operand::Known(0)),
        MapKind::Hash => {
            let seen = key_touched(alloc, wires, part, act, decl, nets, change.key)?;
            let out = both(alloc, wires, part, change.presence, seen)?;
            Ok(out)
        }
    }
}
