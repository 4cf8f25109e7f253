//! Operands that stand for the key of a change.

ghost use Rattle.std.specs.Prelude.{◌∷◌, ◌++◌, ◌≡◌, ◌≤◌, ◌*◌, All, length, IfOk};
ghost use Rattle.overlay_net.specs.xdp_maps.Contents.{IsWithinLimits};
ghost use Rattle.overlay_net.specs.cell_nets.declared.operand.Operand.{Operand};
ghost use Rattle.overlay_net.specs.cell_nets.Operands.{IsOperand};
ghost use Rattle.overlay_net.specs.cell_nets.Wires.{wires_of, always, Gives};
ghost use Rattle.overlay_net.specs.cell_nets.StepNets.Standing.{Stands};
ghost use Rattle.commit_net.specs.Choosing.{all_read, HasOperands};
ghost use Rattle.commit_net.specs.ChangeNet.Pointed.{word_operands};
ghost use Rattle.commit_net.specs.ChangeNet.Written.{key_count};
ghost use Rattle.commit_net.specs.ChangeNet.Changes.{owns_key, key_by, key_pairs, key_value, AreKeys, ShowKeys};

use crate::choosing::CommitNets;
use block_core::block::BlockWire;
use block_core::name::Name;
use overlay_net::cell_nets::cell_core::site::Act;
use overlay_net::cell_nets::cell_core::xdp_state::xdp_maps::decl::{MapDecl, MapKind};
use overlay_net::cell_nets::operand::Operand;
use overlay_net::cell_nets::phi::phi_wires;
use overlay_net::cell_nets::step_nets::choose;
use std::alloc::{AllocError, Global};

// Whether the key of the change is that of the operation, and not the one that stands in the slot.
fn owns_key(act: Act) -> bool
    ensures { result ≡ owns_key act }
{
    matches!(act, Act::Update | Act::Delete)
}

// What stands for a word of the key, where this operation commits.
fn key_by<N: Copy>(site: &CommitNets<'_, N>, w: usize, there: Operand<N>) -> Operand<N>
    ensures { result ≡ key_by w there site.now }
{
    if !owns_key(site.act) {
        return there;
    }
    let key = &site.nets.key;
    if w < key.len() {
        key[w]
    } else {
        Operand::Known(0)
    }
}

// Whether each operation commits, and its word, in pairs.
fn key_pairs<N: Copy>(
    alloc: Global,
    sites: &[CommitNets<'_, N>],
    w: usize,
    there: Operand<N>,
) -> Result<Vec<Operand<N>>, AllocError>
    ensures { IfOk result (λ r. r.items ≡ key_pairs w there sites.now) }
{
    let mut all = Vec::new(alloc);
    for site in sites {
        all.push(site.chosen)?;
        all.push(key_by(site, w, there))?;
    }
    Ok(all)
}

// A word of the key of the change, by what stands for the word in the slot.
fn key_word<P: Copy>(
    alloc: Global,
    wires: &mut Vec<BlockWire<Name<P>>>,
    part: P,
    sites: &[CommitNets<'_, Name<P>>],
    commits: Operand<Name<P>>,
    w: usize,
    there: Operand<Name<P>>,
) -> Result<Operand<Name<P>>, AllocError>
    requires operands { All HasOperands sites.now }
    requires commits { IsOperand commits }
    requires there { IsOperand there }
    ensures { IfOk result (Gives part (wires_of wires.old.items) (wires_of wires.new.items) (commits ∷ there ∷ all_read sites.now) always (λ v. key_value v sites.now commits w there) 64) }
{
    let all = key_pairs(alloc, sites, w, there)?;
    let own = phi_wires(alloc, wires, part, &all, 64)?;
    let out = choose(alloc, wires, part, commits, own, there, 64)?;
    Ok(out)
}

// The words of the key of the change, by nets that show those in the slot.
fn key_words<P: Copy>(
    alloc: Global,
    wires: &mut Vec<BlockWire<Name<P>>>,
    part: P,
    sites: &[CommitNets<'_, Name<P>>],
    commits: Operand<Name<P>>,
    keys: &[Name<P>],
) -> Result<Vec<Operand<Name<P>>>, AllocError>
    requires operands { All HasOperands sites.now }
    requires commits { IsOperand commits }
    ensures { IfOk result (λ r. AreKeys part (wires_of wires.old.items) (wires_of wires.new.items) sites.now commits keys.now r.items) }
{
    let mut words = Vec::new(alloc);
    for w in 0..keys.len() {
        let there = Operand::Net(keys[w], 64);
        let word = key_word(alloc, wires, part, sites, commits, w, there)?;
        words.push(word)?;
    }
    Ok(words)
}

/// What stands for the words of the key of the change: of an array the number of its slot.
pub(crate) fn change_key<P: Copy>(
    alloc: Global,
    wires: &mut Vec<BlockWire<Name<P>>>,
    part: P,
    decl: &MapDecl,
    sites: &[CommitNets<'_, Name<P>>],
    commits: Operand<Name<P>>,
    slot: Operand<Name<P>>,
    keys: &[Name<P>],
) -> Result<Vec<Operand<Name<P>>>, AllocError>
    requires operands { All HasOperands sites.now }
    requires commits { IsOperand commits }
    requires slot { IsOperand slot }
    requires limits { IsWithinLimits decl.now }
    requires keys { length keys.now ≡ key_count decl.now }
    ensures operands { IfOk result (λ r. All IsOperand r.items) }
    ensures count { IfOk result (λ r. decl.now.key ≤ 8 * length r.items) }
    ensures stands { IfOk result (λ r. Stands part (wires_of wires.old.items) (wires_of wires.new.items) (commits ∷ slot ∷ word_operands keys.now ++ all_read sites.now) always r.items (λ v. ShowKeys v decl.now sites.now commits slot keys.now r.items)) }
{
    match decl.kind {
        MapKind::Hash => {
            let words = key_words(alloc, wires, part, sites, commits, keys)?;
            Ok(words)
        }
        MapKind::Array => {
            let mut one = Vec::new(alloc);
            one.push(slot)?;
            Ok(one)
        }
    }
}
