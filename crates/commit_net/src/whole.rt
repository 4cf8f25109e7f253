//! What is asked of the block of a map, whole: parts of wires alone, one that gives the slot that is written, and after it one that gives the words.

ghost use Rattle.std.specs.Prelude.{ℕ, List, ◌++◌, ◌≡◌, ◌≤◌, All, length, IfOk};
ghost use Rattle.block_core.specs.View.{block_of};
ghost use Rattle.overlay_net.specs.xdp_maps.Contents.{IsBytes};
ghost use Rattle.overlay_net.specs.cell_core.Sites.{ProgramView, site_at};
ghost use Rattle.overlay_net.specs.hazard_core.StageValues.{StageValues, asked, asked_key};
ghost use Rattle.overlay_net.specs.hazard_core.Overlay.{value_as};
ghost use Rattle.overlay_net.specs.hazard_core.Tables.{TableState, decl_of};
ghost use Rattle.overlay_net.specs.hazard_core.Commits.{word_count};
ghost use Rattle.overlay_net.specs.cell_nets.Operands.{IsWide};
ghost use Rattle.overlay_net.specs.cell_nets.Wires.{wires_of};
ghost use Rattle.commit_net.specs.Choosing.{all_read, changes_word, HasOperands, Commits};
ghost use Rattle.commit_net.specs.Words.{IsFitting};
ghost use Rattle.overlay_net.specs.cell_nets.StepNets.Standing.{Stands};
ghost use Rattle.commit_net.specs.Wiring.{outside_of, ShowsValue, key_operands, value_operands, ShowWords, ShowChanges};
ghost use Rattle.commit_net.specs.Wholes.{IsSlotPart, IsHashCommit, IsArrayCommit};

use crate::choosing::{CommitNets, change_net, delete_net, insert_net, key_net, slot_net};
use crate::words::word_net;
use block_core::block::{Block, BlockWire};
use block_core::name::{Name, Part};
use hash_net::HashNets;
use hash_net::array_net::MapNets;
use hash_net::array_net::words::{WordNets, word_count};
use overlay_net::cell_nets::cell_core::xdp_state::xdp_maps::decl::MapDecl;
use overlay_net::cell_nets::operand::Operand;
use overlay_net::cell_nets::operand_blocks::wiring::wiring;
use std::alloc::{AllocError, Global};

/// A part that gives the slot that the operation writes that commits, and its net.
#[derive(Drop)]
pub struct SlotPart<N: Drop> {
    pub block: Block<N>,
    pub slot: N,
}

/// A part that gives what a commit asks of a hash: its block, and the nets that the block of the hash takes.
#[derive(Drop)]
pub struct HashCommit<N: Drop> {
    pub block: Block<N>,
    pub nets: HashNets<N>,
    pub keys: Vec<N>,
    pub values: Vec<WordNets<N>>,
}

/// A part that gives what a commit asks of an array.
#[derive(Drop)]
pub struct ArrayCommit<N: Drop> {
    pub block: Block<N>,
    pub values: Vec<WordNets<N>>,
}

// The words of the key of the operation that commits.
fn key_nets<P: Part>(
    alloc: Global,
    wires: &mut Vec<BlockWire<Name<P>>>,
    part: P,
    decl: &MapDecl,
    sites: &[CommitNets<'_, Name<P>>],
) -> Result<Vec<Name<P>>, AllocError>
    requires operands { All HasOperands sites.now }
    requires most { decl.now.key ≤ 64 }
    ensures count { IfOk result (λ r. length r.items ≡ word_count decl.now.key) }
    ensures stands { (p : ProgramView) (t : TableState) (taken : List ℕ) (h : StageValues) (j : ℕ) → IfOk result (λ r. Stands part (wires_of wires.old.items) (wires_of wires.new.items) (all_read sites.now)
        (λ v. Commits v p t taken h j sites.now × (decl_of t.decls (site_at p.sites j).map ≡ decl.now) × (word_count decl.now.key ≤ length (site_at p.sites j).key)) (key_operands decl.now.key 0 r.items ++ all_read sites.now)
        (λ v. ShowWords v 0 r.items (asked_key t.decls h (site_at p.sites j)))) }
{
    let mut keys = Vec::new(alloc);
    for w in 0..word_count(decl.key) {
        keys.push(key_net(alloc, wires, part, decl, sites, w)?)?;
    }
    Ok(keys)
}

// The words of the value that it leaves, and which of them it changes.
fn value_nets<P: Part>(
    alloc: Global,
    wires: &mut Vec<BlockWire<Name<P>>>,
    part: P,
    decl: &MapDecl,
    sites: &[CommitNets<'_, Name<P>>],
    words: &[Name<P>],
) -> Result<Vec<WordNets<Name<P>>>, AllocError>
    requires operands { All HasOperands sites.now }
    requires fitting { All (IsFitting decl.now) sites.now }
    requires few { decl.now.value ≤ 64 }
    requires words { length words.now ≡ word_count decl.now.value }
    ensures count { IfOk result (λ r. length r.items ≡ word_count decl.now.value) }
    ensures stands { (p : ProgramView) (t : TableState) (taken : List ℕ) (h : StageValues) (j : ℕ) (value : List ℕ) → IfOk result (λ r. Stands part (wires_of wires.old.items) (wires_of wires.new.items) (outside_of sites.now words.now)
        (λ v. Commits v p t taken h j sites.now × (decl_of t.decls (site_at p.sites j).map ≡ decl.now) × IsBytes decl.now.value value × ShowsValue v words.now value) (value_operands decl.now.value 0 r.items ++ outside_of sites.now words.now)
        (λ v. ShowChanges v (changes_word (site_at p.sites j).act) 0 r.items (value_as (asked t.decls h (site_at p.sites j)) value))) }
{
    let mut values = Vec::new(alloc);
    for w in 0..word_count(decl.value) {
        let old = Operand::Net(words[w as usize], 64);
        let sets = change_net(alloc, wires, part, sites, w)?;
        let word = word_net(alloc, wires, part, decl, sites, w, old)?;
        values.push(WordNets { sets, word })?;
    }
    Ok(values)
}

/// The part that gives the slot that the operation writes that commits, in so many bits. What stands there is fetched after it.
pub fn commit_slot<P: Part>(
    alloc: Global,
    part: P,
    bits: u8,
    sites: &[CommitNets<'_, Name<P>>],
) -> Result<SlotPart<Name<P>>, AllocError>
    requires operands { All HasOperands sites.now }
    requires bits { IsWide bits }
    ensures { IfOk result (λ r. IsSlotPart part bits sites.now r.slot (block_of r.block)) }
{
    let mut wires = Vec::new(alloc);
    let slot = slot_net(alloc, &mut wires, part, bits, sites)?;
    let block = wiring(alloc, wires)?;
    Ok(SlotPart { block, slot })
}

/// The part that gives what a commit asks of a hash, by nets of 64 bits that show the words of the value that stands in the slot: whether an entry is
/// put there or taken away, the words of its key, and those of its value that change. Whether an operation commits, the slot, and what the host does
/// are nets of other parts.
pub fn commit_hash<P: Part>(
    alloc: Global,
    part: P,
    decl: &MapDecl,
    sites: &[CommitNets<'_, Name<P>>],
    words: &[Name<P>],
    map: MapNets<Name<P>>,
    idle: Name<P>,
) -> Result<HashCommit<Name<P>>, AllocError>
    requires operands { All HasOperands sites.now }
    requires fitting { All (IsFitting decl.now) sites.now }
    requires key { decl.now.key ≤ 64 }
    requires value { decl.now.value ≤ 64 }
    requires words { length words.now ≡ word_count decl.now.value }
    ensures map { IfOk result (λ r. r.nets.map ≡ map) }
    ensures idle { IfOk result (λ r. r.nets.idle ≡ idle) }
    ensures asks { (bits : ℕ) → IfOk result (λ r. IsHashCommit part decl.now bits sites.now words.now r.nets r.keys.items r.values.items (block_of r.block)) }
{
    let mut wires = Vec::new(alloc);
    let inserts = insert_net(alloc, &mut wires, part, sites)?;
    let deletes = delete_net(alloc, &mut wires, part, sites)?;
    let keys = key_nets(alloc, &mut wires, part, decl, sites)?;
    let values = value_nets(alloc, &mut wires, part, decl, sites, words)?;
    let block = wiring(alloc, wires)?;
    Ok(HashCommit {
        block,
        nets: HashNets {
            map,
            idle,
            inserts,
            deletes,
        },
        keys,
        values,
    })
}

/// The part that gives what a commit asks of an array: the words of the value that change.
pub fn commit_array<P: Part>(
    alloc: Global,
    part: P,
    decl: &MapDecl,
    sites: &[CommitNets<'_, Name<P>>],
    words: &[Name<P>],
) -> Result<ArrayCommit<Name<P>>, AllocError>
    requires operands { All HasOperands sites.now }
    requires fitting { All (IsFitting decl.now) sites.now }
    requires value { decl.now.value ≤ 64 }
    requires words { length words.now ≡ word_count decl.now.value }
    ensures { IfOk result (λ r. IsArrayCommit part decl.now sites.now words.now r.values.items (block_of r.block)) }
{
    let mut wires = Vec::new(alloc);
    let values = value_nets(alloc, &mut wires, part, decl, sites, words)?;
    let block = wiring(alloc, wires)?;
    Ok(ArrayCommit { block, values })
}
