//! Nets of what is asked of the block of a map: what the operation asks that commits.

ghost use Rattle.std.specs.Prelude.{ℕ, List, [], ◌∷◌, ◌++◌, ◌≡◌, ◌<◌, ◌≤◌, ◌^◌, false, All, length, get_or, map as map_list, IfOk, OnOk};
ghost use Rattle.overlay_net.specs.xdp_maps.declared.decl.MapDecl.{MapDecl};
ghost use Rattle.overlay_net.specs.xdp_maps.Contents.{IsBytes};
ghost use Rattle.overlay_net.specs.cell_core.Formed.{IsInside};
ghost use Rattle.overlay_net.specs.ValueNet.Words.{IsAligned};
ghost use Rattle.overlay_net.specs.hazard_core.Overlay.{value_as};
ghost use Rattle.overlay_net.specs.cell_core.Cells.{bit, bits_from};
ghost use Rattle.overlay_net.specs.cell_core.Sites.{ProgramView, site_at};
ghost use Rattle.overlay_net.specs.hazard_core.StageValues.{StageValues, is_delete, asked, asked_key};
ghost use Rattle.overlay_net.specs.hazard_core.Tables.{TableState, decl_of};
ghost use Rattle.overlay_net.specs.hazard_core.Commits.{word_at, word_count, written_slot, makes_entry};
ghost use Rattle.hash_net.specs.array_net.Words.{word_width};
ghost use Rattle.overlay_net.specs.cell_nets.Operands.{IsOperand, IsWide, number_in};
ghost use Rattle.overlay_net.specs.cell_nets.Wires.{wires_of, always, Gives};
ghost use Rattle.commit_net.specs.Choosing.{asked_of, changes_word, chosen_of, paired, picked, all_read, HasOperands, IsChosen, Commits};

use block_core::block::BlockWire;
use block_core::name::Name;
use hash_net::array_net::words::word_width;
use overlay_net::cell_nets::cell_core::site::Act;
use overlay_net::cell_nets::cell_core::xdp_state::xdp_maps::decl::MapDecl;
use overlay_net::cell_nets::operand::Operand;
use overlay_net::cell_nets::operand_blocks::wiring::named;
use overlay_net::cell_nets::phi::phi_wires;
use overlay_net::site_operands::SiteNets;
use std::alloc::{AllocError, Global};

/// What stands for the operation at a record site of a map: what it does, the cells of its site, whether it is the one that commits, the slot
/// that it writes, and whether it makes an entry there.
#[derive(Copy, Clone)]
pub struct CommitNets<'a, N> {
    pub act: Act,
    pub nets: &'a SiteNets<N>,
    pub chosen: Operand<N>,
    pub target: Operand<N>,
    pub makes: Operand<N>,
}

/// What is asked: the slot, whether an entry is put there or taken away, a word of its key, and whether a word of its value changes.
#[derive(Copy, Clone)]
pub enum Asked {
    Slot,
    Insert,
    Delete,
    Key(u32),
    Change(u32),
}

fn is_delete(act: Act) -> bool
    ensures { result ≡ is_delete act }
{
    matches!(act, Act::Delete)
}

/// Whether an operation changes a word of a value.
fn changes_word(act: Act, w: u32) -> bool
    ensures { result ≡ changes_word act w }
{
    match act {
        Act::Update => true,
        Act::Store(at, _) => at / 8 == w,
        Act::Atomic(at, _) => at / 8 == w,
        _ => false,
    }
}

fn word_of<N: Copy>(words: &[Operand<N>], w: u32) -> Operand<N>
    ensures { result ≡ get_or words.now w (Operand.Known 0) }
{
    let at = w as usize;
    if at < words.len() {
        words[at]
    } else {
        Operand::Known(0)
    }
}

/// What one operation asks.
fn wanted<N: Copy>(site: &CommitNets<'_, N>, what: Asked) -> Operand<N>
    ensures { result ≡ asked_of what site.now }
{
    match what {
        Asked::Slot => site.target,
        Asked::Insert => site.makes,
        Asked::Delete => {
            if is_delete(site.act) {
                Operand::Known(1)
            } else {
                Operand::Known(0)
            }
        }
        Asked::Key(w) => word_of(&site.nets.key, w),
        Asked::Change(w) => {
            if changes_word(site.act, w) {
                Operand::Known(1)
            } else {
                Operand::Known(0)
            }
        }
    }
}

fn all_asked<N: Copy>(
    alloc: Global,
    sites: &[CommitNets<'_, N>],
    what: Asked,
) -> Result<Vec<Operand<N>>, AllocError>
    ensures { IfOk result (λ r. r.items ≡ map_list (asked_of what) sites.now) }
{
    let mut all = Vec::new(alloc);
    for site in sites {
        all.push(wanted(site, what))?;
    }
    Ok(all)
}

/// Whether each operation commits, and what it gives, in pairs.
fn pairs<N: Copy>(
    alloc: Global,
    sites: &[CommitNets<'_, N>],
    values: &[Operand<N>],
) -> Result<Vec<Operand<N>>, AllocError>
    requires { length values.now ≡ length sites.now }
    ensures { IfOk result (λ r. r.items ≡ paired (chosen_of sites.now) values.now) }
{
    let mut all = Vec::new(alloc);
    for i in 0..values.len() {
        all.push(sites[i].chosen)?;
        all.push(values[i])?;
    }
    Ok(all)
}

/// Of several operands that of the operation that commits, in so many bits, as a net.
pub(crate) fn select<P: Copy>(
    alloc: Global,
    wires: &mut Vec<BlockWire<Name<P>>>,
    part: P,
    sites: &[CommitNets<'_, Name<P>>],
    values: &[Operand<Name<P>>],
    width: u8,
) -> Result<Name<P>, AllocError>
    requires count { length values.now ≡ length sites.now }
    requires chosen { All IsOperand (chosen_of sites.now) }
    requires values { All IsOperand values.now }
    requires width { IsWide width }
    ensures { IfOk result (λ n. Gives part (wires_of wires.old.items) (wires_of wires.new.items) (chosen_of sites.now ++ values.now) always (λ v. bits_from (picked sites.now values.now v) 0 width) width (Operand.Net n width)) }
{
    let all = pairs(alloc, sites, values)?;
    let out = phi_wires(alloc, wires, part, &all, width)?;
    let n = named(alloc, wires, part, out, width)?;
    Ok(n)
}

/// What the operation asks that commits.
fn asked_net<P: Copy>(
    alloc: Global,
    wires: &mut Vec<BlockWire<Name<P>>>,
    part: P,
    sites: &[CommitNets<'_, Name<P>>],
    what: Asked,
    width: u8,
) -> Result<Name<P>, AllocError>
    requires operands { All HasOperands sites.now }
    requires width { IsWide width }
    ensures { IfOk result (λ n. Gives part (wires_of wires.old.items) (wires_of wires.new.items) (all_read sites.now) always (λ v. bits_from (picked sites.now (map_list (asked_of what) sites.now) v) 0 width) width (Operand.Net n width)) }
{
    let values = all_asked(alloc, sites, what)?;
    let n = select(alloc, wires, part, sites, &values, width)?;
    Ok(n)
}

/// The slot that the operation writes that commits.
pub fn slot_net<P: Copy>(
    alloc: Global,
    wires: &mut Vec<BlockWire<Name<P>>>,
    part: P,
    bits: u8,
    sites: &[CommitNets<'_, Name<P>>],
) -> Result<Name<P>, AllocError>
    requires operands { All HasOperands sites.now }
    requires bits { IsWide bits }
    ensures { (p : ProgramView) (t : TableState) (taken : List ℕ) (h : StageValues) (j : ℕ) → IfOk result (λ n. Gives part (wires_of wires.old.items) (wires_of wires.new.items) (all_read sites.now)
        (λ v. Commits v p t taken h j sites.now × (written_slot p t taken h j < 2 ^ bits)) (λ v. written_slot p t taken h j) bits (Operand.Net n bits)) }
{
    let n = asked_net(alloc, wires, part, sites, Asked::Slot, bits)?;
    Ok(n)
}

/// Whether it puts an entry there.
pub fn insert_net<P: Copy>(
    alloc: Global,
    wires: &mut Vec<BlockWire<Name<P>>>,
    part: P,
    sites: &[CommitNets<'_, Name<P>>],
) -> Result<Name<P>, AllocError>
    requires { All HasOperands sites.now }
    ensures { (p : ProgramView) (t : TableState) (taken : List ℕ) (h : StageValues) (j : ℕ) → IfOk result (λ n. Gives part (wires_of wires.old.items) (wires_of wires.new.items) (all_read sites.now)
        (λ v. Commits v p t taken h j sites.now) (λ v. bit (makes_entry p t h j)) 1 (Operand.Net n 1)) }
{
    let n = asked_net(alloc, wires, part, sites, Asked::Insert, 1)?;
    Ok(n)
}

/// Whether it takes an entry away.
pub fn delete_net<P: Copy>(
    alloc: Global,
    wires: &mut Vec<BlockWire<Name<P>>>,
    part: P,
    sites: &[CommitNets<'_, Name<P>>],
) -> Result<Name<P>, AllocError>
    requires { All HasOperands sites.now }
    ensures { (p : ProgramView) (j : ℕ) → IfOk result (λ n. Gives part (wires_of wires.old.items) (wires_of wires.new.items) (all_read sites.now)
        (λ v. IsChosen v p j sites.now) (λ v. bit (is_delete (site_at p.sites j).act)) 1 (Operand.Net n 1)) }
{
    let n = asked_net(alloc, wires, part, sites, Asked::Delete, 1)?;
    Ok(n)
}

/// A word of the key of its operation.
pub fn key_net<P: Copy>(
    alloc: Global,
    wires: &mut Vec<BlockWire<Name<P>>>,
    part: P,
    decl: &MapDecl,
    sites: &[CommitNets<'_, Name<P>>],
    w: u32,
) -> Result<Name<P>, AllocError>
    requires operands { All HasOperands sites.now }
    requires most { decl.now.key ≤ 64 }
    requires there { w < word_count decl.now.key }
    ensures { (p : ProgramView) (t : TableState) (taken : List ℕ) (h : StageValues) (j : ℕ) → IfOk result (λ n. Gives part (wires_of wires.old.items) (wires_of wires.new.items) (all_read sites.now)
        (λ v. Commits v p t taken h j sites.now × (decl_of t.decls (site_at p.sites j).map ≡ decl.now) × (word_count decl.now.key ≤ length (site_at p.sites j).key))
        (λ v. word_at (asked_key t.decls h (site_at p.sites j)) w) (word_width decl.now.key w) (Operand.Net n (word_width decl.now.key w))) }
{
    let width = word_width(decl.key, w);
    let n = asked_net(alloc, wires, part, sites, Asked::Key(w), width)?;
    Ok(n)
}

/// Whether it changes a word of the value. One that it does not change stays as it is.
pub fn change_net<P: Copy>(
    alloc: Global,
    wires: &mut Vec<BlockWire<Name<P>>>,
    part: P,
    sites: &[CommitNets<'_, Name<P>>],
    w: u32,
) -> Result<Name<P>, AllocError>
    requires { All HasOperands sites.now }
    ensures gives { (p : ProgramView) (j : ℕ) → IfOk result (λ n. Gives part (wires_of wires.old.items) (wires_of wires.new.items) (all_read sites.now)
        (λ v. IsChosen v p j sites.now) (λ v. bit (changes_word (site_at p.sites j).act w)) 1 (Operand.Net n 1)) }
    ensures stays { (p : ProgramView) (decls : List MapDecl) (h : StageValues) (j : ℕ) (value : List ℕ) → let s = site_at p.sites j in
        changes_word s.act w ≡ false → IsAligned s.act → IsInside (decl_of decls s.map).value s.act → IsBytes (decl_of decls s.map).value value → word_at (value_as (asked decls h s) value) w ≡ word_at value w }
{
    let n = asked_net(alloc, wires, part, sites, Asked::Change(w), 1)?;
    Ok(n)
}
