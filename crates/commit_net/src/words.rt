//! Words of the value that the operation leaves that commits.

ghost use Rattle.std.specs.Prelude.{ℕ, List, ◌∷◌, ◌≡◌, ◌<◌, ◌≤◌, All, IfOk};
ghost use Rattle.overlay_net.specs.xdp_maps.Contents.{IsBytes};
ghost use Rattle.overlay_net.specs.cell_core.Sites.{ProgramView, site_at};
ghost use Rattle.overlay_net.specs.hazard_core.StageValues.{StageValues, asked};
ghost use Rattle.overlay_net.specs.hazard_core.Overlay.{value_as};
ghost use Rattle.overlay_net.specs.hazard_core.Tables.{TableState, decl_of};
ghost use Rattle.overlay_net.specs.hazard_core.Commits.{word_at, word_count};
ghost use Rattle.hash_net.specs.array_net.Words.{word_width};
ghost use Rattle.overlay_net.specs.cell_nets.Operands.{IsOperand, number_in};
ghost use Rattle.overlay_net.specs.cell_nets.Wires.{wires_of, HasBits, Gives};
ghost use Rattle.commit_net.specs.Choosing.{all_read, HasOperands, Commits};
ghost use Rattle.commit_net.specs.Words.{IsFitting};

use crate::choosing::{CommitNets, select};
use block_core::block::BlockWire;
use block_core::name::Name;
use hash_net::array_net::words::word_width;
use overlay_net::cell_nets::cell_core::xdp_state::xdp_maps::decl::MapDecl;
use overlay_net::cell_nets::operand::Operand;
use overlay_net::value_net::following::word_after;
use std::alloc::{AllocError, Global};

/// A word of the value that the operation leaves that commits, by the word that it finds.
pub fn word_net<P: Copy>(
    alloc: Global,
    wires: &mut Vec<BlockWire<Name<P>>>,
    part: P,
    decl: &MapDecl,
    sites: &[CommitNets<'_, Name<P>>],
    w: u32,
    old: Operand<Name<P>>,
) -> Result<Name<P>, AllocError>
    requires operands { All HasOperands sites.now }
    requires fitting { All (IsFitting decl.now) sites.now }
    requires old { IsOperand old }
    requires word { HasBits 64 old }
    requires few { decl.now.value ≤ 64 }
    requires there { w < word_count decl.now.value }
    ensures { (p : ProgramView) (t : TableState) (taken : List ℕ) (h : StageValues) (j : ℕ) (value : List ℕ) → IfOk result (λ n. Gives part (wires_of wires.old.items) (wires_of wires.new.items) (old ∷ all_read sites.now)
        (λ v. Commits v p t taken h j sites.now × (decl_of t.decls (site_at p.sites j).map ≡ decl.now) × IsBytes decl.now.value value × (number_in v old ≡ word_at value w))
        (λ v. word_at (value_as (asked t.decls h (site_at p.sites j)) value) w) (word_width decl.now.value w) (Operand.Net n (word_width decl.now.value w))) }
{
    let mut all = Vec::new(alloc);
    for site in sites {
        let word = word_after(alloc, wires, part, site.act, decl, site.nets, w, old)?;
        all.push(word)?;
    }
    let width = word_width(decl.value, w);
    let n = select(alloc, wires, part, sites, &all, width)?;
    Ok(n)
}
