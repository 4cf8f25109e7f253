//! What a site reads, whatever it does.

ghost use Rattle.std.specs.Prelude.{ℕ, ◌≡◌, true, ◌*◌, ◌<◌, ◌≤◌, All, length, IfOk};
ghost use Rattle.hazard_core.specs.cell_core.Sites.{ProgramView};
ghost use Rattle.hazard_core.specs.StageValues.{StageValues};
ghost use Rattle.hazard_core.specs.Tables.{TableState};
ghost use Rattle.overlay_net.specs.cell_nets.Operands.{IsOperand};
ghost use Rattle.overlay_net.specs.cell_nets.Wires.{wires_of, HasBits};
ghost use Rattle.overlay_net.specs.ValueNet.Words.{IsAligned, answers_number};
ghost use Rattle.read_net.specs.Sites.{cells_of, IsMap, IsWhole};
ghost use Rattle.read_net.specs.Reads.{IsReadOf};
ghost use Rattle.read_net.specs.Accesses.{IsFitting, HaveOperands};
ghost use Rattle.stage_net.specs.Reads.{HasEntry, SiteReads};

use block_core::block::BlockWire;
use block_core::name::Name;
use hazard_core::cell_core::site::Act;
use overlay_net::cell_nets::operand::Operand;
use read_net::accesses::access;
use read_net::lookups::lookup;
use read_net::sites::{MapNets, OwnSite, ReadNets};
use read_net::updates::{delete, update};
use std::alloc::{AllocError, Global};

// What a load or an atomic change reads: it looks for no key.
fn access_reads<P: Copy>(
    alloc: Global,
    wires: &mut Vec<BlockWire<Name<P>>>,
    part: P,
    map: &MapNets<'_, Name<P>>,
    site: &OwnSite<'_, Name<P>>,
    earlier: &[OwnSite<'_, Name<P>>],
    slot: Operand<Name<P>>,
    word: Operand<Name<P>>,
    from: u8,
    width: u8,
) -> Result<ReadNets<Name<P>>, AllocError>
    requires map { IsMap map.now }
    requires number { answers_number site.now.act ≡ true }
    requires aligned { IsAligned site.now.act }
    requires operands { All IsOperand (cells_of site.now) }
    requires earlier { All (IsWhole map.now) earlier.now }
    requires fitting { All (IsFitting map.now) earlier.now }
    requires slot { IsOperand slot }
    requires bits { HasBits map.now.bits slot }
    requires word { IsOperand word }
    requires from { from ≤ 63 }
    requires width { width ≤ 64 }
    ensures { (p : ProgramView) (t : TableState) (h : StageValues) (row : ℕ → ℕ) (r : ℕ) → IsReadOf p t row r map.now site.now earlier.now → HaveOperands p earlier.now → HasEntry p t h site.now
        → IfOk result (SiteReads part (wires_of wires.old.items) (wires_of wires.new.items) map.now site.now earlier.now slot word from width p t h row r) }
{
    let answer = access(alloc, wires, part, map, site, earlier, word, from, width)?;
    Ok(ReadNets {
        found: Operand::Known(0),
        there: Operand::Known(0),
        answer,
    })
}

/// What a site reads: what it finds under its key, and so many bits, from one on, of what it answers. What its operation does not read is the number 0.
/// `slot` is the slot of the table under the key that it looks for, `word` the word of the table under the pointer of an access.
pub(crate) fn site_reads<P: Copy>(
    alloc: Global,
    wires: &mut Vec<BlockWire<Name<P>>>,
    part: P,
    map: &MapNets<'_, Name<P>>,
    site: &OwnSite<'_, Name<P>>,
    earlier: &[OwnSite<'_, Name<P>>],
    slot: Operand<Name<P>>,
    word: Operand<Name<P>>,
    from: u8,
    width: u8,
) -> Result<ReadNets<Name<P>>, AllocError>
    requires map { IsMap map.now }
    requires aligned { IsAligned site.now.act }
    requires operands { All IsOperand (cells_of site.now) }
    requires key { map.now.decl.now.key ≤ 8 * length site.now.nets.now.key.items }
    requires earlier { All (IsWhole map.now) earlier.now }
    requires fitting { All (IsFitting map.now) earlier.now }
    requires few { length earlier.now < 65536 }
    requires slot { IsOperand slot }
    requires bits { HasBits map.now.bits slot }
    requires word { IsOperand word }
    requires from { from ≤ 63 }
    requires width { width ≤ 64 }
    ensures { (p : ProgramView) (t : TableState) (h : StageValues) (row : ℕ → ℕ) (r : ℕ) → IsReadOf p t row r map.now site.now earlier.now → HaveOperands p earlier.now → HasEntry p t h site.now
        → IfOk result (SiteReads part (wires_of wires.old.items) (wires_of wires.new.items) map.now site.now earlier.now slot word from width p t h row r) }
{
    match site.act {
        Act::Lookup => lookup(alloc, wires, part, map, site, earlier, slot, from, width),
        Act::Update => update(alloc, wires, part, map, site, earlier, slot, from, width),
        Act::Delete => delete(alloc, wires, part, map, site, earlier, slot, from, width),
        Act::Load(..) => access_reads(
            alloc, wires, part, map, site, earlier, slot, word, from, width,
        ),
        Act::Atomic(..) => access_reads(
            alloc, wires, part, map, site, earlier, slot, word, from, width,
        ),
        Act::Store(..) => Ok(ReadNets {
            found: Operand::Known(0),
            there: Operand::Known(0),
            answer: Operand::Known(0),
        }),
    }
}
