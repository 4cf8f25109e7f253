//! The cells that come from outside with a packet.

ghost use Rattle.std.specs.Prelude.{ℕ, ◌≡◌, ◌≤◌, ◌<◌, List, [], ◌∷◌, All, Contains, IfOk, length, get_or, map as map_list};
ghost use Rattle.beat_core.specs.Ports.{Arrival};
ghost use Rattle.overlay_net.specs.cell_core.Cells.{number, bits_from};
ghost use Rattle.overlay_net.specs.cell_core.Formed.{AreFormed};
ghost use Rattle.overlay_net.specs.cell_core.View.{cell_of};
ghost use Rattle.cell_nets.specs.Operands.{IsOperand, IsWide, number_in};
ghost use Rattle.cell_nets.specs.Wires.{wires_of, always, Gives};
ghost use Rattle.frame_net.specs.Gather.{kept_width};
ghost use Rattle.row_net.specs.Table.{IsTable};
ghost use Rattle.row_net.specs.PlaceNet.Sources.{IsShown, IsSource, IsSourced, IsShownIn, source_operands, packet_in};
ghost use Rattle.row_net.specs.PlaceNet.SourceNets.{IsKeptNet, GivesNumber};

use block_core::block::BlockWire;
use block_core::name::{Name, Part};
use cell_nets::cell_core::cell::Cell;
use cell_nets::cell_core::operator::Operator;
use cell_nets::operand::Operand;
use cell_nets::wires::cut;
use frame_net::{Kept, kept_name, length_name};
use std::alloc::{AllocError, Global};

// Where something stands among what is kept.
fn place_of(kept: &[Kept], what: Kept) -> u32
    requires few { length kept.now ≤ 255 }
    requires listed { Contains kept.now what }
    ensures within { result < length kept.now }
    ensures here { get_or kept.now result what ≡ what }
{
    for (i, x) in kept.iter().enumerate() {
        if *x == what {
            return i as u32;
        }
    }
    unreachable!()
}

// The net that shows something that is kept, of as many bits as it has.
fn kept_net<P: Part>(sources: P, kept: &[Kept], what: Kept, width: u8) -> Operand<Name<P>>
    requires few { length kept.now ≤ 255 }
    requires listed { Contains kept.now what }
    requires width { width ≡ kept_width what }
    ensures { IsKeptNet sources kept.now what result }
{
    let number = place_of(kept, what);
    Operand::Net(kept_name(sources, number), width)
}

// The net of an operator's number, or the bits of one.
fn number<P: Part>(
    alloc: Global,
    wires: &mut Vec<BlockWire<Name<P>>>,
    part: P,
    sources: P,
    kept: &[Kept],
    op: Operator,
) -> Result<Operand<Name<P>>, AllocError>
    requires few { length kept.now ≤ 255 }
    requires shown { IsShown kept.now op }
    ensures { IfOk result (GivesNumber part sources kept.now op (wires_of wires.old.items) (wires_of wires.new.items)) }
{
    match op {
        Operator::Byte(i) => {
            let word = kept_net(sources, kept, Kept::Word((i / 8) as u8), 64);
            let byte = cut(alloc, wires, part, word, 8 * (i % 8) as u8, 8)?;
            Ok(byte)
        }
        Operator::Length => Ok(Operand::Net(length_name(sources), 14)),
        Operator::Ifindex => Ok(kept_net(sources, kept, Kept::Ifindex, 32)),
        Operator::Time => Ok(kept_net(sources, kept, Kept::Time, 64)),
        _ => unreachable!(),
    }
}

// One cell that comes with a packet.
fn one_source<P: Part>(
    alloc: Global,
    wires: &mut Vec<BlockWire<Name<P>>>,
    part: P,
    sources: P,
    kept: &[Kept],
    cell: &Cell,
) -> Result<Operand<Name<P>>, AllocError>
    requires few { length kept.now ≤ 255 }
    requires shown { IsShown kept.now cell.now.op }
    requires from { cell.now.from ≤ 63 }
    requires width { IsWide cell.now.width }
    ensures { (a : Arrival) → IfOk result (Gives part (wires_of wires.old.items) (wires_of wires.new.items) (source_operands sources kept.now) (λ v. IsShownIn sources kept.now v a) (λ v. bits_from (number (packet_in a) cell.now.op []) cell.now.from cell.now.width) cell.now.width) }
{
    let number = number(alloc, wires, part, sources, kept, cell.op)?;
    let out = cut(
        alloc,
        wires,
        part,
        number,
        cell.from as u8,
        cell.width as u8,
    )?;
    Ok(out)
}

/// Makes wires for cells that come with a packet, after those that a place has, from the nets that show its frame in the part of
/// sources, and says in the table what stands for each.
pub fn source_cells<P: Part>(
    alloc: Global,
    wires: &mut Vec<BlockWire<Name<P>>>,
    part: P,
    sources: P,
    kept: &[Kept],
    cells: &[Cell],
    listed: &[u32],
    table: &mut Vec<Option<Operand<Name<P>>>>,
) -> Result<(), AllocError>
    requires formed { AreFormed (map_list cell_of cells.now) }
    requires table { IsTable (map_list cell_of cells.now) table.old.items }
    requires few { length kept.now ≤ 255 }
    requires listed { All (IsSource kept.now (map_list cell_of cells.now)) listed.now }
    ensures { IfOk result (λ done. IsSourced part sources kept.now (map_list cell_of cells.now) listed.now (wires_of wires.old.items) (wires_of wires.new.items) table.old.items table.new.items) }
{
    for number in listed {
        let cell = &cells[*number as usize];
        let operand = one_source(alloc, wires, part, sources, kept, cell)?;
        table[*number as usize] = Some(operand);
    }
    Ok(())
}
