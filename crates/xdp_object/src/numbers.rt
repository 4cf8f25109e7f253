//! Instructions with the numbers of their maps, and where they refer to one.

ghost use Rattle.std.specs.Prelude.{◌≡◌, ◌<◌, ◌^◌, ◌==◌, length, map as map_list, position, IfOk, IfSome};
ghost use Rattle.bpf_isa.specs.Text.{unit_count};
ghost use Rattle.xdp_object.specs.Maps.{map_number, with_low, with_numbers};
ghost use Rattle.xdp_object.specs.Relocations.{Reference, references};

use crate::relocated::Relocated;
use bpf_isa::Insn;
use std::alloc::{AllocError, Global};

/// The number of the map of this symbol.
fn number_of(symbols: &[u32], symbol: u32) -> Option<usize>
    ensures { result ≡ position (λ m. m == symbol) symbols.now }
{
    symbols.iter().position(|m| *m == symbol)
}

/// The number of the map that a place refers to, by the symbols of the maps.
fn map_number(symbols: &[u32], said: Relocated) -> Option<usize>
    ensures { result ≡ map_number symbols.now said }
{
    match said {
        Relocated::Refers { symbol } => number_of(symbols, symbol),
        _ => None,
    }
}

/// The instruction with a number as the low half of its own, if there is one.
fn with_low(number: Option<usize>, insn: &Insn) -> Insn
    requires { IfSome number (λ n. n < 2 ^ 32) }
    ensures { result ≡ with_low number insn.now }
{
    match number {
        Some(number) => {
            let high = insn.imm.cast_unsigned() / (1 << 32) * (1 << 32);
            Insn {
                imm: (high + number as u64).cast_signed(),
                ..*insn
            }
        }
        None => *insn,
    }
}

/// The instructions of a function, where each reference has its map's number.
pub fn numbered(
    alloc: Global,
    insns: &[Insn],
    places: &[Relocated],
    symbols: &[u32],
) -> Result<Vec<Insn>, AllocError>
    requires units { length places.now ≡ unit_count insns.now }
    requires few { length symbols.now < 2 ^ 32 }
    ensures { IfOk result (λ v. v.items ≡ with_numbers places.now symbols.now insns.now) }
{
    let mut out = Vec::with_capacity(alloc, insns.len())?;
    let mut place = 0;
    for insn in insns {
        out.push(with_low(map_number(symbols, places[place]), insn))?;
        place += usize::from(insn.op.units());
    }
    Ok(out)
}

/// The places that refer to a map, ascending.
pub fn referring(alloc: Global, places: &[Relocated]) -> Result<Vec<u32>, AllocError>
    requires { length places.now < 2 ^ 32 }
    ensures { IfOk result (λ v. v.items ≡ map_list (λ (r : Reference). r.place) (references places.now)) }
{
    let mut refs = Vec::new(alloc);
    for (i, said) in places.iter().enumerate() {
        if let Relocated::Refers { .. } = *said {
            refs.push(i as u32)?;
        }
    }
    Ok(refs)
}
