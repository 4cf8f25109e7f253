//! The symbols, relocations and map records of a small object.

ghost use Rattle.std.specs.Prelude.{◌≡◌, ◌+◌, ◌-◌, ◌%◌, ◌^◌, ◌<◌, ◌++◌, length, replicate, All, OnOk};
ghost use Rattle.elf_view.specs.Layout.{function_symbol, map_names, record_bytes, records, rels, symbols};

use crate::gabi::{CODE_SECTION, GLOBAL_FUNCTION, GLOBAL_OBJECT, R_BPF_64_64, RECORDS_SECTION};
use crate::object::MapRecord;
use crate::parts::{Rel, Symbol};
use crate::pieces::{rel_bytes, symbol_bytes, u32_le, write_fields};
use std::alloc::AllocError;

/// Enough zeros to fill up to a multiple of 8.
pub const FILL: [u8; 8] = [0; 8];

/// Symbol 0 is none.
pub const NO_SYMBOL: Symbol = Symbol {
    name: 0,
    info: 0,
    section: 0,
    value: 0,
    size: 0,
};

/// The symbol of the function, which is all of section 1.
pub fn function_symbol(size: u64) -> Symbol
    ensures { result ≡ function_symbol size }
{
    Symbol {
        name: 21,
        info: GLOBAL_FUNCTION,
        section: CODE_SECTION,
        value: 0,
        size,
    }
}

/// Puts zeros after the bytes, up to the next multiple of 8 of `len`.
pub fn put_padding(out: &mut Vec<u8>, len: usize) -> Result<(), AllocError>
    ensures { OnOk result (out.new.items ≡ out.old.items ++ replicate ((8 - len % 8) % 8) 0) }
{
    out.extend_from_slice(&FILL[..(8 - len % 8) % 8])
}

/// Puts the symbol table, for a name of so many bytes and so many bytes of code.
#[tactic(auto, using(crate::proofs::Loops::loop_steps))]
pub fn put_symbols(
    out: &mut Vec<u8>,
    name_len: u32,
    size: u64,
    maps: &[MapRecord<'_>],
) -> Result<(), AllocError>
    requires { 35 + name_len + length (map_names maps.now) < 2 ^ 32 }
    ensures { OnOk result (out.new.items ≡ out.old.items ++ symbols name_len size maps.now) }
{
    out.extend_from_slice(&symbol_bytes(&NO_SYMBOL))?;
    out.extend_from_slice(&symbol_bytes(&function_symbol(size)))?;
    let mut name = 35 + name_len;
    let mut value = 0;
    for map in maps {
        let symbol = Symbol {
            name,
            info: GLOBAL_OBJECT,
            section: RECORDS_SECTION,
            value,
            size: 20,
        };
        out.extend_from_slice(&symbol_bytes(&symbol))?;
        name += map.name.len() as u32 + 1;
        value += 20;
    }
    Ok(())
}

/// Puts the relocations: symbol 2 is that of map 0.
pub fn put_rels(out: &mut Vec<u8>, refs: &[(u32, u32)]) -> Result<(), AllocError>
    requires { All (λ r. r.1 < 2 ^ 20) refs.now }
    ensures { OnOk result (out.new.items ≡ out.old.items ++ rels refs.now) }
{
    for (place, map) in refs {
        let rel = Rel {
            offset: 8 * u64::from(*place),
            symbol: 2 + *map,
            kind: R_BPF_64_64,
        };
        out.extend_from_slice(&rel_bytes(&rel))?;
    }
    Ok(())
}

/// The record of a map.
#[tactic(auto, unfolding(crate::specs::Layout::record_bytes))]
fn record_bytes(words: &[u32; 5]) -> [u8; 20]
    ensures { result ≡ record_bytes words.now }
{
    let mut bytes = [0; 20];
    let fields: [&[u8]; 5] = [
        &u32_le(words[0]),
        &u32_le(words[1]),
        &u32_le(words[2]),
        &u32_le(words[3]),
        &u32_le(words[4]),
    ];
    write_fields(&mut bytes, &fields);
    bytes
}

/// Puts the records of the maps.
pub fn put_records(out: &mut Vec<u8>, maps: &[MapRecord<'_>]) -> Result<(), AllocError>
    ensures { OnOk result (out.new.items ≡ out.old.items ++ records maps.now) }
{
    for map in maps {
        out.extend_from_slice(&record_bytes(&map.words))?;
    }
    Ok(())
}
