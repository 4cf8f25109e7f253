//! A design of narrower registers.

ghost use Rattle.std.specs.Prelude.{◌≡◌, [], IfOk, IfSome, map};
ghost use Rattle.net_core.specs.View.{netlist_of, wire_of, assign_of, statement_of};
ghost use Rattle.net_core.specs.Clock.{first_words, first_memories};
ghost use Rattle.net_core.specs.SameClocks.Same.{ShowTheSame};
ghost use Rattle.register_rules.specs.NarrowRegisters.Narrow.{AreNarrowedWords, IsNarrowedItem, Each, AreNarrowedWires, IsSameAssign, IsSameStatement, coding_of};

use crate::narrow_registers::assigning::narrow_stmt;
use crate::narrow_registers::bounds::bounds;
use crate::narrow_registers::choices::chosen_codes;
use crate::narrow_registers::choosing::high_zeros;
use crate::narrow_registers::codes::{Code, Codes, code_at};
use crate::narrow_registers::encoding::encoded_word;
use crate::narrow_registers::narrowing::narrow_right;
use crate::narrow_registers::stop::Stop;
use crate::narrow_registers::widening::wide;
use crate::narrow_registers::zeros::number_at;
use net_core::design::{Assign, Declared, Design, Wire};
use net_core::tree::{Net, Stmt};
use std::alloc::{AllocError, Global};

// What is declared, where a register has this code.
fn narrow_item(item: &Declared, code: Code) -> Result<Declared, Stop>
    ensures { IfOk result (λ r. IsNarrowedItem code item.now r) }
{
    match item {
        Declared::Register(word) => Ok(Declared::Register(encoded_word(*word, code)?)),
        Declared::Integer | Declared::Memory { .. } => Ok(*item),
    }
}

// What is declared, where registers have these codes.
fn narrow_declared(
    alloc: Global,
    codes: &[Code],
    declared: &[Declared],
) -> Result<Vec<Declared>, Stop>
    ensures words { IfOk result (λ r. AreNarrowedWords codes.now (first_words declared.now) (first_words r.items)) }
    ensures memories { IfOk result (λ r. first_memories declared.now ≡ first_memories r.items) }
{
    let mut all = Vec::new(alloc);
    let mut next = 0;
    for item in declared {
        let narrower = narrow_item(item, code_at(codes, next))?;
        all.push(narrower)?;
        if let Declared::Register(_) = item {
            next += 1;
        }
    }
    if next < codes.len() {
        return Err(Stop::Wide);
    }
    Ok(all)
}

// Wires without their first bits, which are so many zeros, and the codes of nets then.
#[derive(Drop)]
struct NarrowWires {
    codes: Codes,
    wires: Vec<Wire>,
}

// Wires that lose so many high bits, where registers have these codes.
fn narrow_wires(
    alloc: Global,
    registers: Vec<Code>,
    lost: &[u8],
    wires: &[Wire],
) -> Result<NarrowWires, Stop>
    ensures registers { IfOk result (λ n. n.codes.registers.items ≡ registers.items) }
    ensures wires { IfOk result (λ n. AreNarrowedWires registers.items [] n.codes.wires.items (map wire_of wires.now) (map wire_of n.wires.items)) }
{
    let mut codes = Codes {
        registers,
        wires: Vec::new(alloc),
    };
    let mut all = Vec::new(alloc);
    for wire in wires {
        let z = number_at(lost, codes.wires.len());
        if z >= wire.width {
            return Err(Stop::Wide);
        }
        let right = narrow_right(alloc, &codes, &wire.right, z)?;
        all.push(Wire {
            width: wire.width - z,
            right,
        })?;
        codes.wires.push(z)?;
    }
    Ok(NarrowWires { codes, wires: all })
}

// What outputs show, which is the same.
fn wide_assigns(alloc: Global, codes: &Codes, assigns: &[Assign]) -> Result<Vec<Assign>, Stop>
    ensures { IfOk result (λ r. Each (IsSameAssign (coding_of codes.now)) (map assign_of assigns.now) (map assign_of r.items)) }
{
    let mut all = Vec::new(alloc);
    for assign in assigns {
        let value = wide(alloc, codes, &assign.value)?;
        all.push(Assign {
            port: assign.port,
            value,
        })?;
    }
    Ok(all)
}

// Always blocks that store the same.
fn narrow_always(alloc: Global, codes: &Codes, always: &[Stmt<Net>]) -> Result<Vec<Stmt<Net>>, Stop>
    ensures { IfOk result (λ r. Each (IsSameStatement (coding_of codes.now)) (map statement_of always.now) (map statement_of r.items)) }
{
    let mut all = Vec::new(alloc);
    for stmt in always {
        all.push(narrow_stmt(alloc, codes, stmt)?)?;
    }
    Ok(all)
}

fn copied_names(alloc: Global, names: &[String]) -> Result<Vec<String>, AllocError> {
    let mut all = Vec::new(alloc);
    for name in names {
        all.push(String::from_str(alloc, name)?)?;
    }
    Ok(all)
}

// A design that shows the same, in which registers have these codes and wires lose so many high bits.
fn stored(alloc: Global, design: &Design, registers: Vec<Code>, lost: &[u8]) -> Result<Design, Stop>
    ensures { IfOk result (λ d. ShowTheSame (netlist_of design.now) (netlist_of d)) }
{
    let names = copied_names(alloc, &design.names)?;
    let ports = Vec::from_slice(alloc, &design.ports)?;
    let declared = narrow_declared(alloc, &registers, &design.declared)?;
    let NarrowWires { codes, wires } = narrow_wires(alloc, registers, lost, &design.wires)?;
    let assigns = wide_assigns(alloc, &codes, &design.assigns)?;
    let always = narrow_always(alloc, &codes, &design.always)?;
    Ok(Design {
        names,
        ports,
        declared,
        wires,
        assigns,
        always,
    })
}

/// A design that shows the same, with narrower registers and wires, if these fit: one whose high bits are always 0 is declared without
/// them, and read after as many zeros. If `to_bits` holds, a register that always holds one of two words is declared as one bit, and one
/// that always holds one word is not read. Registers and wires keep their numbers and names. Whether it keeps all rules is not tested.
pub fn narrower(alloc: Global, design: &Design, to_bits: bool) -> Result<Option<Design>, AllocError>
    ensures { IfOk result (λ n. IfSome n (λ d. ShowTheSame (netlist_of design.now) (netlist_of d))) }
{
    let needs = bounds(alloc, design)?;
    let zeros = high_zeros(alloc, design, &needs)?;
    let codes = chosen_codes(alloc, design, &needs, &zeros.registers, to_bits)?;
    match stored(alloc, design, codes, &zeros.wires) {
        Ok(next) => Ok(Some(next)),
        Err(Stop::Wide) => Ok(None),
        Err(Stop::NoMemory) => Err(AllocError),
    }
}
