//! Objects.

ghost use Rattle.std.specs.Prelude.{◌≡◌, ◌≢◌, ◌≤◌, ◌%◌, ℕ, length, IfErr, IfOk, None};
ghost use Rattle.std.specs.Option.{option_or};
ghost use Rattle.bpf_isa.specs.Text.{FirstBad, Spells};
ghost use Rattle.elf_view.specs.File.{e_shstrndx};
ghost use Rattle.elf_view.specs.Rules.{first_error};
ghost use Rattle.xdp_object.specs.Choice.{chosen_of};
ghost use Rattle.xdp_object.specs.Object.{FailsAs, FirstFault, IsObject, too_long, wrong_elf};

use crate::choice::Choice;
use crate::error::ObjectError;
use crate::functions::{find_program, function_at};
use crate::maps::map_table;
use crate::numbers::{numbered, referring};
use crate::program::Program;
use crate::relocations::known_places;
use bpf_isa::{DecodeError, Insn, decode_all};
use byteorder::{ByteOrder, LittleEndian};
use elf_view::ElfView;
use std::alloc::Global;

/// The most bytes that an object has.
const MOST_BYTES: usize = 1048576;

/// Opens an object. It is an error that it is too long, and that it is no ELF64 object for eBPF.
#[tactic(auto, unfolding(crate::specs::Object::too_long, crate::specs::Object::wrong_elf))]
fn open(bytes: &[u8]) -> Result<ElfView<'_>, ObjectError>
    ensures fault { FailsAs result (option_or (too_long bytes.now) (wrong_elf bytes.now)) }
    ensures whole { IfOk result (λ view. view ≡ bytes.now) }
    ensures opened { IfOk result (λ view. first_error view ≡ None) }
{
    if bytes.len() > MOST_BYTES {
        return Err(ObjectError::Long);
    }
    match ElfView::open(bytes) {
        Ok(view) => Ok(view),
        Err(error) => Err(ObjectError::Elf(error)),
    }
}

/// The number of the section that holds the names of the sections.
#[tactic(auto, unfolding(elf_view::specs::Numbers::u16_at))]
fn section_names(bytes: &[u8]) -> u32
    requires { 64 ≤ length bytes.now }
    ensures { result ≡ e_shstrndx bytes.now }
{
    u32::from(LittleEndian::read_u16(&bytes[62..]))
}

/// The instructions of whole units.
fn decode(alloc: Global, code: &[u8]) -> Result<Vec<Insn>, ObjectError>
    requires { length code.now % 8 ≡ 0 }
    ensures ok { IfOk result (λ insns. Spells code.now insns.items) }
    ensures bad { IfErr result (λ e. e ≢ ObjectError.NoMemory → (at : ℕ) × (e ≡ ObjectError.Bad at) × FirstBad code.now at) }
{
    match decode_all(alloc, code) {
        Ok(insns) => Ok(insns),
        Err(DecodeError::Bad { at }) => Err(ObjectError::Bad { at }),
        Err(DecodeError::Odd) => unreachable!(),
        Err(DecodeError::NoMemory) => Err(ObjectError::NoMemory),
    }
}

/// The program of an object that is chosen. Its maps are numbered as they are first referred to, by place.
///
/// An error is the first fault of the object, or `NoMemory`.
pub fn read_object(alloc: Global, bytes: &[u8], choice: Choice<'_>) -> Result<Program, ObjectError>
    ensures program { IfOk result (λ p. IsObject (chosen_of choice.entry) bytes.now p) }
    ensures fault { IfErr result (λ e. e ≢ ObjectError.NoMemory → FirstFault (chosen_of choice.entry) bytes.now e) }
{
    let view = open(bytes)?;
    let names = section_names(bytes);
    let number = find_program(&view, names, choice.program)?;
    let function = function_at(&view, number)?;
    let insns = decode(alloc, function.code)?;
    let strings = view.bytes_of(names);
    let places = known_places(alloc, &view, strings, &function.symbol, &insns)?;
    let maps = map_table(alloc, &view, strings, &places, choice.hash_cap)?;
    let name = Vec::from_slice(alloc, function.name)?;
    let insns = numbered(alloc, &insns, &places, maps.symbols())?;
    let refs = referring(alloc, &places)?;
    Ok(Program::of(name, insns, maps.into_decls(), refs))
}
