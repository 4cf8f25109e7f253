//! The relocations of a function.

ghost use Rattle.std.specs.Prelude.{◌≡◌, ◌≢◌, ◌<◌, ◌≤◌, ◌+◌, ◌*◌, ◌%◌, ◌==◌, ◌&&◌, ℕ, not, true, length, slice_index_or, IfErr, IfOk, IfSome, OnOk, Some, None};
ghost use Rattle.std.specs.Option.{option_copied};
ghost use Rattle.bpf_isa.specs.Spelling.{units_of};
ghost use Rattle.bpf_isa.specs.Text.{unit_count};
ghost use Rattle.elf_view.specs.File.{e_shnum, e_shstrndx, section_at, section_bytes};
ghost use Rattle.xdp_object.specs.declared.relocated.Relocated.TheVariants.{Untouched};
ghost use Rattle.xdp_object.specs.Object.{FailsAs, relocation_fault};
ghost use Rattle.xdp_object.specs.Relocations.{both, cut_tables, has_name, first_unknown, is_load, is_map_symbol, place_in, places_of, rela_tables, relocated_at, relocates, relocation_of, said_by_section, said_by_table, said_of, unknown_by, unknown_in};

use crate::error::ObjectError;
use crate::relocated::{Relocated, both};
use crate::text::is_text;
use bpf_isa::{Insn, Op};
use elf_view::{ElfError, ElfView, Rel, Symbol};
use std::alloc::{AllocError, Global};

/// The types of sections of relocations.
const REL: u32 = 9;

const RELA: u32 = 4;

/// The type of a relocation of a load of a number of 64 bits.
const R_BPF_64_64: u32 = 1;

/// The type of a symbol that stands for a section.
const STT_SECTION: u8 = 3;

/// Whether section `i` is of this type, and its entries are relocations of section `target`.
fn relocates(view: &ElfView<'_>, kind: u32, target: u32, i: u32) -> bool
    requires { i < e_shnum view.now }
    ensures { result ≡ relocates view.now kind target i }
{
    let section = view.section(i);
    section.kind == kind && section.info == target
}

/// Whether section `i` is a `REL` section of section `target` whose last entry is cut.
fn is_cut(view: &ElfView<'_>, target: u32, i: u32) -> bool
    requires { i < e_shnum view.now }
    ensures { result ≡ (relocates view.now 9 target i && not ((section_at view.now i).size % 16 == 0)) }
{
    relocates(view, REL, target, i) && view.section(i).size % 16 != 0
}

/// Each `REL` section of section `target` has whole entries.
#[tactic(auto, unfolding(crate::specs::Relocations::cut_tables))]
pub fn check_tables(view: &ElfView<'_>, target: u32) -> Result<(), ObjectError>
    ensures { FailsAs result (cut_tables view.now target) }
{
    for i in 0..view.sections() {
        if is_cut(view, target, i) {
            return Err(ObjectError::Elf(ElfError::Section { n: i }));
        }
    }
    Ok(())
}

/// There is no `RELA` section of section `target`.
#[tactic(auto, unfolding(crate::specs::Relocations::rela_tables))]
pub fn check_no_rela(view: &ElfView<'_>, target: u32) -> Result<(), ObjectError>
    ensures { FailsAs result (rela_tables view.now target) }
{
    for i in 0..view.sections() {
        if relocates(view, RELA, target, i) {
            return Err(ObjectError::Relocation { at: 0 });
        }
    }
    Ok(())
}

/// Whether section `i` has this name. The names of the sections stand in `names`.
#[tactic(auto, unfolding(crate::specs::Relocations::has_name))]
pub fn has_name(view: &ElfView<'_>, names: &[u8], i: u32, text: &[u8]) -> bool
    requires section { i < e_shnum view.now }
    requires names { names.now ≡ section_bytes view.now (e_shstrndx view.now) }
    ensures { result ≡ has_name view.now i text.now }
{
    is_text(names, view.section(i).name, text)
}

/// Whether symbol `n` stands for what lies in a section of maps.
#[tactic(auto, unfolding(crate::specs::Relocations::is_map_symbol))]
fn is_map_symbol(view: &ElfView<'_>, names: &[u8], n: u32) -> bool
    requires { names.now ≡ section_bytes view.now (e_shstrndx view.now) }
    ensures { result ≡ is_map_symbol view.now n }
{
    if n >= view.symbols() {
        return false;
    }
    let symbol = view.symbol(n);
    let section = u32::from(symbol.section);
    if symbol.info % 16 == STT_SECTION || section >= view.sections() {
        return false;
    }
    has_name(view, names, section, b"maps") || has_name(view, names, section, b".maps")
}

/// The unit of the function that holds the first byte that is relocated, if that byte stands in the function.
fn place_in(function: &Symbol, rel: Rel) -> Option<u64>
    ensures place { result ≡ place_in function.now rel }
    ensures inside { IfSome result (λ at. 8 * at < function.now.size) }
    ensures behind { IfSome result (λ at. function.now.value ≤ rel.offset) }
{
    if function.value <= rel.offset && rel.offset - function.value < function.size {
        Some((rel.offset - function.value) / 8)
    } else {
        None
    }
}

/// What a relocation of the function says of its place.
fn relocation_of(view: &ElfView<'_>, names: &[u8], function: &Symbol, rel: Rel) -> Relocated
    requires names { names.now ≡ section_bytes view.now (e_shstrndx view.now) }
    requires behind { function.now.value ≤ rel.offset }
    ensures { result ≡ relocation_of view.now function.now rel }
{
    let whole = (rel.offset - function.value) % 8 == 0;
    if rel.kind == R_BPF_64_64 && whole && is_map_symbol(view, names, rel.symbol) {
        Relocated::Refers { symbol: rel.symbol }
    } else {
        Relocated::Unknown
    }
}

/// Adds what a relocation says to what is known of each place.
fn note(view: &ElfView<'_>, names: &[u8], function: &Symbol, rel: Rel, places: &mut [Relocated])
    requires names { names.now ≡ section_bytes view.now (e_shstrndx view.now) }
    requires long { function.now.size ≤ 8 * length places.old }
    ensures length { length places.new ≡ length places.old }
    ensures said { (p : ℕ) → p < length places.old
        → slice_index_or places.new p Untouched ≡ both (slice_index_or places.old p Untouched) (said_of view.now function.now p rel) }
{
    if let Some(at) = place_in(function, rel) {
        let i = at as usize;
        places[i] = both(places[i], relocation_of(view, names, function, rel));
    }
}

/// The same for all entries of section `i`.
fn note_table(view: &ElfView<'_>, names: &[u8], function: &Symbol, i: u32, places: &mut [Relocated])
    requires section { i < e_shnum view.now }
    requires names { names.now ≡ section_bytes view.now (e_shstrndx view.now) }
    requires long { function.now.size ≤ 8 * length places.old }
    ensures length { length places.new ≡ length places.old }
    ensures said { (p : ℕ) → p < length places.old
        → slice_index_or places.new p Untouched ≡ both (slice_index_or places.old p Untouched) (said_by_table view.now function.now p i) }
{
    for k in 0..view.rels(i) {
        note(view, names, function, view.rel(i, k), places);
    }
}

/// The same, if these entries are relocations of the function's section.
fn note_section(
    view: &ElfView<'_>,
    names: &[u8],
    function: &Symbol,
    i: u32,
    places: &mut [Relocated],
)
    requires section { i < e_shnum view.now }
    requires names { names.now ≡ section_bytes view.now (e_shstrndx view.now) }
    requires long { function.now.size ≤ 8 * length places.old }
    ensures length { length places.new ≡ length places.old }
    ensures said { (p : ℕ) → p < length places.old
        → slice_index_or places.new p Untouched ≡ both (slice_index_or places.old p Untouched) (said_by_section view.now function.now p i) }
{
    if relocates(view, REL, u32::from(function.section), i) {
        note_table(view, names, function, i, places);
    }
}

/// Adds what all relocations of the function say.
fn note_all(view: &ElfView<'_>, names: &[u8], function: &Symbol, places: &mut [Relocated])
    requires names { names.now ≡ section_bytes view.now (e_shstrndx view.now) }
    requires long { function.now.size ≤ 8 * length places.old }
    requires untouched { (p : ℕ) → slice_index_or places.old p Untouched ≡ Untouched }
    ensures length { length places.new ≡ length places.old }
    ensures said { (p : ℕ) → p < length places.old → slice_index_or places.new p Untouched ≡ relocated_at view.now function.now p }
{
    for i in 0..view.sections() {
        note_section(view, names, function, i, places);
    }
}

/// What the relocations say of each unit of the function.
pub fn relocated(
    alloc: Global,
    view: &ElfView<'_>,
    names: &[u8],
    function: &Symbol,
) -> Result<Vec<Relocated>, AllocError>
    requires names { names.now ≡ section_bytes view.now (e_shstrndx view.now) }
    requires whole { function.now.size % 8 ≡ 0 }
    ensures { IfOk result (λ places. places.items ≡ places_of view.now function.now) }
{
    let mut places = vec![in alloc; Relocated::Untouched; (function.size / 8) as usize]?;
    note_all(view, names, function, &mut places);
    Ok(places)
}

/// Whether an instruction is the load of a number of 64 bits, with source 0.
fn is_load(insn: &Insn) -> bool
    ensures { result ≡ is_load insn.now }
{
    insn.op == Op::LoadImm && insn.src == 0
}

/// The relocations of a place are known: there is none, or an instruction begins there that is a load, and refers to a map.
fn check_place(place: u64, said: Relocated, insn: Option<&Insn>) -> Result<(), ObjectError>
    ensures { FailsAs result (unknown_by place said (option_copied insn.entry)) }
{
    match (said, insn) {
        (Relocated::Untouched, _) => Ok(()),
        (Relocated::Refers { .. }, Some(insn)) if is_load(insn) => Ok(()),
        _ => Err(ObjectError::Relocation { at: place }),
    }
}

/// The relocations of the units of an instruction, which begins at a place, are known.
fn check_insn(places: &[Relocated], place: usize, insn: &Insn) -> Result<(), ObjectError>
    requires { place + units_of insn.now.op ≤ length places.now }
    ensures { FailsAs result (unknown_in places.now place insn.now) }
{
    if let Err(error) = check_place(place as u64, places[place], Some(insn)) {
        return Err(error);
    }
    if insn.op.units() == 2 {
        return check_place(place as u64 + 1, places[place + 1], None);
    }
    Ok(())
}

/// The relocations of each place are known, where these are all instructions of the function.
pub fn check_places(places: &[Relocated], insns: &[Insn]) -> Result<(), ObjectError>
    requires { length places.now ≡ unit_count insns.now }
    ensures { FailsAs result (first_unknown places.now insns.now) }
{
    let mut place = 0;
    for insn in insns {
        if let Err(error) = check_insn(places, place, insn) {
            return Err(error);
        }
        place += usize::from(insn.op.units());
    }
    Ok(())
}

/// What the relocations say of each unit of a function of these instructions. It is an error that one of them is not known.
#[tactic(auto, unfolding(crate::specs::Object::relocation_fault))]
pub fn known_places(
    alloc: Global,
    view: &ElfView<'_>,
    names: &[u8],
    function: &Symbol,
    insns: &[Insn],
) -> Result<Vec<Relocated>, ObjectError>
    requires names { names.now ≡ section_bytes view.now (e_shstrndx view.now) }
    requires units { function.now.size ≡ 8 * unit_count insns.now }
    ensures places { IfOk result (λ places. places.items ≡ places_of view.now function.now) }
    ensures known { OnOk result (relocation_fault view.now function.now insns.now ≡ None) }
    ensures fault { IfErr result (λ e. e ≢ ObjectError.NoMemory → relocation_fault view.now function.now insns.now ≡ Some e) }
{
    check_tables(view, u32::from(function.section))?;
    check_no_rela(view, u32::from(function.section))?;
    let places = relocated(alloc, view, names, function)?;
    check_places(&places, insns)?;
    Ok(places)
}
