//! The function that is asked for.

ghost use Rattle.std.specs.Prelude.{◌≡◌, ◌<◌, ◌%◌, ◌∷◌, [], ◌&&◌, length, IfOk, IfErr, IsTrue, Some, None};
ghost use Rattle.std.specs.Option.{option_copied};
ghost use Rattle.elf_view.specs.File.{e_shnum, e_shstrndx, entry_count, first_symtab, symbol_table};
ghost use Rattle.elf_view.specs.Rules.{first_error};
ghost use Rattle.xdp_object.specs.Functions.{function_code, is_asked_for, is_code_section, is_function, programs, section_name, symbol_name, symbol_of, symbol_strings};
ghost use Rattle.xdp_object.specs.Object.{FailsAs, wrong_count, wrong_function};

use crate::error::ObjectError;
use crate::text::{begins_with_xdp, is_text};
use elf_view::{ElfError, ElfView, Symbol};

/// A section type, a section flag and a symbol type that the gABI names.
const PROGBITS: u32 = 1;

const EXECINSTR: u64 = 4;

const STT_FUNC: u8 = 2;

/// A function of an object: its symbol, its name and its code.
#[derive(Clone, Copy)]
pub struct Function<'a> {
    pub symbol: Symbol,
    pub name: &'a [u8],
    pub code: &'a [u8],
}

/// Whether section `i` is one of code.
fn is_code_section(view: &ElfView<'_>, i: u32) -> bool
    ensures value { result ≡ is_code_section view.now i }
    ensures below { IsTrue result → i < e_shnum view.now }
{
    if i >= view.sections() {
        return false;
    }
    let section = view.section(i);
    section.kind == PROGBITS && section.flags / EXECINSTR % 2 == 1
}

/// The string table of the symbols' names.
fn symbol_strings<'a>(view: &ElfView<'a>) -> &'a [u8]
    requires { first_error view.now ≡ None }
    ensures { result.now ≡ symbol_strings view.now (first_symtab view.now) }
{
    match view.symbol_table() {
        Some(table) => view.bytes_of(view.section(table).link),
        None => &[],
    }
}

/// The name of symbol `n`.
pub fn symbol_name<'a>(view: &ElfView<'a>, n: u32) -> Result<&'a [u8], ElfError>
    requires opened { first_error view.now ≡ None }
    requires entry { n < entry_count 24 (symbol_table view.now) }
    ensures found { IfOk result (λ name. symbol_name view.now n ≡ Some name.now) }
    ensures none { IfErr result (λ e. (e ≡ ElfError.At (symbol_of view.now n).name) × (symbol_name view.now n ≡ None)) }
{
    let at = view.symbol(n).name;
    match view.symbol_table() {
        Some(table) => view.name_of(view.section(table).link, at),
        None => Err(ElfError::At { at }),
    }
}

/// Whether symbol `n` is a function that is asked for. The section `names` holds the names of the sections.
fn is_program(view: &ElfView<'_>, names: u32, choice: Option<&str>, n: u32) -> bool
    requires opened { first_error view.now ≡ None }
    requires names { names ≡ e_shstrndx view.now }
    requires entry { n < entry_count 24 (symbol_table view.now) }
    ensures value { result ≡ (is_function view.now n && is_asked_for (option_copied choice.entry) view.now n) }
    ensures section { IsTrue result → (symbol_of view.now n).section < e_shnum view.now }
{
    let symbol = view.symbol(n);
    let section = u32::from(symbol.section);
    if symbol.info % 16 != STT_FUNC || symbol.size == 0 || !is_code_section(view, section) {
        return false;
    }
    match choice {
        Some(name) => is_text(symbol_strings(view), symbol.name, name.as_bytes()),
        None => begins_with_xdp(view.bytes_of(names), view.section(section).name),
    }
}

/// The number of the one symbol that is a function that is asked for. It is an error that there is none, and that there are several.
pub fn find_program(
    view: &ElfView<'_>,
    names: u32,
    choice: Option<&str>,
) -> Result<u32, ObjectError>
    requires opened { first_error view.now ≡ None }
    requires names { names ≡ e_shstrndx view.now }
    ensures fault { FailsAs result (wrong_count (programs (option_copied choice.entry) view.now)) }
    ensures found { IfOk result (λ n. programs (option_copied choice.entry) view.now ≡ n ∷ []) }
    ensures entry { IfOk result (λ n. n < entry_count 24 (symbol_table view.now)) }
    ensures section { IfOk result (λ n. (symbol_of view.now n).section < e_shnum view.now) }
{
    let mut last = 0;
    let mut count = 0;
    for n in 0..view.symbols() {
        if is_program(view, names, choice, n) {
            last = n;
            count += 1;
        }
    }
    match count {
        0 => Err(ObjectError::NoProgram),
        1 => Ok(last),
        _ => Err(ObjectError::ManyPrograms { count }),
    }
}

/// The function of symbol `n`. It is an error that its name does not end in its table, that it does not stand in its section,
/// and that it is not made of whole units.
#[tactic(auto, unfolding(crate::specs::Object::wrong_function, crate::specs::Object::open_name, crate::specs::Object::outside, crate::specs::Object::odd_units))]
pub fn function_at<'a>(view: &ElfView<'a>, n: u32) -> Result<Function<'a>, ObjectError>
    requires opened { first_error view.now ≡ None }
    requires entry { n < entry_count 24 (symbol_table view.now) }
    requires section { (symbol_of view.now n).section < e_shnum view.now }
    ensures fault { FailsAs result (wrong_function view.now n) }
    ensures symbol { IfOk result (λ f. f.symbol ≡ symbol_of view.now n) }
    ensures name { IfOk result (λ f. symbol_name view.now n ≡ Some f.name.now) }
    ensures code { IfOk result (λ f. f.code.now ≡ function_code view.now (symbol_of view.now n)) }
    ensures whole { IfOk result (λ f. length f.code.now % 8 ≡ 0) }
    ensures size { IfOk result (λ f. f.symbol.size ≡ length f.code.now) }
{
    let name = match symbol_name(view, n) {
        Ok(name) => name,
        Err(error) => return Err(ObjectError::Elf(error)),
    };
    let symbol = view.symbol(n);
    let section = u32::from(symbol.section);
    let bytes = view.bytes_of(section);
    if u128::from(symbol.value) + u128::from(symbol.size) > bytes.len() as u128 {
        return Err(ObjectError::Elf(ElfError::Section { n: section }));
    }
    if symbol.value % 8 != 0 || symbol.size % 8 != 0 {
        return Err(ObjectError::Odd);
    }
    let start = symbol.value as usize;
    let code = &bytes[start..start + symbol.size as usize];
    Ok(Function { symbol, name, code })
}
