// Calls of helpers: the table of their arguments and answers, and what is asked of arguments.

ghost use Rattle.std.specs.Prelude.{◌≡◌, ◌<◌, ◌≤◌, ◌+ℤ◌, ℕ, length, IfOk};
ghost use Rattle.kind_core.specs.Effects.{IsInside};
ghost use Rattle.kind_core.specs.Kinds.{register};
ghost use Rattle.kind_core.specs.Calls.{row, prototype_of, is_used, argument, argument_read, all_read, arguments_read, declared, region, plain, fits_argument, argument_fits, change_of, answer_of, called_as, called};

use crate::effects::Effect;
use crate::kind::{Kind, Kinds};
use crate::places::{STACK_BYTES, in_packet, is_hash, key_bytes, value_bytes};
use crate::tests::{all_numbers, read_if, within};
use xdp_machine::bpf_isa::Helper;
use xdp_machine::xdp_maps::decl::MapDecl;
use xdp_state::Why;

/// What an argument is.
#[derive(Copy, Clone)]
pub(crate) enum Argument {
    Unused,
    /// A map.
    Map,
    /// The bytes of a key of the map in R1.
    Key,
    /// The bytes of a value of the map in R1.
    Value,
    /// A number.
    Plain,
}

/// What an answer is.
#[derive(Copy, Clone)]
pub(crate) enum Answer {
    /// An entry of the map, or null.
    EntryOrNull,
    /// A number.
    Plainly,
    /// A number, after a change of the map.
    AfterChange,
}

/// What a helper takes and answers: a row of the table.
#[derive(Copy, Clone)]
pub(crate) struct Prototype {
    /// R1 to R5.
    pub(crate) arguments: [Argument; 5],
    pub(crate) answer: Answer,
}

// A row.
fn row(a: Argument, b: Argument, c: Argument, d: Argument, answer: Answer) -> Prototype
    ensures { result ≡ row a b c d Argument.Unused answer }
{
    Prototype {
        arguments: [a, b, c, d, Argument::Unused],
        answer,
    }
}

// The table.
fn prototype_of(helper: Helper) -> Prototype
    ensures { result ≡ prototype_of helper }
{
    use Answer::{AfterChange, EntryOrNull, Plainly};
    use Argument::{Key, Map, Plain, Unused, Value};
    match helper {
        Helper::Lookup => row(Map, Key, Unused, Unused, EntryOrNull),
        Helper::Update => row(Map, Key, Value, Plain, AfterChange),
        Helper::Delete => row(Map, Key, Unused, Unused, AfterChange),
        Helper::Time => row(Unused, Unused, Unused, Unused, Plainly),
        Helper::Redirect => row(Plain, Plain, Unused, Unused, Plainly),
    }
}

// Whether there is an argument.
fn is_used(argument: Argument) -> bool
    ensures { result ≡ is_used argument }
{
    match argument {
        Argument::Unused => false,
        _ => true,
    }
}

// The register of an argument is read.
fn argument_read(kinds: &Kinds, prototype: &Prototype, n: usize) -> Result<(), Why>
    requires { n < 5 }
    ensures { result ≡ argument_read kinds.now prototype.now n }
{
    read_if(is_used(prototype.arguments[n]), kinds.registers[n + 1])
}

// The registers of all arguments are read.
fn all_read(kinds: &Kinds, prototype: &Prototype) -> Result<(), Why>
    ensures { result ≡ all_read kinds.now prototype.now }
{
    argument_read(kinds, prototype, 0)?;
    argument_read(kinds, prototype, 1)?;
    argument_read(kinds, prototype, 2)?;
    argument_read(kinds, prototype, 3)?;
    argument_read(kinds, prototype, 4)
}

/// The registers of all arguments of a helper are read.
pub(crate) fn arguments_read(kinds: &Kinds, helper: Option<Helper>) -> Result<(), Why>
    ensures { result ≡ arguments_read kinds.now helper }
{
    match helper {
        None => Ok(()),
        Some(h) => all_read(kinds, &prototype_of(h)),
    }
}

// A map of the program.
fn declared(decls: &[MapDecl], kind: Kind) -> Result<u32, Why>
    ensures { result ≡ declared decls.now kind }
{
    match kind {
        Kind::MapRef(q) if (q as usize) < decls.len() => Ok(q),
        _ => Err(Why::Argument),
    }
}

// Bytes for a helper.
fn region(kinds: &Kinds, n: u32, kind: Kind) -> Result<(), Why>
    ensures { result ≡ region kinds.now n kind }
{
    let count = n as usize;
    match kind {
        Kind::Packet(o) => {
            in_packet(kinds.checked, i128::from(o), count)?;
            Ok(())
        }
        Kind::Stack(o) => {
            let at = within(i128::from(o) + STACK_BYTES as i128, count, STACK_BYTES)?;
            all_numbers(&kinds.slots[at / 8..(at + count + 7) / 8])
        }
        Kind::Maybe(_, _) => Err(Why::Null),
        _ => Err(Why::Argument),
    }
}

// A number.
fn plain(kind: Kind) -> Result<(), Why>
    ensures { result ≡ plain kind }
{
    match kind {
        Kind::Num(_) => Ok(()),
        _ => Err(Why::Argument),
    }
}

// What is asked of an argument.
fn fits_argument(
    decls: &[MapDecl],
    kinds: &Kinds,
    argument: Argument,
    kind: Kind,
) -> Result<(), Why>
    ensures { result ≡ fits_argument decls.now kinds.now argument kind }
{
    match argument {
        Argument::Unused => Ok(()),
        Argument::Map => {
            declared(decls, kind)?;
            Ok(())
        }
        Argument::Key => {
            let q = declared(decls, kinds.registers[1])?;
            region(kinds, key_bytes(decls, q), kind)
        }
        Argument::Value => {
            let q = declared(decls, kinds.registers[1])?;
            region(kinds, value_bytes(decls, q), kind)
        }
        Argument::Plain => plain(kind),
    }
}

// What is asked of one of five arguments.
fn argument_fits(
    decls: &[MapDecl],
    kinds: &Kinds,
    prototype: &Prototype,
    n: usize,
) -> Result<(), Why>
    requires { n < 5 }
    ensures { result ≡ argument_fits decls.now kinds.now prototype.now n }
{
    fits_argument(decls, kinds, prototype.arguments[n], kinds.registers[n + 1])
}

// What a change of a map does.
fn change_of(decls: &[MapDecl], q: u32) -> Effect
    ensures value { result ≡ change_of decls.now q }
    ensures inside { IsInside result }
{
    if is_hash(decls, q) {
        Effect::Changed(q)
    } else {
        Effect::Answered
    }
}

// What an answer does.
fn answer_of(decls: &[MapDecl], kinds: &Kinds, answer: Answer) -> Result<Effect, Why>
    ensures value { result ≡ answer_of decls.now kinds.now answer }
    ensures inside { IfOk result IsInside }
{
    match answer {
        Answer::EntryOrNull => Ok(Effect::Lookup(declared(decls, kinds.registers[1])?)),
        Answer::Plainly => Ok(Effect::Answered),
        Answer::AfterChange => Ok(change_of(decls, declared(decls, kinds.registers[1])?)),
    }
}

// A call of what takes and answers this.
fn called_as(decls: &[MapDecl], kinds: &Kinds, prototype: &Prototype) -> Result<Effect, Why>
    ensures value { result ≡ called_as decls.now kinds.now prototype.now }
    ensures inside { IfOk result IsInside }
{
    argument_fits(decls, kinds, prototype, 0)?;
    argument_fits(decls, kinds, prototype, 1)?;
    argument_fits(decls, kinds, prototype, 2)?;
    argument_fits(decls, kinds, prototype, 3)?;
    argument_fits(decls, kinds, prototype, 4)?;
    answer_of(decls, kinds, prototype.answer)
}

/// A call of the helper of a number, if there is one.
pub(crate) fn called(
    decls: &[MapDecl],
    kinds: &Kinds,
    id: i64,
    helper: Option<Helper>,
) -> Result<Effect, Why>
    ensures value { result ≡ called decls.now kinds.now id helper }
    ensures inside { IfOk result IsInside }
{
    match helper {
        None => Err(Why::Helper(id)),
        Some(h) => called_as(decls, kinds, &prototype_of(h)),
    }
}
