// Whether kinds agree where edges meet.

use crate::locations::Locations;
use kind_core::{Kind, Kinds, Number};

/// The kind of a register.
pub(crate) fn kind_of(kinds: &Kinds, r: u8) -> Kind {
    if r < 11 {
        kinds.registers[r as usize]
    } else {
        Kind::Unset
    }
}

/// Whether a kind is a number that is not known.
pub(crate) fn is_open(kind: Kind) -> bool {
    matches!(kind, Kind::Num(Number::Between(_, _)))
}

// Whether two numbers are told apart: their bounds do not matter to where offsets into the packet are known.
fn are_apart(a: Number, b: Number) -> bool {
    match (a, b) {
        (Number::Known(x), Number::Known(y)) => x != y,
        (Number::Between(_, _), Number::Between(_, _)) => false,
        _ => true,
    }
}

// Whether two kinds agree: they are the same, both are numbers, or one is unset. Numbers may be kept apart.
fn agree_as(a: Kind, b: Kind, apart: bool) -> bool {
    match (a, b) {
        (Kind::Unset, _) | (_, Kind::Unset) => true,
        (Kind::Num(x), Kind::Num(y)) => !apart || !are_apart(x, y),
        _ => a == b,
    }
}

/// Whether two kinds agree in all that matters.
pub(crate) fn agree(a: &Kinds, b: &Kinds, matter: Locations, apart: Locations) -> bool {
    for r in 0..11u8 {
        let i = r as usize;
        if matter.has_register(r)
            && !agree_as(a.registers[i], b.registers[i], apart.has_register(r))
        {
            return false;
        }
    }
    for s in 0..64u32 {
        let i = s as usize;
        if matter.has_slot(s) && !agree_as(a.slots[i], b.slots[i], apart.has_slot(s)) {
            return false;
        }
    }
    true
}

// Whether two kinds are numbers that are told apart.
fn are_other_numbers(a: Kind, b: Kind) -> bool {
    match (a, b) {
        (Kind::Num(x), Kind::Num(y)) => are_apart(x, y),
        _ => false,
    }
}

/// Where two kinds have numbers that are not the same.
pub(crate) fn other_numbers(a: &Kinds, b: &Kinds) -> Locations {
    let mut found = Locations::NONE;
    for r in 0..11u8 {
        if are_other_numbers(a.registers[r as usize], b.registers[r as usize]) {
            found = found.with(Locations::register(r));
        }
    }
    for s in 0..64u32 {
        if are_other_numbers(a.slots[s as usize], b.slots[s as usize]) {
            found = found.with(Locations::slot(s));
        }
    }
    found
}
