//! Why bytes are no object of one program.

use crate::map_records::MapRule;
use btf_view::BtfError;
use elf_view::ElfError;
use std::alloc::{AllocError, AllocFailed};
use thiserror::Error;

/// Why there is no program. The faults are asked for in the order of the variants, but that each map has its turn: its rules and the type information that it needs come before the next map's.
#[derive(Clone, Copy, Debug, PartialEq, Eq, Error)]
pub enum ObjectError {
    /// The object has more than 1,048,576 bytes.
    #[error("the object has more than 1048576 bytes")]
    Long,
    /// It is no ELF64 object for eBPF; or the function's name, its section, or a section of its relocations is broken.
    #[error("{0}")]
    Elf(ElfError),
    /// No function is asked for.
    #[error("no function is asked for")]
    NoProgram,
    /// So many functions are asked for.
    #[error("{count} functions are asked for")]
    ManyPrograms { count: u32 },
    /// The function is not made of whole units of 8 bytes.
    #[error("the function is not made of whole units")]
    Odd,
    /// No instruction begins at this unit of the function, the first where one has to.
    #[error("no instruction at unit {at}")]
    Bad { at: u64 },
    /// The relocation of this unit of the function is not known.
    #[error("an unknown relocation at unit {at}")]
    Relocation { at: u64 },
    /// The map that this symbol stands for breaks a rule.
    #[error("the map of symbol {symbol}: {rule}")]
    Map { symbol: u32, rule: MapRule },
    /// The type information of the maps cannot be read, or tells no map.
    #[error("{0}")]
    Btf(BtfError),
    #[error("out of memory")]
    NoMemory,
}

impl From<AllocError> for ObjectError {
    ghost use Rattle.std.specs.Prelude.{◌≡◌};
    ghost use Rattle.xdp_object.specs.declared.error.ObjectError.TheVariants.{NoMemory};

    ghost from_gives = { λ _ e. e ≡ NoMemory };

    fn from(_: AllocError) -> ObjectError {
        ObjectError::NoMemory
    }
}

impl<T: Drop> From<AllocFailed<T>> for ObjectError {
    ghost use Rattle.std.specs.Prelude.{◌≡◌};
    ghost use Rattle.xdp_object.specs.declared.error.ObjectError.TheVariants.{NoMemory};

    ghost from_gives = { λ _ e. e ≡ NoMemory };

    fn from(_failed: AllocFailed<T>) -> ObjectError {
        ObjectError::NoMemory
    }
}
