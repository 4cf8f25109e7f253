//! The object.

ghost use Rattle.std.specs.Prelude.{IfOk};
ghost use Rattle.flow_demo.specs.Program.{IsDemoObject};

use crate::listing::{LISTING, code_of};
use elf_view::{MapRecord, object_of};
use std::alloc::{AllocError, Global};
use xdp_object::laws::{keeps_numbers, reads_program};

/// The hash `flow`: its type (1), the sizes of its keys and values, how many entries there can be, no flags.
const FLOW: MapRecord = MapRecord {
    name: "flow",
    words: [1, 4, 8, 64, 0],
};

/// The places that refer to it.
const REFERENCES: [(u32, u32); 2] = [(10, 0), (16, 0)];

/// The bytes of the object.
pub(crate) fn demo_object(alloc: Global) -> Result<Vec<u8>, AllocError>
    ensures { IfOk result (λ object. IsDemoObject object.items) }
{
    reads_program();
    keeps_numbers();
    let code = code_of(alloc, &LISTING)?;
    object_of(alloc, "demo", &code, &[FLOW], &REFERENCES)
}
