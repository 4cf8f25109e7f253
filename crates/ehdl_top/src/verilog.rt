// Verilog texts.

ghost use Rattle.std.specs.Prelude.{◌≡◌, IfOk, IfErr};
ghost use Rattle.net_core.specs.View.{netlist_of};
ghost use Rattle.ehdl_top.specs.Forms.{IsTextOf, text_form};
ghost use Rattle.ehdl_top.specs.Steps.{TextStops};

use crate::error::CommandError;
use crate::form::Form;
use crate::limits::VERILOG_LIMIT;
use net_core::design::Design;
use std::alloc::Global;
use verilog_read::{ReadError, read_text};

/// A text that spells a design, which is what is read.
#[derive(Clone, Copy)]
pub(crate) struct TextForm;

impl Form for TextForm {
    type Value = Design;

    ghost form = { λ _. text_form };

    ghost Gives = { λ _ bytes design. IsTextOf bytes (netlist_of design) };

    fn limit(&self) -> u64 {
        VERILOG_LIMIT
    }

    fn too_long(&self) -> CommandError {
        CommandError::LongVerilog
    }

    fn read(&self, alloc: Global, bytes: &[u8]) -> Result<Design, CommandError> {
        read_verilog(alloc, bytes)
    }
}

/// The one design that a text spells.
pub(crate) fn read_verilog(alloc: Global, text: &[u8]) -> Result<Design, CommandError>
    ensures design { IfOk result (λ design. IsTextOf text.now (netlist_of design)) }
    ensures stops { IfErr result (TextStops text.now) }
{
    match read_text(alloc, text) {
        Ok(design) => Ok(design),
        Err(ReadError::NoMemory) => Err(CommandError::NoMemory),
        Err(fault) => Err(CommandError::Verilog(fault)),
    }
}
