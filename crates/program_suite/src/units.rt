//! Cases of instructions and their bytes.

use anyhow::{Result, bail};
use row_plan::cell_core::xdp_state::bpf_isa::{DecodeError, Insn, decode_all};
use std::alloc::{AllocError, Global};
use std::fmt::Write;

/// Adds a line for each instruction, by its fields.
pub(crate) fn push_insns(insns: &[Insn], out: &mut String) -> Result<(), AllocError> {
    for insn in insns {
        let (op, dst, src) = (insn.op, insn.dst, insn.src);
        let (offset, imm) = (insn.offset, insn.imm);
        write!(
            out,
            "\n| {op:?} dst {dst} src {src} offset {offset} imm {imm}"
        )?;
    }
    Ok(())
}

/// Adds the instructions of a text, or its error.
pub(crate) fn text(alloc: Global, code: &[u8], out: &mut String) -> Result<()> {
    match decode_all(alloc, code) {
        Ok(insns) => {
            write!(out, "{} instructions", insns.len())?;
            Ok(push_insns(&insns, out)?)
        }
        Err(DecodeError::NoMemory) => bail!("no memory"),
        Err(error) => Ok(write!(out, "{error:?}")?),
    }
}
