//! Cases of the sequential machine.

use anyhow::Result;
use byteorder::{ByteOrder, LittleEndian};
use row_plan::cell_core::xdp_state::beat_core::{Frame, Meta};
use row_plan::cell_core::xdp_state::xdp_maps::state::Maps;
use std::alloc::{AllocError, Global};
use std::fmt::Write;
use xdp_object::Program;
use xdp_seq::{Ended, SeqError, SeqPlan, run_packet};

/// Runs a program over a frame, and adds how it ends.
pub(crate) fn run(
    alloc: Global,
    program: &Program,
    maps: &mut Maps,
    frame: &mut Frame,
    meta: Meta,
    out: &mut String,
) -> Result<()> {
    let mut plan = SeqPlan::open(alloc, program)?;
    match run_packet(&mut plan, maps, frame, meta) {
        Ok(Ended { verdict, target }) => write!(out, "verdict {verdict}, target {target}")?,
        Err(SeqError::Stuck { at }) => write!(out, "stuck at {at}")?,
        Err(SeqError::Spent { at }) => write!(out, "spent at {at}")?,
    }
    Ok(())
}

/// Adds the digits of a frame.
pub(crate) fn push_digits(bytes: &[u8], out: &mut String) -> Result<(), AllocError> {
    out.push_str(", frame ")?;
    for byte in bytes {
        write!(out, "{byte:02x}")?;
    }
    Ok(())
}

/// Adds the numbers of 8 bytes that a frame has.
pub(crate) fn push_numbers(bytes: &[u8], out: &mut String) -> Result<(), AllocError> {
    out.push(',')?;
    for number in bytes.chunks_exact(8) {
        write!(out, " {:#x}", LittleEndian::read_u64(number))?;
    }
    Ok(())
}
