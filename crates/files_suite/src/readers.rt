//! Readers of parts of inputs, called by themselves.

use anyhow::Result;
use btf_view::BtfView;
use pcap_core::Capture;
use std::alloc::Global;
use std::fmt::Write;

/// What the map definition of a variable says, or the first error.
pub(crate) fn fields(alloc: Global, types: &[u8], id: u32) -> Result<String> {
    let fields = match BtfView::open(types) {
        Ok(view) => view.map_fields(id),
        Err(error) => Err(error),
    };
    Ok(format!(in alloc; "{fields:?}")?)
}

/// What a capture gives when it is asked so many times for its next packet, or the fault of its header.
pub(crate) fn packets(alloc: Global, bytes: &[u8], count: u64) -> Result<String> {
    let mut capture = match Capture::open(bytes) {
        Ok(capture) => capture,
        Err(fault) => return Ok(format!(in alloc; "{fault:?}")?),
    };
    let mut said = format!(in alloc; "{:x}", capture.magic())?;
    for _ in 0..count {
        let next = capture.next();
        write!(said, " {next:?}")?;
    }
    Ok(said)
}
