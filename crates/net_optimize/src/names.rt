//! The names of designs, also of one of which some wires and registers are dropped.

use net_core::design::{Declared, Design};
use std::alloc::{AllocError, Global};

/// One name more.
pub(crate) fn push_name(
    alloc: Global,
    all: &mut Vec<String>,
    name: &str,
) -> Result<(), AllocError> {
    let name = String::from_str(alloc, name)?;
    Ok(all.push(name)?)
}

/// The same names.
pub(crate) fn copied_names(alloc: Global, names: &[String]) -> Result<Vec<String>, AllocError> {
    let mut all = Vec::new(alloc);
    for name in names {
        push_name(alloc, &mut all, name)?;
    }
    Ok(all)
}

/// The names of ports, of what stays of what is declared, and of so many wires. Registers that are dropped lose theirs, and so do the last
/// wires.
pub(crate) fn kept_names(
    alloc: Global,
    design: &Design,
    keep: &[bool],
    wires: usize,
) -> Result<Vec<String>, AllocError> {
    let mut all = Vec::new(alloc);
    let ports = design.ports.len();
    let first_wire = ports.saturating_add(design.declared.len());
    let mut at: usize = 0;
    let mut register: usize = 0;
    for name in &design.names {
        let mut stays = at < first_wire.saturating_add(wires);
        if ports <= at
            && let Some(Declared::Register(_)) = design.declared.get(at.saturating_sub(ports))
        {
            stays = keep.get(register).copied().unwrap_or(false);
            register = register.saturating_add(1);
        }
        if stays {
            push_name(alloc, &mut all, name)?;
        }
        at = at.saturating_add(1);
    }
    Ok(all)
}
