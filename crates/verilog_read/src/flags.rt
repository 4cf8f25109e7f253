//! Flags by number: none is up beyond the last.

ghost use Rattle.std.specs.Prelude.{◌≡◌, ◌==◌, OnOk};
ghost use Rattle.verilog_read.specs.View.{Raises, is_up};

use std::alloc::AllocError;

/// Whether a flag is up.
pub(crate) fn is_up(flags: &[bool], k: usize) -> bool
    ensures { result ≡ is_up flags.now k }
{
    match flags.get(k) {
        Some(flag) => *flag,
        None => false,
    }
}

/// Puts a flag up.
pub(crate) fn raise(flags: &mut Vec<bool>, k: u32) -> Result<(), AllocError>
    ensures { OnOk result (Raises flags.old.items flags.new.items (λ j. k == j)) }
{
    let place = k as usize;
    while flags.len() <= place {
        flags.push(false)?;
    }
    flags[place] = true;
    Ok(())
}
