//! The sites that read a word of an entry, and those that may write.

ghost use Rattle.std.specs.Prelude.{◌≡◌, ◌<◌, ◌^◌, IfOk, length};
ghost use Rattle.hazard_core.specs.cell_core.Sites.{records};
ghost use Rattle.hazard_core.specs.cell_core.Sites as sites;
ghost use Rattle.hazard_core.specs.cell_core.View.{program_of};
ghost use Rattle.overlay_net.specs.ValueNet.Words.{answers_number};
ghost use Rattle.turn_net.specs.Actions.{record_sites};
ghost use Rattle.pipe_net.specs.PipePlaces.Layout.{load_sites};

use hazard_core::cell_core::program::CellProgram;
use hazard_core::cell_core::site::Act;
use hazard_core::site::site_at;
use std::alloc::{AllocError, Global};

// Whether an operation answers a number of the entry that it goes through. An atomic change that fetches nothing counts among these too.
fn answers_number(act: Act) -> bool
    ensures { result ≡ answers_number act }
{
    matches!(act, Act::Load(..) | Act::Atomic(..))
}

// Whether a site reads a word under its pointer.
fn is_load(program: &CellProgram, site: u32) -> bool
    requires { site < length program.now.sites.items }
    ensures { result ≡ answers_number (sites.site_at (program_of program.now).sites site).act }
{
    answers_number(site_at(program, site as usize).act)
}

// Whether a site may write.
fn is_record(program: &CellProgram, site: u32) -> bool
    requires { site < length program.now.sites.items }
    ensures { result ≡ records (sites.site_at (program_of program.now).sites site).act }
{
    site_at(program, site as usize).act.records()
}

/// The sites that read a word under their pointer.
pub(crate) fn load_sites(alloc: Global, program: &CellProgram) -> Result<Vec<u32>, AllocError>
    requires { length program.now.sites.items < 2 ^ 32 }
    ensures { IfOk result (λ sites. sites.items ≡ load_sites (program_of program.now)) }
{
    let mut sites = Vec::new(alloc);
    for j in 0..program.sites.len() as u32 {
        if is_load(program, j) {
            sites.push(j)?;
        }
    }
    Ok(sites)
}

/// The sites that may write.
pub(crate) fn record_sites(alloc: Global, program: &CellProgram) -> Result<Vec<u32>, AllocError>
    requires { length program.now.sites.items < 2 ^ 32 }
    ensures { IfOk result (λ sites. sites.items ≡ record_sites (program_of program.now)) }
{
    let mut sites = Vec::new(alloc);
    for j in 0..program.sites.len() as u32 {
        if is_record(program, j) {
            sites.push(j)?;
        }
    }
    Ok(sites)
}
