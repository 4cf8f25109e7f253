//! The maps of a program as their blocks see them.

ghost use Rattle.std.specs.Prelude.{◌≡◌, ◌≤◌, All, IfOk, length};
ghost use Rattle.hazard_core.specs.xdp_maps.Contents.{IsWithinLimits};
ghost use Rattle.pipe_parts.specs.PipeDraft.PipelinePlan.{decls_of, AreForms};

use commit_net::map_block::{MapForm, form_of};
use hazard_core::cell_core::xdp_state::xdp_maps::decl::MapDecl;
use std::alloc::{AllocError, Global};

/// The forms of the maps that are declared, by their numbers.
pub(crate) fn forms_of(alloc: Global, decls: &[MapDecl]) -> Result<Vec<MapForm>, AllocError>
    requires few { length decls.now ≤ 16 }
    requires limits { All IsWithinLimits decls.now }
    ensures decls { IfOk result (λ forms. decls_of forms.items ≡ decls.now) }
    ensures forms { IfOk result (λ forms. AreForms forms.items) }
{
    let mut forms = Vec::new(alloc);
    for number in 0..decls.len() {
        let form = form_of(number as u8, &decls[number]);
        forms.push(form)?;
    }
    Ok(forms)
}
