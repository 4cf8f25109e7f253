// Texts of maps, and the maps that a command starts from.

ghost use Rattle.std.specs.Prelude.{◌≡◌, [], IfOk, IfErr};
ghost use Rattle.std.specs.Option.{option_copied};
ghost use Rattle.maps_text.specs.Text.{IsMapsText};
ghost use Rattle.capture_run.specs.States.{state_of, Changes};
ghost use Rattle.ehdl_top.specs.Forms.{maps_form};
ghost use Rattle.ehdl_top.specs.Steps.{AreDeclared, AreRead, AreUnread, IsGivenUp};

use crate::error::CommandError;
use crate::form::{Form, read_input};
use crate::limits::MAPS_LIMIT;
use maps_text::{MapsError, read_maps_text};
use shelf_core::Shelf;
use std::alloc::Global;
use std::marker::Model;
use xdp_maps::decl::MapDecl;
use xdp_maps::state::Maps;

/// A text of maps of these declarations, which are what is read. It is seen as the declarations.
#[derive(Drop)]
pub(crate) struct MapsForm<'a> {
    decls: &'a [MapDecl],
}

impl<'a> Model for MapsForm<'a> {
    ghost use Rattle.std.specs.Prelude.{List};
    ghost use Rattle.xdp_maps.specs.declared.decl.MapDecl.{MapDecl};
    ghost use Rattle.ehdl_top.specs.Steps.{AreDeclared};

    ghost Value = { List MapDecl };

    ghost view = { λ f. f.decls.now };

    ghost invariant = { λ f. AreDeclared f.decls.now };
}

impl Form for MapsForm<'_> {
    type Value = Maps;

    ghost form = { λ f. maps_form f };

    ghost Gives = { λ f bytes maps. IsMapsText f bytes maps };

    fn limit(&self) -> u64 {
        MAPS_LIMIT
    }

    fn too_long(&self) -> CommandError {
        CommandError::LongMaps
    }

    fn read(&self, alloc: Global, bytes: &[u8]) -> Result<Maps, CommandError> {
        read_text(alloc, self.decls, bytes)
    }
}

// The maps of these declarations of which bytes are a text.
fn read_text(alloc: Global, decls: &[MapDecl], text: &[u8]) -> Result<Maps, CommandError>
    requires { AreDeclared decls.now }
    ensures maps { IfOk result (IsMapsText decls.now text.now) }
    ensures given_up { IfErr result (IsGivenUp (maps_form decls.now) text.now) }
{
    match read_maps_text(alloc, decls, text) {
        Ok(maps) => Ok(maps),
        Err(MapsError::NoMemory) => Err(CommandError::NoMemory),
        Err(fault) => Err(CommandError::Maps(fault)),
    }
}

/// The maps of these declarations that a run starts from: those of the text that a name holds, and without a name those in which
/// nothing was written.
pub(crate) fn read_maps<S: Shelf>(
    alloc: Global,
    shelf: &mut S,
    name: Option<&str>,
    decls: &[MapDecl],
) -> Result<Maps, CommandError>
    requires { AreDeclared decls.now }
    ensures read { IfOk result (AreRead (option_copied name.entry) decls.now (state_of S.Shelf shelf.old)) }
    ensures unread { IfErr result (AreUnread (option_copied name.entry) decls.now (state_of S.Shelf shelf.old) (state_of S.Shelf shelf.new)) }
    ensures decls { IfOk result (λ maps. maps.decls ≡ decls.now) }
    ensures kept { Changes [] (state_of S.Shelf shelf.old) (state_of S.Shelf shelf.new) }
{
    match name {
        Some(name) => read_input(alloc, shelf, name, &MapsForm { decls }),
        None => Ok(Maps::new(alloc, decls)?),
    }
}
