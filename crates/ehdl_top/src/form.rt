// The forms of inputs, and how an input of any form is read.

ghost use Rattle.std.specs.Prelude.{◌≡◌, ℕ, List, [], IfOk, IfErr};
ghost use Rattle.capture_run.specs.States.{state_of, Changes};
ghost use Rattle.ehdl_top.specs.Forms.{InputForm};
ghost use Rattle.ehdl_top.specs.Status.{status_of};
ghost use Rattle.ehdl_top.specs.Steps.{IsGivenUp, IsUnread, IsRead};

use crate::error::CommandError;
use shelf_core::{FetchError, Shelf, fetch_all};
use std::alloc::Global;

/// A form of input.
pub(crate) trait Form {
    /// What is read of an input.
    type Value;

    ghost form: { Self → InputForm };

    /// What is read of these bytes.
    ghost Gives: { Self → List ℕ → Self.Value → Type 0 };

    /// The most bytes of an input.
    fn limit(&self) -> u64
        ensures { result ≡ (form self.now).limit };

    /// What a command is given up for where there are more.
    fn too_long(&self) -> CommandError
        ensures is { result ≡ (form self.now).too_long }
        ensures ends { (form self.now).Ends (status_of result) };

    /// Reads bytes in the form, or gives the first fault of others.
    fn read(&self, alloc: Global, bytes: &[u8]) -> Result<Self::Value, CommandError>
        ensures gives { IfOk result (Gives self.now bytes.now) }
        ensures fits { IfOk result (λ _. (form self.now).Fits bytes.now) }
        ensures given_up { IfErr result (IsGivenUp (form self.now) bytes.now) };
}

/// Reads the input that a name holds.
pub(crate) fn read_input<S: Shelf, F: Form>(
    alloc: Global,
    shelf: &mut S,
    name: &str,
    form: &F,
) -> Result<F::Value, CommandError>
    ensures read { IfOk result (λ value. (bytes : List ℕ) × IsRead (F.form form.now) name.now (state_of S.Shelf shelf.old) bytes × F.Gives form.now bytes value) }
    ensures unread { IfErr result (IsUnread (F.form form.now) name.now (state_of S.Shelf shelf.old) (state_of S.Shelf shelf.new)) }
    ensures kept { Changes [] (state_of S.Shelf shelf.old) (state_of S.Shelf shelf.new) }
{
    let bytes = match fetch_all(alloc, shelf, name, form.limit()) {
        Ok(bytes) => bytes,
        Err(FetchError::Failed) => return Err(CommandError::ReadFault),
        Err(FetchError::TooLong) => return Err(form.too_long()),
        Err(FetchError::NoMemory) => return Err(CommandError::NoMemory),
    };
    form.read(alloc, &bytes)
}
