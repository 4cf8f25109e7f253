// The whole of what a name holds.

ghost use Rattle.std.specs.Prelude.{◌≡◌, ◌+◌, ◌≤◌, vec_len, Some, IfOk, IsErrOf, IsTrue};
ghost use Rattle.shelf_core.specs.Shelf.{Rose, NoneFell, SameHeld, IsLonger};

use crate::outside::{Failed, Shelf};
use std::alloc::{AllocError, Global};
use thiserror::Error;

/// Why a name was not fetched.
#[derive(Clone, Copy, PartialEq, Eq, Debug, Error)]
pub enum FetchError {
    /// A read failed, or the name is not there.
    #[error("a read failed")]
    Failed,
    /// The limit was read, and one byte more came.
    #[error("there is more than the limit")]
    TooLong,
    #[error("out of memory")]
    NoMemory,
}

/// How many bytes are asked for at once.
const BLOCK: usize = 65536;

/// All bytes that a name holds, if they are at most `limit`.
pub fn fetch_all<S: Shelf>(
    alloc: Global,
    shelf: &mut S,
    name: &str,
    limit: u64,
) -> Result<Vec<u8>, FetchError>
    ensures whole { IfOk result (λ v. IsTrue (S.tells shelf.old) → S.held shelf.old name.now ≡ Some v.items) }
    ensures within { IfOk result (λ v. vec_len v ≤ limit) }
    ensures failed { IsErrOf result FetchError.Failed → Rose (S.read_faults shelf.old name.now) (S.read_faults shelf.new name.now) }
    ensures too_long { IsErrOf result FetchError.TooLong → IsTrue (S.tells shelf.old) → IsLonger limit (S.held shelf.old name.now) }

    // It ends after at most one read for each byte of the limit, and one more.
    ensures made { S.made shelf.new ≤ S.made shelf.old + limit + 1 }

    // Reading changes no content.
    ensures held { SameHeld (S.held shelf.old) (S.held shelf.new) }
    ensures tells { S.tells shelf.new ≡ S.tells shelf.old }
    ensures reads { NoneFell (S.read_faults shelf.old) (S.read_faults shelf.new) }
    ensures writes { NoneFell (S.write_faults shelf.old) (S.write_faults shelf.new) }
{
    let mut all = Vec::new(alloc);
    let mut block = zeros(alloc, BLOCK).map_err(|_| FetchError::NoMemory)?;
    loop {
        let n = shelf
            .read_at(name, all.len() as u64, &mut block)
            .map_err(|_| FetchError::Failed)?;
        if n == 0 {
            return Ok(all);
        }
        if n as u64 > limit - all.len() as u64 {
            return Err(FetchError::TooLong);
        }
        all.extend_from_slice(&block[..n])
            .map_err(|_| FetchError::NoMemory)?;
    }
}

fn zeros(alloc: Global, len: usize) -> Result<Vec<u8>, AllocError>
    ensures { IfOk result (λ v. vec_len v ≡ len) }
{
    vec![in alloc; 0; len]
}
