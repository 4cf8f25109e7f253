//! The search for a variable.

ghost use Rattle.std.specs.Prelude.{◌≡◌, ◌+◌, ◌≤◌, length};
ghost use Rattle.btf_view.specs.Vars.{first_var, is_var};

use crate::error::BtfError;
use crate::kind::TypeKind;
use crate::read::{kind_at, record_size, u32_at};
use crate::strings::Strings;
use crate::types::Types;

/// Whether the type whose record begins at a place is a variable of this name.
#[tactic(auto, unfolding(crate::specs::Vars::is_var))]
fn is_var(types: &[u8], strings: &Strings<'_>, name: &[u8], at: usize) -> Result<bool, BtfError>
    requires { at + 12 ≤ length types.now }
    ensures { result ≡ is_var types.now strings.now name.now at }
{
    let Some(TypeKind::Var) = kind_at(types, at) else {
        return Ok(false);
    };
    let text = u32_at(types, at);
    if !strings.has_name(text) {
        return Err(BtfError::Short);
    }
    Ok(strings.is_named(text, name))
}

/// The number of the first variable of this name, if there is one.
#[tactic(auto, using(crate::proofs::Walks::walks), unfolding(crate::specs::Vars::first_var))]
pub fn first_var(
    types: &Types<'_>,
    strings: &Strings<'_>,
    name: &[u8],
) -> Result<Option<u32>, BtfError>
    ensures { result ≡ first_var types.now strings.now name.now }
{
    let bytes = types.bytes();
    let mut id = 0;
    let mut at = 0;
    while at < bytes.len() {
        id += 1;
        if is_var(bytes, strings, name, at)? {
            return Ok(Some(id));
        }
        at += record_size(bytes, at);
    }
    Ok(None)
}
