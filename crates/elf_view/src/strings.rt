//! The string table of a small object.

ghost use Rattle.std.specs.Prelude.{◌≡◌, ◌^◌, ◌<◌, ◌++◌, length, OnOk};
ghost use Rattle.elf_view.specs.Layout.{map_strings, strings, text};

use crate::object::MapRecord;
use std::alloc::AllocError;

/// Puts a string and the zero byte that ends it.
#[tactic(auto, unfolding(crate::specs::Layout::text))]
fn put_text(out: &mut Vec<u8>, string: &str) -> Result<(), AllocError>
    ensures { OnOk result (out.new.items ≡ out.old.items ++ text string.now) }
{
    out.extend_from_slice(string.as_bytes())?;
    out.push(0)?;
    Ok(())
}

/// How long the string table is.
#[tactic(auto, using(crate::proofs::Loops::loop_steps))]
pub fn strings_len(name: &str, maps: &[MapRecord<'_>]) -> usize
    requires { length (strings name.now maps.now) < 2 ^ 32 }
    ensures { result ≡ length (strings name.now maps.now) }
{
    if maps.is_empty() {
        return 22 + name.len();
    }
    let mut len = 35 + name.len();
    for map in maps {
        len += map.name.len() + 1;
    }
    len
}

/// Puts the string table.
pub fn put_strings(out: &mut Vec<u8>, name: &str, maps: &[MapRecord<'_>]) -> Result<(), AllocError>
    ensures { OnOk result (out.new.items ≡ out.old.items ++ strings name.now maps.now) }
{
    put_text(out, "")?;
    put_text(out, "xdp")?;
    put_text(out, ".symtab")?;
    put_text(out, ".strtab")?;
    put_text(out, name)?;
    put_map_strings(out, maps)
}

/// Puts the names that only an object with maps has.
fn put_map_strings(out: &mut Vec<u8>, maps: &[MapRecord<'_>]) -> Result<(), AllocError>
    ensures { OnOk result (out.new.items ≡ out.old.items ++ map_strings maps.now) }
{
    if maps.is_empty() {
        return Ok(());
    }
    put_text(out, "maps")?;
    put_text(out, ".relxdp")?;
    for map in maps {
        put_text(out, map.name)?;
    }
    Ok(())
}
