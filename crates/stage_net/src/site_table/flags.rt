//! Flags of cells.

ghost use Rattle.std.specs.Prelude.{◌≡◌};
ghost use Rattle.row_net.specs.Needed.{flag};

/// Whether a cell is flagged; past the last none is.
pub(crate) fn flag(flags: &[bool], cell: u32) -> bool
    ensures { result ≡ flag flags.now cell }
{
    let at = cell as usize;
    if at < flags.len() { flags[at] } else { false }
}
