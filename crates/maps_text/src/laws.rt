//! Laws of texts of maps, as contracts of calls that do nothing.

ghost use Rattle.maps_text.specs.Laws.{HasOneMeaning, WrittenIsRead};

use xdp_maps::laws::{index_laws, keeps_over, pair_laws, same_by_lookups};

/// What is written is read back as the same maps.
pub fn written_is_read()
    ensures { WrittenIsRead }
{
    pair_laws();
    index_laws();
    keeps_over();
    same_by_lookups();
}

/// A text is one of no more than one maps.
pub fn has_one_meaning()
    ensures { HasOneMeaning }
{
    same_by_lookups();
}
