//! Variables of the section `.maps`.

ghost use Rattle.std.specs.Prelude.{◌≡◌};
ghost use Rattle.xdp_object.specs.MapRecords.Variables.{variable_fields};

use crate::map_records::fault::{MapFault, MapRule};
use btf_view::{BtfView, MapFields};

/// The numbers that the type of a variable says, by the type information `btf`: the bytes of the section `.BTF`, or none
/// without one. It fails with the first error of the type information up to the variable; with `Absent`, where there is no
/// variable of this name; and with the first error of its definition.
#[tactic(auto, unfolding(crate::specs::MapRecords::Variables::variable_fields))]
pub fn variable_fields(btf: &[u8], name: &[u8]) -> Result<MapFields, MapFault>
    ensures { result ≡ variable_fields btf.now name.now }
{
    let view = match BtfView::open(btf) {
        Ok(view) => view,
        Err(error) => return Err(MapFault::Btf(error)),
    };
    let id = match view.find_var(name) {
        Ok(Some(id)) => id,
        Ok(None) => return Err(MapFault::Rule(MapRule::Absent)),
        Err(error) => return Err(MapFault::Btf(error)),
    };
    match view.map_fields(id) {
        Ok(fields) => Ok(fields),
        Err(error) => Err(MapFault::Btf(error)),
    }
}
