//! The declaration of a map, by what an object says of it: by a record of the section `maps`, or by a variable of the
//! section `.maps` and its type.

mod declaration;
mod fault;
mod record;
mod variable;

pub use crate::map_records::declaration::declare;
pub use crate::map_records::fault::{MapFault, MapRule};
pub use crate::map_records::record::record_fields;
pub use crate::map_records::variable::variable_fields;
