//! Words of up to 64 bits, held in a `u64`: masks, fields, signs, byte order, and division and
//! shifts as RFC 9669 fixes them (section 4.1). Nothing here allocates.
#![tactic(auto)]

mod division;
mod fields;
mod signs;

pub use division::{div_s, div_u, mod_s, mod_u};
pub use fields::{join, mask, slice, swap};
pub use signs::{arsh, sext};
