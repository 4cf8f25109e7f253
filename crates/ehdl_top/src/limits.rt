// The sizes of inputs.

/// The most bytes of an object.
pub const OBJECT_LIMIT: u64 = 1_048_576;

/// The most bytes of a Verilog text that is read.
pub const VERILOG_LIMIT: u64 = 1_073_741_824;

/// The most bytes of a text of maps.
pub const MAPS_LIMIT: u64 = 67_108_864;
