//! What a packet holds, row by row: its pointers point at slots that there are and at entries that its own earlier updates are to make, and
//! after a row each cell of the row is as it is made. There is no code but for the laws.

pub mod laws;
