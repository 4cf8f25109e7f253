//! What is asked of an object.

/// Which program of an object is meant, and what is taken of its maps.
#[derive(Clone, Copy, PartialEq, Eq, Debug)]
pub struct Choice<'a> {
    /// The name of the program's function; without one, the only function in a section whose name begins with `xdp`.
    pub program: Option<&'a str>,
    /// The most keys of a hash, 1 to 1,024, whatever its declaration says. It serves no object without maps.
    pub hash_cap: u32,
}
