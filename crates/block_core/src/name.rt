//! What blocks call the nets of a design.

ghost use Rattle.std.specs.Prelude.{◌≡◌, ℕ};

/// A net of a design that is made of parts: a port by its place in the list of ports, or a net of a part by its number
/// among its like there.
#[derive(Clone, Copy, PartialEq, Eq, Debug)]
pub enum Name<P> {
    Port(u32),
    Register(P, u32),
    Memory(P, u32),
    Wire(P, u32),
}

/// A part of a design, as an enum of all parts.
pub trait Part: Copy {
    /// Where the part stands among the parts.
    ghost place: { Self → ℕ };

    /// Where the part stands among the parts of its design, from 0 on.
    fn place(self) -> usize
        ensures { result ≡ place self };
}
