//! The trees of a design: expressions, right sides of wires, statements.
//!
//! What names a net is a parameter `N`: a design's trees use [`Net`], and a part of a design that is built
//! apart may use names of its own.

/// A number below 2 to its width, and that width in bits.
#[derive(Clone, Copy, PartialEq, Eq, Debug)]
pub struct Word {
    pub width: u8,
    pub value: u64,
}

/// An operator between two operands (IEEE 1364-2005, 5.1).
#[derive(Clone, Copy, PartialEq, Eq, Debug)]
pub enum Op {
    Add,
    Sub,
    Mul,
    And,
    Or,
    Xor,
    ShiftLeft,
    ShiftRight,
    Equal,
    NotEqual,
    Less,
    LessEqual,
    Greater,
    GreaterEqual,
}

/// An operator before one operand: `~`, each bit turned, and `|`, the reduction by or: whether any bit is 1.
#[derive(Clone, Copy, PartialEq, Eq, Debug)]
pub enum UnaryOp {
    Not,
    ReduceOr,
}

/// A net of a design: a port by its place in the list of ports, and the others by their number among their like,
/// in order of declaration.
#[derive(Clone, Copy, PartialEq, Eq, Debug)]
pub enum Net {
    Port(u32),
    Register(u32),
    Memory(u32),
    Wire(u32),
}

/// An expression.
#[derive(Drop)]
#[cycle(expr)]
pub enum Expr<N: Drop> {
    Const(Word),
    Read(N),
    /// One bit of a net.
    Bit(N, u8),
    /// The bits of a net from a high one down to a low one.
    PartSelect(N, u8, u8),
    /// The word of a memory at an index.
    MemoryWord(N, Box<Expr<N>>),
    Unary(UnaryOp, Box<Expr<N>>),
    Binary(Op, Box<Expr<N>>, Box<Expr<N>>),
    Conditional(Box<Expr<N>>, Box<Expr<N>>, Box<Expr<N>>),
    /// A concatenation, the highest bits first.
    Concatenation(Box<Parts<N>>),
}

/// The expressions of a concatenation, one or more.
#[cycle(expr)]
pub enum Parts<N: Drop> {
    Last(Expr<N>),
    More(Expr<N>, Box<Parts<N>>),
}

// A loop, since a text may have as many parts as it is long.
impl<N: Drop> Drop for Parts<N> {
    #[cycle(drop_parts)]
    fn drop(mut self) {
        loop {
            match self {
                Parts::Last(_) => return,
                Parts::More(_, rest) => self = Box::into_inner(rest),
            }
        }
    }
}

/// The right side of a wire.
#[derive(Drop)]
pub enum Right<N: Drop> {
    Plain(Expr<N>),
    Quotient(N, N),
    Remainder(N, N),
}

/// A statement of an always block. What it sets is a register or a memory, by its number among its like.
#[derive(Drop)]
#[cycle(stmt)]
pub enum Stmt<N: Drop> {
    Block(Box<Stmts<N>>),
    If(Expr<N>, Box<Stmt<N>>),
    IfElse(Expr<N>, Box<Stmt<N>>, Box<Stmt<N>>),
    Set(u32, Expr<N>),
    /// A memory, an index and the word that is stored there.
    Store(u32, Expr<N>, Expr<N>),
}

/// The statements between `begin` and `end`.
#[cycle(stmt)]
pub enum Stmts<N: Drop> {
    End,
    Then(Stmt<N>, Box<Stmts<N>>),
}

// A loop, since a text may have as many statements as it is long.
impl<N: Drop> Drop for Stmts<N> {
    #[cycle(drop_statements)]
    fn drop(mut self) {
        loop {
            match self {
                Stmts::End => return,
                Stmts::Then(_, rest) => self = Box::into_inner(rest),
            }
        }
    }
}
