//! What stands for the answers of packets.

use cell_nets::operand::Operand;

/// A byte of an answer's frame that may be another one than that of the frame that came, and what stands for it.
#[derive(Clone, Copy, PartialEq, Eq, Debug)]
pub struct AnswerByte<N> {
    pub at: u8,
    pub operand: Operand<N>,
}

/// What stands for an answer: for its verdict, its target, and the bytes of its frame that may change.
#[derive(Drop)]
pub struct Outputs<N: Drop> {
    pub verdict: Operand<N>,
    pub target: Operand<N>,
    pub bytes: Vec<AnswerByte<N>>,
}
