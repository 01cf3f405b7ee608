// Neighbours: which of two operators takes the operand between them.

// The operator on its left or the one on its right. Where neither may take it, there is no taker.
#[derive(Clone, Copy, PartialEq, Eq)]
pub enum Taker {
    Left,
    Right,
}
