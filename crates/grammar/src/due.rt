// What a place in an expression asks for.

// An operand is due at the start, after `(`, and after a prefix or an infix operator; otherwise an operator is.
#[derive(Clone, Copy, PartialEq, Eq)]
pub enum Due {
    Operand,
    Operator,
}
