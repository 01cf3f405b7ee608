// Bytes and tokens of an expression: classes, cutting, limits, spacing, and the product's one fault type.
#![tactic(auto)]

mod byte;
mod cutter;
mod cutting;
mod fault;
mod limits;
mod spacing;
mod token;

pub use byte::ByteClass;
pub use cutter::Cutter;
pub use fault::{Fault, FaultKind};
pub use limits::{MAX_EXPRESSION_BYTES, MAX_TOKENS, MAX_WORD_BYTES, check_expression};
pub use spacing::{needs_space, push_respaced};
pub use token::{Token, TokenKind};
