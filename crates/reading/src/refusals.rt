// Refusals: the fault of a token that fails, and of an end that does. Functions, and no methods of `Reading`: they ask only of a
// notation and a token, and change nothing.
ghost use Rattle.std.specs.Prelude.{◌≡◌};
ghost use Rattle.tokens.specs.Tokens.{lexeme, placed};
ghost use Rattle.grammar.specs.Refusals.{fault_at, fault_at_end, fault_for_operator, is_unlisted_symbol};

use grammar::Due;
use notation::{Notation, Position};
use tokens::{FaultKind, Token};

// Whether the token is a symbol that the notation lists in neither position.
fn is_unlisted_symbol<N: Notation>(notation: &N, token: Token<'_>) -> bool
    ensures { result ≡ is_unlisted_symbol (N.table notation.now) (placed token.entry).kind (placed token.entry).bytes }
{
    match token {
        Token::Symbol { bytes, .. } => notation.listed(Position::Before, bytes).is_none()
            && notation.listed(Position::After, bytes).is_none(),
        Token::Word { .. } | Token::Open { .. } | Token::Close { .. } => false,
    }
}

// The fault of a token that fails where an operator is due.
fn fault_for_operator<N: Notation>(notation: &N, token: Token<'_>) -> FaultKind
    ensures { result ≡ fault_for_operator (N.table notation.now) (placed token.entry).kind (placed token.entry).bytes }
{
    match token {
        Token::Word { bytes, .. } | Token::Symbol { bytes, .. } => {
            if notation.listed(Position::After, bytes).is_some() {
                FaultKind::PriorityClash
            } else {
                FaultKind::OperatorExpected
            }
        }
        Token::Open { .. } => FaultKind::OperatorExpected,
        Token::Close { .. } => FaultKind::UnmatchedBracket,
    }
}

// The fault of a token that fails where this is due.
pub(crate) fn fault_at<N: Notation>(notation: &N, due: Due, token: Token<'_>) -> FaultKind
    ensures { result ≡ fault_at (N.table notation.now) due (lexeme (placed token.entry)) }
{
    if is_unlisted_symbol(notation, token) {
        return FaultKind::UnlistedSymbol;
    }
    match due {
        Due::Operand => FaultKind::OperandExpected,
        Due::Operator => fault_for_operator(notation, token),
    }
}

// The fault of an end that fails where this is due.
pub(crate) fn fault_at_end(due: Due) -> FaultKind
    ensures { result ≡ fault_at_end due }
{
    match due {
        Due::Operand => FaultKind::OperandExpected,
        Due::Operator => FaultKind::UnmatchedBracket,
    }
}
