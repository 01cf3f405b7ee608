// The spacing rule: one space stands between two tokens exactly when both are words or both are symbols.
ghost use Rattle.std.specs.Prelude.{◌≡◌, ◌+◌, ◌≤◌, true, ◌++◌, length, is_ok, IfOk, if◌then◌else◌, vec_len, vec_capacity};
ghost use Rattle.tokens.specs.Tokens.{placed, together};
ghost use Rattle.tokens.specs.Spacing.{between, closes, lexemes_of, respaced, pairs_of, SpacingKeepsTokens};

use crate::cutter::Cutter;
use crate::token::{Token, TokenKind};
use std::alloc::AllocError;

// Whether a space stands between two tokens of these kinds, one right after the other.
pub fn needs_space(left: TokenKind, right: TokenKind) -> bool
    ensures { result ≡ together left right }
{
    left == right && matches!(left, TokenKind::Word | TokenKind::Symbol)
}

// Appends the space, if there is one, between a token of kind `last`, if any, and one of kind `next`.
fn push_between(out: &mut Vec<u8>, last: Option<TokenKind>, next: TokenKind)
    requires { vec_len out.old + length (between last next) ≤ vec_capacity out.old }
    ensures bytes { out.new.items ≡ out.old.items ++ between last next }
    ensures capacity { vec_capacity out.new ≡ vec_capacity out.old }
{
    if last.is_some_and(|kind| needs_space(kind, next)) {
        out.push_reserved(b' ');
    }
}

// Appends a token that comes after one of kind `last`, if any, where there is room for it. What calls that append say of the
// buffer is a fact about it before and after, and of no value of a type here.
fn push_token(out: &mut Vec<u8>, last: Option<TokenKind>, token: Token<'_>)
    requires { vec_len out.old + length (between last (placed token).kind ++ (placed token).bytes) ≤ vec_capacity out.old }
    ensures bytes { out.new.items ≡ out.old.items ++ (between last (placed token.entry).kind ++ (placed token.entry).bytes) }
    ensures capacity { vec_capacity out.old ≤ vec_capacity out.new }
{
    push_between(out, last, token.kind());
    // There is room, so this is always `Ok`.
    let _ = out.extend_from_slice(token.bytes());
}

// How many pairs of brackets a token of this kind closes: a `)` one, any other none.
fn pairs_closed(kind: TokenKind) -> usize
    ensures { result ≡ closes kind }
{
    usize::from(kind == TokenKind::Close)
}

// Appends the tokens of the expression by the spacing rule, and answers its pairs of brackets.
// Without the memory for `text.len()` bytes more it leaves `out` as it is.
pub fn push_respaced(out: &mut Vec<u8>, text: &[u8]) -> Result<usize, AllocError>
    ensures bytes { out.new.items ≡ (if is_ok result then out.old.items ++ respaced text.now else out.old.items) }
    ensures law { SpacingKeepsTokens }
    ensures tokens { lexemes_of (respaced text.now) ≡ lexemes_of text.now }
    ensures pairs { IfOk result (λ n. n ≡ pairs_of text.now) }
    ensures capacity { vec_capacity out.old ≤ vec_capacity out.new }
    ensures succeeds { vec_len out.old + length text.now ≤ vec_capacity out.old → is_ok result ≡ true }
{
    out.reserve(text.len())?;
    // A loop: a fold would carry `out`, the kind before and the count as one tuple, and read no plainer.
    let mut last = None;
    let mut pairs = 0;
    for token in Cutter::new(text) {
        push_token(out, last, token);
        let kind = token.kind();
        pairs += pairs_closed(kind);
        last = Some(kind);
    }
    Ok(pairs)
}
