// The limits of an expression as a whole, which are looked at before it is read.
ghost use Rattle.std.specs.Prelude.{◌≡◌, ◌<◌, ◌≤◌, List, [], ◌∷◌, ◌++◌, length, None, MatchBool, MatchResult, OnOk};
ghost use Rattle.std.specs.List.{AllByRecursion};
ghost use Rattle.tokens.specs.Faults.{fault};
ghost use Rattle.tokens.specs.InOrder.{Only};
ghost use Rattle.tokens.specs.Limits.{Lawful, FirstUnlawful, LongWord, LongWordIn, TokenLimits, Limits, WithinLimits};
ghost use Rattle.tokens.specs.Tokens.{Placed, placed, tokens_of};

use crate::byte::ByteClass;
use crate::cutter::Cutter;
use crate::fault::{Fault, FaultKind};
use crate::token::Token;

// The longest expression, in bytes.
pub const MAX_EXPRESSION_BYTES: usize = 4096;

// The most tokens of an expression.
pub const MAX_TOKENS: usize = 1024;

// The longest word, in bytes.
pub const MAX_WORD_BYTES: usize = 16;

// Refuses an unlawful byte, at its place: the first there is.
fn check_bytes(text: &[u8]) -> Result<(), Fault>
    ensures { MatchResult result (λ _. AllByRecursion Lawful text.now) (λ f. FirstUnlawful text.now f.place × (f ≡ fault FaultKind.UnlawfulByte f.place)) }
{
    // A loop over the bytes with their index, a form that the project fixes.
    for (place, byte) in text.iter().enumerate() {
        if ByteClass::of(*byte) == ByteClass::Unlawful {
            return Err(Fault {
                kind: FaultKind::UnlawfulByte,
                place,
            });
        }
    }
    Ok(())
}

// Whether the token is a word that is too long.
fn is_long_word(token: Token<'_>) -> bool
    ensures { MatchBool result (LongWord (placed token.entry)) (LongWord (placed token.entry) → ⊥) }
{
    matches!(token, Token::Word { bytes, .. } if bytes.len() > MAX_WORD_BYTES)
}

// Refuses a token too many, else a word that is too long: the first there is, at its place.
fn check_tokens(text: &[u8]) -> Result<(), Fault>
    ensures answer { TokenLimits text.now result }
    ensures within { OnOk result ((length (tokens_of text.now) ≤ 1024) × LongWordIn (tokens_of text.now) None) }
{
    // One walk over the tokens: two searches, `nth` and `find`, take more than twice the time.
    let mut long_word = None;
    for (count, token) in Cutter::new(text).enumerate() {
        if count == MAX_TOKENS {
            return Err(Fault {
                kind: FaultKind::TooManyTokens,
                place: token.place(),
            });
        }
        if is_long_word(token) {
            long_word = long_word.or(Some(token.place()));
        }
    }
    match long_word {
        Some(place) => Err(Fault {
            kind: FaultKind::WordTooLong,
            place,
        }),
        None => Ok(()),
    }
}

// The first limit that the expression passes, in this order: its bytes, an unlawful byte, its
// tokens, a word's length.
pub fn check_expression(text: &[u8]) -> Result<(), Fault>
    ensures answer { Only (Limits text.now) result }
    ensures within { OnOk result (WithinLimits text.now) }
{
    if text.len() > MAX_EXPRESSION_BYTES {
        return Err(Fault {
            kind: FaultKind::ExpressionTooLong,
            place: MAX_EXPRESSION_BYTES,
        });
    }
    check_bytes(text)?;
    check_tokens(text)
}
