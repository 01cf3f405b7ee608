// Cutting: how the cutter goes on from token to token.
ghost use Rattle.std.specs.Prelude.{◌≡◌, ◌≢◌, ◌+◌, ◌≤◌, length, take, drop, slice_get, IfSome};
ghost use Rattle.std.specs.List.{AllByRecursion};
ghost use Rattle.tokens.specs.Tokens.{kind_of, tokens_of, Tokens};
ghost use Rattle.tokens.specs.Cutters.{ahead, Next};
ghost use Rattle.std.specs.Iterator.{at_most};

use crate::byte::ByteClass;
use crate::cutter::Cutter;
use crate::token::{Token, TokenKind};

impl<'a> Cutter<'a> {
    // A cutter at the start of the expression.
    pub fn new(text: &'a [u8]) -> Cutter<'a>
        ensures ahead { ahead result ≡ tokens_of text.now }
        ensures tokens { Tokens text.now (ahead result) }
    {
        Cutter {
            rest: text,
            place: 0,
        }
    }

    // Cuts that many bytes off what is left.
    fn cut(&mut self, len: usize) -> &'a [u8]
        requires { len ≤ length self.old.rest.now }
        ensures bytes { result.now ≡ take len self.old.rest.now }
        ensures rest { self.new.rest.now ≡ drop len self.old.rest.now }
        ensures place { self.new.place ≡ self.old.place + len }
    {
        let (bytes, rest) = self.rest.split_at(len);
        *self = Cutter {
            rest,
            place: self.place + len,
        };
        bytes
    }
}

// How many bytes at the front belong to tokens of the kind, or to no token if there is no kind.
fn run_len(bytes: &[u8], kind: Option<TokenKind>) -> usize
    ensures within { result ≤ length bytes.now }
    ensures alike { AllByRecursion (λ b. kind_of b ≡ kind) (take result bytes.now) }
    ensures longest { IfSome (slice_get (drop result bytes.now) 0) (λ b. kind_of b ≢ kind) }
{
    bytes
        .iter()
        .take_while(|byte| ByteClass::of(**byte).kind() == kind)
        .count()
}

impl<'a> Iterator for Cutter<'a> {
    type Item = Token<'a>;

    ghost next_gives = { λ s r t. Next s r t };

    ghost remaining = { λ s. at_most (length (ahead s)) };

    // The next token, or none where only separators are left. Its first byte is classed once: with the separators cut off before
    // it is looked at, a text of brackets takes up to twice as many instructions. A run of words or of symbols has a call of its
    // own, for a kind that stands there: by one call for both, a long run takes a fifth more. Inlined, as most tokens are short.
    #[inline(always)]
    fn next(&mut self) -> Option<Token<'a>> {
        while let Some((first, more)) = self.rest.split_first() {
            let Some(kind) = ByteClass::of(*first).kind() else {
                self.cut(1 + run_len(more, None));
                continue;
            };
            let len = match kind {
                TokenKind::Word => 1 + run_len(more, Some(TokenKind::Word)),
                TokenKind::Symbol => 1 + run_len(more, Some(TokenKind::Symbol)),
                TokenKind::Open | TokenKind::Close => 1,
            };
            let place = self.place;
            let bytes = self.cut(len);
            return Some(Token::new(kind, place, bytes));
        }
        None
    }
}
