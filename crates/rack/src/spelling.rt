// What a name's sixteen bytes say: its word, whether it is proper, and whether two are the same.
ghost use Rattle.std.specs.Prelude.{◌≡◌, ◌≤◌, take, Some, MatchBool, ◌≢◌};
ghost use Rattle.std.specs.List.{AllByRecursion};
ghost use Rattle.tokens.specs.Tokens.{kind_of, WellFormed};
ghost use Rattle.tokens.specs.declared.token.TokenKind.TheVariants.{Word};
ghost use Rattle.rack.specs.Names.{ProperName, spelt};

use crate::name::{MAX_NAME_BYTES, Name};
use tokens::ByteClass;

// Whether all of the bytes are word bytes: letters, digits or underscores.
fn are_word_bytes(bytes: &[u8]) -> bool
    ensures { MatchBool result (AllByRecursion (λ b. kind_of b ≡ Some Word) bytes.now) (AllByRecursion (λ b. kind_of b ≡ Some Word) bytes.now → ⊥) }
{
    bytes
        .iter()
        .all(|&byte| ByteClass::of(byte) == ByteClass::Word)
}

// Whether the bytes are a word.
fn is_word(bytes: &[u8]) -> bool
    ensures { MatchBool result (WellFormed Word bytes.now) (WellFormed Word bytes.now → ⊥) }
{
    !bytes.is_empty() && are_word_bytes(bytes)
}

// Whether all of the bytes are zeros.
fn are_zeros(bytes: &[u8]) -> bool
    ensures { MatchBool result (AllByRecursion (λ b. b ≡ 0) bytes.now) (AllByRecursion (λ b. b ≡ 0) bytes.now → ⊥) }
{
    bytes.iter().all(|&byte| byte == 0)
}

impl Name {
    // Whether the two are the same name, byte by byte. A function beside `==`, a form that the project fixes.
    pub fn same(&self, other: &Name) -> bool
        ensures { MatchBool result (self.now ≡ other.now) (self.now ≢ other.now) }
    {
        self == other
    }

    // How many bytes stand before the first zero.
    fn word_len(&self) -> usize
        ensures within { result ≤ 16 }
        ensures spelt { take result self.now.bytes ≡ spelt self.now.bytes }
    {
        self.bytes
            .iter()
            .position(|&byte| byte == 0)
            .unwrap_or(MAX_NAME_BYTES)
    }

    // The name's word: the bytes before the first zero, or all sixteen if there is none.
    pub fn word(&self) -> &[u8]
        ensures { result.now ≡ spelt self.now.bytes }
    {
        &self.bytes[..self.word_len()]
    }

    // Whether the bytes are a word of 1 to 16 bytes and zeros after it.
    pub fn is_proper(&self) -> bool
        ensures { MatchBool result (ProperName self.now) (ProperName self.now → ⊥) }
    {
        let (word, unused) = self.bytes.split_at(self.word_len());
        is_word(word) && are_zeros(unused)
    }
}
