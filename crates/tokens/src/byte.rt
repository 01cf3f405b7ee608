// Byte classes: what a byte is in an expression.
ghost use Rattle.std.specs.Prelude.{◌≡◌};
ghost use Rattle.tokens.specs.Bytes.{class_of};
ghost use Rattle.tokens.specs.Tokens.{kind_in};

use crate::token::TokenKind;

// What a byte is in an expression. A byte of class `Unlawful` may not stand in one.
#[derive(Clone, Copy, PartialEq, Eq)]
pub enum ByteClass {
    Word,
    Symbol,
    Open,
    Close,
    Space,
    Unlawful,
}

impl ByteClass {
    // The class of the byte. The characters are written out, as in the rules, so that the one can be read beside the other.
    pub fn of(byte: u8) -> ByteClass
        ensures { result ≡ class_of byte }
    {
        match byte as char {
            'a'..='z' | 'A'..='Z' | '0'..='9' | '_' => ByteClass::Word,
            '!'
            | '#'
            | '$'
            | '%'
            | '&'
            | '*'
            | '+'
            | ','
            | '-'
            | '.'
            | '/'
            | ':'
            | ';'
            | '<'
            | '='
            | '>'
            | '?'
            | '@'
            | '\\'
            | '^'
            | '|'
            | '~' => ByteClass::Symbol,
            '(' => ByteClass::Open,
            ')' => ByteClass::Close,
            ' ' => ByteClass::Space,
            _ => ByteClass::Unlawful,
        }
    }

    // The kind of token that a byte of the class belongs to, if any.
    pub(crate) fn kind(self) -> Option<TokenKind>
        ensures { result ≡ kind_in self }
    {
        match self {
            ByteClass::Word => Some(TokenKind::Word),
            ByteClass::Symbol => Some(TokenKind::Symbol),
            ByteClass::Open => Some(TokenKind::Open),
            ByteClass::Close => Some(TokenKind::Close),
            ByteClass::Space | ByteClass::Unlawful => None,
        }
    }
}
