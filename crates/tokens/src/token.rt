// Tokens of an expression: words, symbols and the two brackets.
ghost use Rattle.std.specs.Prelude.{◌≡◌};
ghost use Rattle.tokens.specs.Tokens.{placed};

// The four kinds of token.
#[derive(Clone, Copy, PartialEq, Eq)]
pub enum TokenKind {
    Word,
    Symbol,
    Open,
    Close,
}

// A token of an expression: its bytes, borrowed from the expression, beside its place,
// the number of bytes before it.
// An enum, so that a match on a token names its kind and lends its bytes at once.
#[derive(Clone, Copy)]
pub enum Token<'a> {
    Word { place: usize, bytes: &'a [u8] },
    Symbol { place: usize, bytes: &'a [u8] },
    Open { place: usize, bytes: &'a [u8] },
    Close { place: usize, bytes: &'a [u8] },
}

impl<'a> Token<'a> {
    // The token of the kind with these bytes, at the place.
    pub(crate) fn new(kind: TokenKind, place: usize, bytes: &'a [u8]) -> Token<'a>
        ensures { placed result ≡ record { kind = kind; place = place; bytes = bytes.now } }
    {
        match kind {
            TokenKind::Word => Token::Word { place, bytes },
            TokenKind::Symbol => Token::Symbol { place, bytes },
            TokenKind::Open => Token::Open { place, bytes },
            TokenKind::Close => Token::Close { place, bytes },
        }
    }

    // Which of the four kinds it is.
    pub fn kind(self) -> TokenKind
        ensures { result ≡ (placed self.entry).kind }
    {
        match self {
            Token::Word { .. } => TokenKind::Word,
            Token::Symbol { .. } => TokenKind::Symbol,
            Token::Open { .. } => TokenKind::Open,
            Token::Close { .. } => TokenKind::Close,
        }
    }

    // The number of bytes before it in its expression.
    pub fn place(self) -> usize
        ensures { result ≡ (placed self.entry).place }
    {
        match self {
            Token::Word { place, .. }
            | Token::Symbol { place, .. }
            | Token::Open { place, .. }
            | Token::Close { place, .. } => place,
        }
    }

    // Its bytes.
    pub fn bytes(self) -> &'a [u8]
        ensures { result.now ≡ (placed self.entry).bytes }
    {
        match self {
            Token::Word { bytes, .. }
            | Token::Symbol { bytes, .. }
            | Token::Open { bytes, .. }
            | Token::Close { bytes, .. } => bytes,
        }
    }
}
