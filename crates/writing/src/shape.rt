// Shapes: what has to be known of a text to put brackets and spaces round it.
ghost use Rattle.std.specs.Prelude.{◌≡◌};
ghost use Rattle.notation.specs.Operators.{meant};
ghost use Rattle.grammar.specs.Reading.{kind_of_spelling};

use notation::Operator;
use tokens::{ByteClass, TokenKind, needs_space};

// Whether a spelling is a word or a symbol, which its first byte tells.
pub(crate) fn kind_of_spelling(spelling: &[u8]) -> TokenKind
    ensures { result ≡ kind_of_spelling spelling.now }
{
    let [byte, ..] = spelling else {
        return TokenKind::Symbol;
    };
    match ByteClass::of(*byte) {
        ByteClass::Word => TokenKind::Word,
        _ => TokenKind::Symbol,
    }
}

// The weights that a bracketed tree shows at its left and at its right, and of its text the pairs, the bytes, the tokens,
// and the kinds of its first and of its last token.
#[derive(Clone, Copy, PartialEq, Eq)]
pub struct Shape {
    pub left: u16,
    pub right: u16,
    pub pairs: u64,
    pub bytes: u64,
    pub tokens: u64,
    pub first: TokenKind,
    pub last: TokenKind,
}

impl Shape {
    ghost use Rattle.writing.specs.Shapes.{token_shape, joined, bracketed, sign_shape, left_operand, right_operand, prefixed_shape, postfixed_shape, infixed_shape};

    // What a list of shapes holds before any is worked out.
    pub const EMPTY: Shape = Shape {
        left: 0,
        right: 0,
        pairs: 0,
        bytes: 0,
        tokens: 0,
        first: TokenKind::Word,
        last: TokenKind::Word,
    };

    // Of one token of so many bytes.
    pub(crate) fn token(kind: TokenKind, length: usize) -> Shape
        ensures { result ≡ token_shape kind length }
    {
        Shape {
            left: 0,
            right: 0,
            pairs: u64::from(kind == TokenKind::Close),
            bytes: length as u64,
            tokens: 1,
            first: kind,
            last: kind,
        }
    }

    // Of the text and then the other, by the spacing rule.
    pub(crate) fn then(self, next: Shape) -> Shape
        ensures { result ≡ joined self next }
    {
        let space = u64::from(needs_space(self.last, next.first));
        Shape {
            left: self.left,
            right: next.right,
            pairs: self.pairs.saturating_add(next.pairs),
            bytes: self.bytes.saturating_add(space).saturating_add(next.bytes),
            tokens: self.tokens.saturating_add(next.tokens),
            first: self.first,
            last: next.last,
        }
    }

    // Of the text in a pair of brackets.
    pub(crate) fn bracketed(self) -> Shape
        ensures { result ≡ bracketed self }
    {
        Shape::token(TokenKind::Open, 1)
            .then(self)
            .then(Shape::token(TokenKind::Close, 1))
    }

    // Of an operator's spelling.
    fn sign(operator: Operator<'_>) -> Shape
        ensures { result ≡ sign_shape (meant operator.entry) }
    {
        Shape::token(kind_of_spelling(operator.spelling), operator.spelling.len())
    }

    // Of the operator's left operand: in a pair if its weight towards the operator is outside the limit.
    fn as_left(self, operator: Operator<'_>) -> Shape
        ensures { result ≡ left_operand (meant operator.entry) self }
    {
        if self.right <= operator.left_limit() {
            self
        } else {
            self.bracketed()
        }
    }

    // Of its right operand.
    fn as_right(self, operator: Operator<'_>) -> Shape
        ensures { result ≡ right_operand (meant operator.entry) self }
    {
        if self.left <= operator.right_limit() {
            self
        } else {
            self.bracketed()
        }
    }

    // Of the operator before its operand.
    pub(crate) fn prefixed(operator: Operator<'_>, operand: Shape) -> Shape
        ensures { result ≡ prefixed_shape (meant operator.entry) operand }
    {
        let operand = operand.as_right(operator);
        Shape {
            left: 0,
            right: operand.right.max(operator.priority),
            ..Shape::sign(operator).then(operand)
        }
    }

    // Of the operator after its operand.
    pub(crate) fn postfixed(operand: Shape, operator: Operator<'_>) -> Shape
        ensures { result ≡ postfixed_shape (meant operator.entry) operand }
    {
        let operand = operand.as_left(operator);
        Shape {
            left: operand.left.max(operator.priority),
            right: 0,
            ..operand.then(Shape::sign(operator))
        }
    }

    // Of the operator between its operands.
    pub(crate) fn infixed(first: Shape, operator: Operator<'_>, second: Shape) -> Shape
        ensures { result ≡ infixed_shape (meant operator.entry) first second }
    {
        let first = first.as_left(operator);
        let second = second.as_right(operator);
        Shape {
            left: first.left.max(operator.priority),
            right: second.right.max(operator.priority),
            ..first.then(Shape::sign(operator)).then(second)
        }
    }
}
