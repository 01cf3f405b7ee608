// Putting: the tokens of a tree go to an outlet, each whole in one Put, with blanks by the spacing rule.
ghost use Rattle.std.specs.Prelude.{◌≡◌, [], ◌∷◌, Some};
ghost use Rattle.grammar.specs.Reading.{kind_of_spelling, sign};
ghost use Rattle.writing.specs.Puts.{label, token_puts, put_all, PutsTo};

use crate::outlet::Outlet;
use crate::put_kind::PutKind;
use crate::shape::kind_of_spelling;
use notation::Operator;
use tokens::{Fault, TokenKind, needs_space};

// Puts a token after one of kind `last`, if there is one, with a blank between them where the rule wants it. Answers the
// token's kind.
pub(crate) fn put_token<O: Outlet>(
    outlet: &mut O,
    last: Option<TokenKind>,
    kind: PutKind,
    token: TokenKind,
    bytes: &[u8],
) -> Result<TokenKind, Fault>
    ensures answer { PutsTo token (put_all O.rule (token_puts last (label kind (record { kind = token; bytes = bytes.now }) ∷ [])) (Some (O.holding outlet.old))) (O.holding outlet.new) result }
    ensures kept { O.kept outlet.new ≡ O.kept outlet.old }
{
    if let Some(last) = last {
        if needs_space(last, token) {
            outlet.put(PutKind::Blank, b" ")?;
        }
    }
    outlet.put(kind, bytes)?;
    Ok(token)
}

// Puts an operator's spelling.
pub(crate) fn put_sign<O: Outlet>(
    outlet: &mut O,
    last: Option<TokenKind>,
    operator: Operator<'_>,
) -> Result<TokenKind, Fault>
    ensures answer { PutsTo (kind_of_spelling operator.entry.spelling.now) (put_all O.rule (token_puts last (label PutKind.Operator (sign operator.entry.spelling.now) ∷ [])) (Some (O.holding outlet.old))) (O.holding outlet.new) result }
    ensures kept { O.kept outlet.new ≡ O.kept outlet.old }
{
    let kind = kind_of_spelling(operator.spelling);
    put_token(outlet, last, PutKind::Operator, kind, operator.spelling)
}
