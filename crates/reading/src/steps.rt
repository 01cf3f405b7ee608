// Steps: how reading goes on from one token to the next.
ghost use Rattle.std.specs.Prelude.{◌≡◌, None};
ghost use Rattle.tokens.specs.Tokens.{lexeme, placed};
ghost use Rattle.notation.specs.declared.form.Position.TheVariants.{Before};
ghost use Rattle.notation.specs.Tables.{listed};
ghost use Rattle.grammar.specs.Machine.{is_name};
ghost use Rattle.reading.specs.Yard.{site_of, stands, begun, shut_at, unwound_at, standing_at, told, step, HasRoom, SameLoans};

use crate::reading::Reading;
use grammar::Due;
use notation::{Form, Notation, Position};
use rack::{Item, Name, Node};
use tokens::Token;

// Each of these functions answers what is due next, or none if the token fails.
impl<N: Notation> Reading<'_, N> {
    // The word where an operand is due, if it is a name, which one that is listed before is not.
    fn name(&mut self, word: &[u8]) -> Option<Due>
        requires room { HasRoom (site_of self.old) }
        requires unlisted { listed (N.table self.old.notation.now) Before word.now ≡ None }
        ensures state { told result (site_of self.new) ≡ begun word.now None (is_name (N.table self.old.notation.now) word.now) (site_of self.old) }
        ensures same { SameLoans self.old self.new }
    {
        if self.notation.listed(Position::After, word).is_some() {
            return None;
        }
        let item = Item::Name(Name::new(word)?);
        self.put(Node { item, size: 1 });
        Some(Due::Operator)
    }

    // A token where an operand is due.
    pub(crate) fn operand(&mut self, token: Token<'_>) -> Option<Due>
        requires { HasRoom (site_of self.old) }
        ensures state { told result (site_of self.new) ≡ step (N.table self.old.notation.now) (stands Due.Operand (site_of self.old)) (lexeme (placed token.entry)) }
        ensures same { SameLoans self.old self.new }
    {
        match token {
            Token::Word { bytes, .. } => match self.notation.listed(Position::Before, bytes) {
                Some(function) => Some(self.wait(Some(function))),
                None => self.name(bytes),
            },
            Token::Symbol { bytes, .. } => {
                let function = self.notation.listed(Position::Before, bytes)?;
                Some(self.wait(Some(function)))
            }
            Token::Open { .. } => Some(self.wait(None)),
            Token::Close { .. } => None,
        }
    }

    // The function's operator after the current operand.
    fn place(&mut self, function: u8) -> Option<Due>
        requires { HasRoom (site_of self.old) }
        ensures state { told result (site_of self.new) ≡ standing_at (N.table self.old.notation.now) function (site_of self.old) }
        ensures same { SameLoans self.old self.new }
    {
        let operator = self.notation.operator(function)?;
        self.settle(operator)?;
        match operator.form {
            Form::Fx | Form::Fy => None,
            Form::Xf | Form::Yf => {
                self.cover(function);
                Some(Due::Operator)
            }
            Form::Xfx | Form::Xfy | Form::Yfx => Some(self.wait(Some(function))),
        }
    }

    // A `)` after the current operand, which fails if no bracket is open.
    fn close(&mut self) -> Option<Due>
        ensures state { told result (site_of self.new) ≡ shut_at (unwound_at (site_of self.old)) }
        ensures same { SameLoans self.old self.new }
    {
        self.unwind();
        self.reader.pop()?;
        Some(Due::Operator)
    }

    // A token where an operator is due.
    pub(crate) fn operator(&mut self, token: Token<'_>) -> Option<Due>
        requires { HasRoom (site_of self.old) }
        ensures state { told result (site_of self.new) ≡ step (N.table self.old.notation.now) (stands Due.Operator (site_of self.old)) (lexeme (placed token.entry)) }
        ensures same { SameLoans self.old self.new }
    {
        match token {
            Token::Word { bytes, .. } | Token::Symbol { bytes, .. } => {
                let function = self.notation.listed(Position::After, bytes)?;
                self.place(function)
            }
            Token::Open { .. } => None,
            Token::Close { .. } => self.close(),
        }
    }
}
