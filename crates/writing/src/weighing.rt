// Weighing: the shape of the text that is written for a tree, worked out over the rack.
ghost use Rattle.std.specs.Prelude.{◌≡◌, length, MatchResult};
ghost use Rattle.tokens.specs.InOrder.{Only};
ghost use Rattle.notation.specs.Operators.{meant};
ghost use Rattle.grammar.specs.Weights.{operator_in};
ghost use Rattle.rack.specs.Roots.{AtTree};
ghost use Rattle.rack.specs.Reckoning.{Valued};
ghost use Rattle.writing.specs.Shapes.{shapes};
ghost use Rattle.writing.specs.ShapeAnswers.{ShapeAnswered};

use crate::shape::Shape;
use notation::{Form, Notation, Operator};
use rack::{Fill, Name, Node, Rules, reckon};
use tokens::{Fault, TokenKind};

// The operator of a function. One that is absent counts as this; no line is written for a tree that has it.
pub(crate) fn operator_of<N: Notation>(notation: &N, function: u8) -> Operator<'_>
    ensures { meant result ≡ operator_in (N.table notation.now) function }
{
    notation.operator(function).unwrap_or(Operator {
        priority: 1,
        form: Form::Xfx,
        spelling: b"",
    })
}

// Rules for the shapes of texts in a notation.
#[derive(Drop)]
struct Weighing<'a, N> {
    notation: &'a N,
}

impl<N: Notation> Rules for Weighing<'_, N> {
    type Value = Shape;

    ghost meaning = { λ w. shapes (N.table w.notation.now) };

    fn name(&self, name: &Name) -> Shape {
        Shape::token(TokenKind::Word, name.word().len())
    }

    fn one(&self, function: u8, operand: Shape) -> Shape {
        let operator = operator_of(self.notation, function);
        match operator.form {
            Form::Xf | Form::Yf => Shape::postfixed(operand, operator),
            Form::Fx | Form::Fy | Form::Xfx | Form::Xfy | Form::Yfx => {
                Shape::prefixed(operator, operand)
            }
        }
    }

    fn two(&self, function: u8, first: Shape, second: Shape) -> Shape {
        let operator = operator_of(self.notation, function);
        Shape::infixed(first, operator, second)
    }
}

// The shape of the text that the writing rule gives the tree at the root. The lent list then begins with the shapes of the
// texts of the tree's nodes, in order. Refuses what `reckon` does.
pub fn weigh<N: Notation>(
    notation: &N,
    rack: &[Node],
    fill: &Fill,
    root: usize,
    values: &mut [Shape],
) -> Result<Shape, Fault>
    ensures answer { Only (AtTree rack.now fill.now.used root (ShapeAnswered (N.table notation.now) (length values.old))) result }
    ensures values { MatchResult result (λ _. Valued (shapes (N.table notation.now)) rack.now root values.old values.new) (λ _. values.new ≡ values.old) }
{
    reckon(&Weighing { notation }, rack, fill, root, values)
}
