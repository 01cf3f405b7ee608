// Neighbours: which of two operators takes the operand that stands between them.
ghost use Rattle.std.specs.Prelude.{◌≡◌};
ghost use Rattle.notation.specs.Operators.{meant};
ghost use Rattle.grammar.specs.Neighbours.{taker};
ghost use Rattle.reading.specs.Between.{DecidedByLaw};

use grammar::Taker;
use notation::Operator;

// Which of two neighbours takes the operand between them. The smaller priority does; between equals the left one
// where the right one has y at its left, the right one where the left one has y at its right, and else neither.
pub fn taker_between(left: Operator<'_>, right: Operator<'_>) -> Option<Taker>
    ensures answer { result ≡ taker (meant left.entry) (meant right.entry) }
    ensures law { DecidedByLaw (meant left.entry) (meant right.entry) result }
{
    if left.priority <= right.left_limit() {
        Some(Taker::Left)
    } else if right.priority <= left.right_limit() {
        Some(Taker::Right)
    } else {
        None
    }
}
