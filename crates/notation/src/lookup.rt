// Looking an operator up under its spelling, in any notation.
ghost use Rattle.notation.specs.Lookups.{Finds};

use crate::form::Position;
use crate::notation::Notation;
use crate::operator::Operator;

// The operator that is listed under the spelling in the position, with its function, if there is
// one: then it is the only one.
pub fn listed_operator<'a, N: Notation>(
    notation: &'a N,
    position: Position,
    spelling: &[u8],
) -> Option<(u8, Operator<'a>)>
    ensures { Finds (N.table notation.now) position spelling.now result }
{
    let function = notation.listed(position, spelling)?;
    let operator = notation.operator(function)?;
    Some((function, operator))
}
