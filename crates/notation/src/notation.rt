// What a notation tells its readers and writers.
ghost use Rattle.std.specs.Prelude.{◌≡◌};
ghost use Rattle.notation.specs.Operators.{told};
ghost use Rattle.notation.specs.Tables.{Table, LawfulTable, listed};

use crate::form::Position;
use crate::operator::Operator;

// A notation means a table: for each function its operator, or none. Readers and writers know a
// notation by this and nothing else. A function is a number from 0 to 63.
pub trait Notation {
    ghost table: { Self → Table };

    // The operator of the function, if it has one.
    fn operator(&self, function: u8) -> Option<Operator<'_>>
        ensures { told result ≡ table self.now function };

    // The function that is listed under the spelling in the position, if there is one.
    fn listed(&self, position: Position, spelling: &[u8]) -> Option<u8>
        ensures { result ≡ listed (table self.now) position spelling.now };

    ghost lawful: { (n : Self) → LawfulTable (table n) };
}
