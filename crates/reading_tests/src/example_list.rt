// The list of the worked examples, as a notation.
ghost use Rattle.std.specs.Prelude.{◌≡◌};
ghost use Rattle.notation.specs.Operators.{told};
ghost use Rattle.notation.specs.Rows.{listed_in};
ghost use Rattle.grammar.specs.Examples.{example_rows, example_table};
ghost use Rattle.grammar.proofs.Shown.{examples_hold};

use notation::{Form, Notation, Operator, Position};

pub struct ExampleList;

// The operator of a function of the list, if it has one.
fn operator_of(function: u8) -> Option<Operator<'static>>
    ensures { told result ≡ example_table function }
{
    let (priority, form, spelling): (u16, Form, &'static [u8]) = match function {
        0 => (900, Form::Fy, b"not"),
        1 => (800, Form::Yf, b"later"),
        2 => (200, Form::Fy, b"-"),
        32 => (400, Form::Yfx, b"*"),
        35 => (500, Form::Yfx, b"+"),
        43 => (700, Form::Xfx, b"="),
        46 => (200, Form::Xfy, b"^"),
        _ => return None,
    };
    Some(Operator {
        priority,
        form,
        spelling,
    })
}

// The function of the list that is listed under the spelling in the position, if there is one. The rows once more, from the
// spelling, as the ladder has them: a search through one table reads no plainer.
fn function_listed(position: Position, spelling: &[u8]) -> Option<u8>
    ensures { result ≡ listed_in example_rows position spelling.now }
{
    match (position, spelling) {
        (Position::Before, b"not") => Some(0),
        (Position::Before, b"-") => Some(2),
        (Position::After, b"later") => Some(1),
        (Position::After, b"*") => Some(32),
        (Position::After, b"+") => Some(35),
        (Position::After, b"=") => Some(43),
        (Position::After, b"^") => Some(46),
        _ => None,
    }
}

impl Notation for ExampleList {
    ghost table = { λ _. example_table };

    ghost lawful = { λ n. examples_hold.0 };

    fn operator(&self, function: u8) -> Option<Operator<'_>> {
        operator_of(function)
    }

    fn listed(&self, position: Position, spelling: &[u8]) -> Option<u8> {
        function_listed(position, spelling)
    }
}
