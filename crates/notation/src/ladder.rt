// The ladder: C's operators without the conditional.
ghost use Rattle.std.specs.Prelude.{◌≡◌};
ghost use Rattle.std.proofs.Math.Path.{refl};
ghost use Rattle.notation.specs.Operators.{told};
ghost use Rattle.notation.specs.Rows.{ladder_rows, ladder_table, table_of, listed_in};
ghost use Rattle.notation.specs.RowsLemmas.{rows_lawful};

use crate::form::{Form, Position};
use crate::notation::Notation;
use crate::operator::Operator;

// C's operators without the conditional, as a notation.
#[derive(Clone, Copy)]
pub struct Ladder;

// The operator of a function of the ladder, if it has one, in the order of binding.
fn ladder_operator(function: u8) -> Option<Operator<'static>>
    ensures { told result ≡ table_of ladder_rows function }
{
    let (priority, form, spelling): (u16, Form, &'static [u8]) = match function {
        4 => (1, Form::Yf, b"++"),
        5 => (1, Form::Yf, b"--"),
        0 => (2, Form::Fy, b"!"),
        1 => (2, Form::Fy, b"~"),
        2 => (2, Form::Fy, b"-"),
        3 => (2, Form::Fy, b"+"),
        32 => (3, Form::Yfx, b"*"),
        33 => (3, Form::Yfx, b"/"),
        34 => (3, Form::Yfx, b"%"),
        35 => (4, Form::Yfx, b"+"),
        36 => (4, Form::Yfx, b"-"),
        37 => (5, Form::Yfx, b"<<"),
        38 => (5, Form::Yfx, b">>"),
        39 => (6, Form::Yfx, b"<"),
        40 => (6, Form::Yfx, b"<="),
        41 => (6, Form::Yfx, b">"),
        42 => (6, Form::Yfx, b">="),
        43 => (7, Form::Yfx, b"=="),
        44 => (7, Form::Yfx, b"!="),
        45 => (8, Form::Yfx, b"&"),
        46 => (9, Form::Yfx, b"^"),
        47 => (10, Form::Yfx, b"|"),
        48 => (11, Form::Yfx, b"&&"),
        49 => (12, Form::Yfx, b"||"),
        50 => (14, Form::Xfy, b"="),
        51 => (15, Form::Yfx, b","),
        _ => return None,
    };
    Some(Operator {
        priority,
        form,
        spelling,
    })
}

// The function of the ladder that is listed under the spelling in the position, if there is one. The rows once more, from the
// spelling: one table of them would want a search, with its proof, and reads no plainer than two matches.
fn ladder_listed(position: Position, spelling: &[u8]) -> Option<u8>
    ensures { result ≡ listed_in ladder_rows position spelling.now }
{
    match (position, spelling) {
        (Position::Before, b"!") => Some(0),
        (Position::Before, b"~") => Some(1),
        (Position::Before, b"-") => Some(2),
        (Position::Before, b"+") => Some(3),
        (Position::After, b"++") => Some(4),
        (Position::After, b"--") => Some(5),
        (Position::After, b"*") => Some(32),
        (Position::After, b"/") => Some(33),
        (Position::After, b"%") => Some(34),
        (Position::After, b"+") => Some(35),
        (Position::After, b"-") => Some(36),
        (Position::After, b"<<") => Some(37),
        (Position::After, b">>") => Some(38),
        (Position::After, b"<") => Some(39),
        (Position::After, b"<=") => Some(40),
        (Position::After, b">") => Some(41),
        (Position::After, b">=") => Some(42),
        (Position::After, b"==") => Some(43),
        (Position::After, b"!=") => Some(44),
        (Position::After, b"&") => Some(45),
        (Position::After, b"^") => Some(46),
        (Position::After, b"|") => Some(47),
        (Position::After, b"&&") => Some(48),
        (Position::After, b"||") => Some(49),
        (Position::After, b"=") => Some(50),
        (Position::After, b",") => Some(51),
        _ => None,
    }
}

impl Notation for Ladder {
    ghost table = { λ _. ladder_table };

    ghost lawful = { unfold ladder_table in λ n. rows_lawful ladder_rows refl };

    fn operator(&self, function: u8) -> Option<Operator<'_>> {
        ladder_operator(function)
    }

    fn listed(&self, position: Position, spelling: &[u8]) -> Option<u8> {
        ladder_listed(position, spelling)
    }
}
