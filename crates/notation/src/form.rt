// Types of operators, by the words of op/3: f is the operator, the letters beside it its operands.
ghost use Rattle.std.specs.Prelude.{◌≡◌};
ghost use Rattle.notation.specs.Lines.{Names};
ghost use Rattle.notation.specs.Operators.{position_of, operands_of, left_side, right_side, limit};

use tokens::FaultKind;

// The seven type words.
#[derive(Clone, Copy, PartialEq, Eq)]
pub enum Form {
    Fx,
    Fy,
    Xf,
    Yf,
    Xfx,
    Xfy,
    Yfx,
}

// Where an operator is listed: one before its operand "before", one between or after "after".
#[derive(Clone, Copy, PartialEq, Eq)]
pub enum Position {
    Before,
    After,
}

// The letter of an operand: x admits weights below the operator's priority, y weights up to it.
#[derive(Clone, Copy, PartialEq, Eq)]
pub enum Side {
    X,
    Y,
}

impl TryFrom<&[u8]> for Form {
    type Error = FaultKind;

    ghost try_from_gives = { Names };

    // The type with this word. Refuses a word that is none of the seven.
    fn try_from(word: &[u8]) -> Result<Form, FaultKind> {
        match word {
            b"fx" => Ok(Form::Fx),
            b"fy" => Ok(Form::Fy),
            b"xf" => Ok(Form::Xf),
            b"yf" => Ok(Form::Yf),
            b"xfx" => Ok(Form::Xfx),
            b"xfy" => Ok(Form::Xfy),
            b"yfx" => Ok(Form::Yfx),
            _ => Err(FaultKind::UnknownType),
        }
    }
}

impl Form {
    // Where an operator of the type is listed.
    pub fn position(self) -> Position
        ensures { result ≡ position_of self }
    {
        match self {
            Form::Fx | Form::Fy => Position::Before,
            Form::Xf | Form::Yf | Form::Xfx | Form::Xfy | Form::Yfx => Position::After,
        }
    }

    // How many operands an operator of the type takes.
    pub fn operands(self) -> u8
        ensures { result ≡ operands_of self }
    {
        match self {
            Form::Fx | Form::Fy | Form::Xf | Form::Yf => 1,
            Form::Xfx | Form::Xfy | Form::Yfx => 2,
        }
    }

    // The letter left of the f, which is x where there is none. Two methods by name, as a type has two sides.
    pub fn left(self) -> Side
        ensures { result ≡ left_side self }
    {
        match self {
            Form::Yf | Form::Yfx => Side::Y,
            Form::Fx | Form::Fy | Form::Xf | Form::Xfx | Form::Xfy => Side::X,
        }
    }

    // The letter right of the f, which is x where there is none.
    pub fn right(self) -> Side
        ensures { result ≡ right_side self }
    {
        match self {
            Form::Fy | Form::Xfy => Side::Y,
            Form::Fx | Form::Xf | Form::Yf | Form::Xfx | Form::Yfx => Side::X,
        }
    }
}

impl Side {
    // The largest weight that the side of an operator of this priority admits.
    pub(crate) fn limit(self, priority: u16) -> u16
        ensures { result ≡ limit self priority }
    {
        match self {
            Side::X => priority.saturating_sub(1),
            Side::Y => priority,
        }
    }
}
