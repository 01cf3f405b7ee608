// The operator of a function, as a notation tells it.
ghost use Rattle.std.specs.Prelude.{◌≡◌};
ghost use Rattle.notation.specs.Operators.{left_side, right_side, limit};

use crate::form::Form;

// A priority from 1 to 1200 (smaller binds tighter), a type, and a spelling.
#[derive(Clone, Copy)]
pub struct Operator<'a> {
    pub priority: u16,
    pub form: Form,
    pub spelling: &'a [u8],
}

// Two limits by name, as a type has two sides: a parameter for the side would only be told by a constant.
impl Operator<'_> {
    // The largest weight that its left operand may have.
    pub fn left_limit(self) -> u16
        ensures { result ≡ limit (left_side self.entry.form) self.entry.priority }
    {
        self.form.left().limit(self.priority)
    }

    // The largest weight that its right operand may have.
    pub fn right_limit(self) -> u16
        ensures { result ≡ limit (right_side self.entry.form) self.entry.priority }
    {
        self.form.right().limit(self.priority)
    }
}
