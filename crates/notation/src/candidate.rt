// Operators that obey the rules by themselves.
ghost use Rattle.notation.specs.Laws.{op_one};
ghost use Rattle.notation.specs.Slots.{op_in};
ghost use Rattle.notation.specs.Tables.{LawfulOp};

use crate::entry::Entry;

// A function with an operator that it may have.
#[derive(Clone, Copy)]
pub(crate) struct Candidate {
    pub(crate) function: u8,
    pub(crate) entry: Entry,
    ghost lawful: { LawfulOp function (op_in entry) } by { op_one function (op_in entry) },
}
