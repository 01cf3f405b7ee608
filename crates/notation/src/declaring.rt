// Declaring operators into an open list.
ghost use Rattle.std.specs.Prelude.{◌≡◌, ℕ, None, Ok, OnErr, OnOk};
ghost use Rattle.tokens.specs.InOrder.{Only};
ghost use Rattle.notation.specs.Declarations.{TableRules, Declares, Added, extended};
ghost use Rattle.notation.specs.Slots.{op_in};
ghost use Rattle.notation.specs.Views.{open_table};

use crate::candidate::Candidate;
use crate::declaration::{FUNCTION_FIELD, PRIORITY_FIELD, SPELLING_FIELD, read_declaration};
use crate::function::FUNCTIONS;
use crate::list::OpenList;
use tokens::{Fault, FaultKind};

impl OpenList {
    // A list without operators.
    pub fn new() -> OpenList
        ensures { (f : ℕ) → open_table result f ≡ None }
    {
        OpenList {
            slots: [None; FUNCTIONS],
        }
    }

    // Refuses a function that is listed already, a spelling that is taken in its position, and a
    // type that would mix a level.
    fn check_free(&self, candidate: Candidate) -> Result<(), Fault>
        ensures { TableRules (open_table self.now) candidate.function (op_in candidate.entry) result }
    {
        let Candidate { function, entry } = candidate;
        if self.slots[usize::from(function)].is_some() {
            return Err(Fault {
                kind: FaultKind::FunctionListed,
                place: FUNCTION_FIELD,
            });
        }
        let operator = entry.operator();
        if self
            .listed(operator.form.position(), operator.spelling)
            .is_some()
        {
            return Err(Fault {
                kind: FaultKind::SpellingTaken,
                place: SPELLING_FIELD,
            });
        }
        if self.mixes(&entry) {
            return Err(Fault {
                kind: FaultKind::MixedLevel,
                place: PRIORITY_FIELD,
            });
        }
        Ok(())
    }

    // Adds an operator that is free in the list.
    fn put(&mut self, candidate: Candidate)
        requires { TableRules (open_table self.old) candidate.function (op_in candidate.entry) (Ok tt) }
        ensures { open_table self.new ≡ extended (open_table self.old) candidate.function (op_in candidate.entry) }
    {
        self.slots[usize::from(candidate.function)] = Some(candidate.entry);
    }

    // Adds the operator that the line declares, or gives the first fault that applies and leaves
    // the list as it was.
    pub fn declare(&mut self, line: &[u8]) -> Result<(), Fault>
        ensures answer { Only (Declares (open_table self.old) line.now) result }
        ensures added { OnOk result (Added (open_table self.old) line.now (open_table self.new)) }
        ensures unchanged { OnErr result (self.new ≡ self.old) }
    {
        let declaration = read_declaration(line)?;
        let candidate = Candidate::try_from(declaration)?;
        self.check_free(candidate)?;
        self.put(candidate);
        Ok(())
    }
}
