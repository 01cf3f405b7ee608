// Settling: the operators that wait take their operands, before an operator, a `)` or the end.
ghost use Rattle.std.specs.Prelude.{◌≡◌, is_some};
ghost use Rattle.notation.specs.Operators.{meant};
ghost use Rattle.reading.specs.Yard.{site_of, sited, settled_at, unwound_at, SameLoans};

use crate::neighbours::taker_between;
use crate::reading::Reading;
use grammar::Taker;
use notation::{Notation, Operator};

impl<N: Notation> Reading<'_, N> {
    // Those that wait and take the operand before `right` take it. None: neither neighbour may take the one between them.
    pub(crate) fn settle(&mut self, right: Operator<'_>) -> Option<()>
        ensures state { sited (is_some result) (site_of self.new) ≡ settled_at (N.table self.old.notation.now) (meant right.entry) (site_of self.old) }
        ensures same { SameLoans self.old self.new }
    {
        while let Some(function) = self.reader.last_function() {
            let left = self.notation.operator(function)?;
            match taker_between(left, right)? {
                Taker::Left => self.complete(function),
                Taker::Right => return Some(()),
            }
        }
        Some(())
    }

    // The operators that wait since the latest bracket take their operands.
    pub(crate) fn unwind(&mut self)
        ensures state { site_of self.new ≡ unwound_at (site_of self.old) }
        ensures same { SameLoans self.old self.new }
    {
        while let Some(function) = self.reader.last_function() {
            self.complete(function);
        }
    }
}
