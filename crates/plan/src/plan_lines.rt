// The lines of the plan: those of the input up to its tail.
ghost use Rattle.std.specs.Prelude.{◌≡◌, length};
ghost use Rattle.plan.specs.Plans.{begins_tail, up_to_tail};
ghost use Rattle.plan.specs.NumberedAhead.{numbered_ahead};
ghost use Rattle.plan.specs.PlanLinesAhead.{plan_ahead, plan_count, NextLine};
ghost use Rattle.std.specs.Iterator.{at_most};

use crate::numbered_lines::{NumberedLine, NumberedLines};

// Gives the lines of the plan in order, and ends before one that begins with `#`. A type with a name, and no `take_while` where
// the lines are gone over, so that a caller can hold them and knows by contract which they are.
#[derive(Clone, Copy)]
pub struct PlanLines<'a> {
    lines: NumberedLines<'a>,
}

// Whether the line begins with `#`, as the tail of a plan does.
fn begins_tail(line: &[u8]) -> bool
    ensures { result ≡ begins_tail line.now }
{
    matches!(line, [b'#', ..])
}

impl<'a> PlanLines<'a> {
    // The lines of the plan that begins with the next of the lines.
    pub fn new(lines: NumberedLines<'a>) -> PlanLines<'a>
        ensures ahead { plan_ahead result ≡ up_to_tail (numbered_ahead lines.entry) }
        ensures count { plan_count result ≡ lines.entry.count }
    {
        PlanLines { lines }
    }
}

impl<'a> Iterator for PlanLines<'a> {
    type Item = NumberedLine<'a>;

    ghost next_gives = { λ s r t. NextLine s r t };

    ghost remaining = { λ s. at_most (length (plan_ahead s)) };

    // The next line of the plan, or none where the plan ends.
    fn next(&mut self) -> Option<NumberedLine<'a>> {
        let line = self.lines.next()?;
        if begins_tail(line.bytes) {
            None
        } else {
            Some(line)
        }
    }
}
