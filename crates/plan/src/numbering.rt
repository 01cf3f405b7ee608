// How the lines of the input are numbered.
ghost use Rattle.std.specs.Prelude.{◌≡◌, length};
ghost use Rattle.plan.specs.InputLines.{counted_lines};
ghost use Rattle.plan.specs.NumberedAhead.{numbered_ahead, NextNumbered};
ghost use Rattle.std.specs.Iterator.{at_most};

use crate::input_lines::InputLines;
use crate::numbered_lines::{MAX_INPUT_LINES, NumberedLine, NumberedLines};

impl<'a> NumberedLines<'a> {
    // The lines from the start of the input.
    pub fn new(input: &'a [u8]) -> NumberedLines<'a>
        ensures ahead { numbered_ahead result ≡ counted_lines input.now }
        ensures count { result.count ≡ 0 }
    {
        NumberedLines {
            lines: InputLines::new(input),
            count: 0,
        }
    }
}

// Not `enumerate` and `take`: the end of the input counts as one line more, so the count is asked for there too.
impl<'a> Iterator for NumberedLines<'a> {
    type Item = NumberedLine<'a>;

    ghost next_gives = { λ s r t. NextNumbered s r t };

    ghost remaining = { λ s. at_most (length (numbered_ahead s)) };

    // The next line, or none where the input ends.
    fn next(&mut self) -> Option<NumberedLine<'a>> {
        if self.count >= MAX_INPUT_LINES {
            return None;
        }
        let bytes = self.lines.next()?;
        self.count += 1;
        Some(NumberedLine {
            number: self.count,
            bytes,
        })
    }
}
