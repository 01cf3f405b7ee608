// The lines of the input, numbered, and no more than count.
ghost use Rattle.std.specs.Prelude.{◌≤◌};

use crate::input_lines::InputLines;

// Input after this many lines counts as absent.
pub const MAX_INPUT_LINES: usize = 99_999;

// A line of the input, with its number, counted from 1.
#[derive(Clone, Copy)]
pub struct NumberedLine<'a> {
    pub number: usize,
    pub bytes: &'a [u8],
}

// Gives the lines of the input in order, each with its number.
#[derive(Clone, Copy)]
pub struct NumberedLines<'a> {
    pub(crate) lines: InputLines<'a>,
    pub(crate) count: usize,
    ghost few: { count ≤ 99999 },
}
