// A fault of the input, with the line where it was found.
use tokens::Fault;

// The line is counted from 1; the end of the input counts as one line more.
#[derive(Clone, Copy)]
pub struct InputFault {
    pub line: usize,
    pub fault: Fault,
}
