// What becomes of a plan line.
use tokens::Fault;

// A line is put out, with its pairs of brackets, or refused.
pub type Outcome = Result<usize, Fault>;
