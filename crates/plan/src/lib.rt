// Plan lines and fault lines, and the command from its whole input to its whole output.
#![tactic(auto)]

mod any_notation;
mod command;
mod input_fault;
mod input_lines;
mod numbered_lines;
mod numbering;
mod outcome;
mod plan_line;
mod plan_lines;
mod report;
mod sections;
mod tally;
mod workspace;

pub use any_notation::AnyNotation;
pub use command::{translate, translate_line};
pub use input_fault::InputFault;
pub use input_lines::InputLines;
pub use numbered_lines::{MAX_INPUT_LINES, NumberedLine, NumberedLines};
pub use outcome::Outcome;
pub use plan_line::{MAX_DIGITS, PlanLine};
pub use plan_lines::PlanLines;
pub use report::{MAX_REPORT_BYTES, push_fault_line, push_tail};
pub use sections::read_notation;
pub use tally::Tally;
pub use workspace::Workspace;
