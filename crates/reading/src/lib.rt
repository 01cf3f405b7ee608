// The reader: an expression becomes a tree in the rack, or the one fault that the rules give it.
#![tactic(auto)]

mod loan;
mod neighbours;
mod read;
mod reader;
mod reading;
mod refusals;
mod settling;
mod steps;
mod storing;
mod waiting;

pub use neighbours::taker_between;
pub use reader::Reader;
