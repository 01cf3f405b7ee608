// Functions, operators and notations: the fixed ladder and declared lists.
#![tactic(auto)]

mod candidate;
mod checking;
mod declaration;
mod declaring;
mod entry;
mod form;
mod function;
mod ladder;
mod list;
mod listing;
mod lookup;
mod notation;
mod operator;
mod sealed;
mod slots;

pub use checking::{MAX_PRIORITY, MIN_PRIORITY};
pub use entry::MAX_SPELLING_BYTES;
pub use form::{Form, Position, Side};
pub use function::{FIRST_OF_TWO, FUNCTIONS, operands_of};
pub use ladder::Ladder;
pub use list::{OpenList, SealedList};
pub use lookup::listed_operator;
pub use notation::Notation;
pub use operator::Operator;
