// Writing: what an outlet is, and how a tree becomes the text with the fewest brackets.
#![tactic(auto)]

mod byte_outlet;
mod counting_outlet;
mod line;
mod outlet;
mod put_kind;
mod putting;
mod shape;
mod theorems;
mod weighing;
mod writable;
mod written;

pub use byte_outlet::{ByteOutlet, MAX_OUTLET_BYTES, MAX_OUTLET_PAIRS};
pub use counting_outlet::{CountingOutlet, MAX_COUNTED_BYTES, Tally};
pub use line::LineWriter;
pub use outlet::Outlet;
pub use put_kind::{MAX_PUT_BYTES, PutKind};
pub use shape::Shape;
pub use theorems::puts_are_the_line;
pub use weighing::weigh;
pub use writable::MAX_DIGITS;
