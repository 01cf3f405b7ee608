// The rack: nodes that hold trees in postorder, and what is worked out over them.
#![tactic(auto)]

mod checking;
mod fill;
mod filling;
mod function_bits;
mod function_set;
mod name;
mod naming;
mod node;
mod reckoning;
mod rules;
mod sound;
mod spelling;
mod theorems;

pub use checking::check_tree;
pub use fill::{Fill, RACK_NODES};
pub use filling::room;
pub use function_bits::functions;
pub use function_set::FunctionSet;
pub use name::{MAX_NAME_BYTES, Name};
pub use node::{Item, Node};
pub use reckoning::reckon;
pub use rules::Rules;
pub use theorems::{
    later_nodes_do_not_matter, lies_consecutively, lies_where_put, names_are_words,
    no_more_nodes_than_tokens, one_tree_lies, read_trees_are_proper,
};
