// What reads as what: trees, lawful bracketed trees, reading, verdicts and the writing rule, with their theorems.
#![tactic(auto)]

mod due;
mod taker;
mod theorems;

pub use due::Due;
pub use taker::Taker;
pub use theorems::{
    at_most_one_bracketed_tree, at_most_one_tree, examples_hold, machine_finds_all,
    machine_finds_only_lawful, machine_tells_due, neighbours_decided, one_answer, one_fewest,
    one_verdict, refused_is_dead, spaced_tokens_read, texts_live_as_tokens, trees_decide_so,
    unmatched_is_unmatched, unrefused_is_live, writable_is_readable, writes_fewest,
};
