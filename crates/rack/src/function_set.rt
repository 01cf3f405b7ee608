// Sets of functions.

// A set of functions, with function n as bit n, and how many are in it. Both are told by one call, a form that the project
// fixes.
#[derive(Clone, Copy, PartialEq, Eq)]
pub struct FunctionSet {
    pub bits: u64,
    pub count: u32,
}
