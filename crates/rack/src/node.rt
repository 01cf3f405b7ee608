// Nodes of a rack.
use crate::name::Name;

// What stands at a node: a function, which is a number from 0 to 63, or a name.
#[derive(Clone, Copy, PartialEq, Eq)]
pub enum Item {
    Function(u8),
    Name(Name),
}

// A node: what stands at it, and the size of the tree whose root it is. Nodes lie in one list that the caller lends, operands
// before their function, so that no call wants memory for a tree.
#[derive(Clone, Copy, PartialEq, Eq)]
pub struct Node {
    pub item: Item,
    pub size: usize,
}

impl Node {
    // What a node of a rack may hold before a tree is put there.
    pub const BLANK: Node = Node {
        item: Item::Function(0),
        size: 0,
    };
}
