// Nodes that obey the rack's rules.
ghost use Rattle.std.specs.Prelude.{◌≡◌, ℕ, ◌+◌, ◌-◌, ◌<◌, ◌≤◌, List, length, MatchOption};
ghost use Rattle.rack.specs.declared.node.Node.{Node};
ghost use Rattle.rack.specs.Racks.{size_at, Heads, SoundBelow};

use crate::node::{Item, Node};
use notation::{FIRST_OF_TWO, FUNCTIONS};
use std::marker::Model;

// The first nodes of a rack, or those of a tree: each holds the size of the tree that it heads.
#[derive(Drop)]
pub(crate) struct SoundNodes<'a> {
    pub(crate) nodes: &'a [Node],
}

impl<'a> Model for SoundNodes<'a> {
    ghost Value = { List Node };

    ghost view = { λ s. s.nodes.now };

    ghost invariant = { λ s. SoundBelow s.nodes.now (length s.nodes.now) };
}

impl SoundNodes<'_> {
    // The size of the tree whose root is the last node before the place, or none at the start.
    fn size_before(&self, place: usize) -> Option<usize>
        requires { place ≤ length self.now }
        ensures { MatchOption result (place ≡ 0) (λ n. (0 < place) × (n ≡ size_at self.now (place - 1)) × (n ≤ place)) }
    {
        Some(self.nodes[..place].last()?.size)
    }

    // The size of the tree that the item heads if it comes next after these nodes, or none if it heads none.
    pub(crate) fn headed_size(&self, item: Item) -> Option<usize>
        ensures { MatchOption result ((n : ℕ) → Heads self.now (length self.now) item n → ⊥) (λ n. Heads self.now (length self.now) item n) }
    {
        match item {
            Item::Name(name) => name.is_proper().then_some(1),
            Item::Function(function) if usize::from(function) >= FUNCTIONS => None,
            Item::Function(function) => {
                let last = self.size_before(self.nodes.len())?;
                if function < FIRST_OF_TWO {
                    return Some(last + 1);
                }
                let first = self.size_before(self.nodes.len() - last)?;
                Some(first + last + 1)
            }
        }
    }
}
