// Storing: how nodes are put into a rack.
ghost use Rattle.std.specs.Prelude.{◌≡◌, Some};
ghost use Rattle.rack.specs.Nodes.{room};
ghost use Rattle.reading.specs.Waiting.{waiting, last_function};
ghost use Rattle.reading.specs.Yard.{site_of, added, covered_at, below, HasRoom, SameLoans};

use crate::reading::Reading;
use rack::{Item, Node, room};

impl<N> Reading<'_, N> {
    // How many nodes the rack lends.
    pub(crate) fn room(&self) -> usize
        ensures { result ≡ room self.now.rack.now }
    {
        room(self.rack)
    }

    // Puts the node at the next free place, which is stored if the place is within the rack's room.
    pub(crate) fn put(&mut self, node: Node)
        requires { HasRoom (site_of self.old) }
        ensures state { site_of self.new ≡ added node (site_of self.old) }
        ensures same { SameLoans self.old self.new }
    {
        let at = self.at;
        self.at += 1;
        // By index: what `get_mut` lends leaves a proof with the length of the rack alone.
        if at < self.room() {
            self.rack[at] = node;
        }
    }

    // Puts the function's node after the current operand, as the last of its tree.
    pub(crate) fn cover(&mut self, function: u8)
        requires { HasRoom (site_of self.old) }
        ensures state { site_of self.new ≡ covered_at function (site_of self.old) }
        ensures same { SameLoans self.old self.new }
    {
        let item = Item::Function(function);
        let size = self.at.saturating_sub(self.begins()) + 1;
        self.put(Node { item, size });
    }

    // The operator on top, which is the function's, takes the current operand.
    pub(crate) fn complete(&mut self, function: u8)
        requires { last_function (waiting self.old.reader.now) ≡ Some function }
        ensures state { site_of self.new ≡ covered_at function (below (site_of self.old)) }
        ensures same { SameLoans self.old self.new }
    {
        let _ = self.reader.pop();
        self.cover(function);
    }
}
