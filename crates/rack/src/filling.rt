// How the fill of a rack goes up and down.
ghost use Rattle.std.specs.Prelude.{◌≡◌, ◌+◌, MatchResult};
ghost use Rattle.tokens.specs.InOrder.{Only};
ghost use Rattle.rack.specs.Fills.{TakesBack, Raises};
ghost use Rattle.rack.specs.Nodes.{room};

use crate::fill::{Fill, RACK_NODES};
use crate::node::Node;
use tokens::{Fault, FaultKind};

// How many nodes the rack lends: those that it has, and no more than 4,096.
pub fn room(rack: &[Node]) -> usize
    ensures { result ≡ room rack.now }
{
    rack.len().min(RACK_NODES)
}

impl Fill {
    // Lowers the fill to the mark. Refuses a mark above it, and is then as it was.
    pub fn take_back(&mut self, mark: usize) -> Result<(), Fault>
        ensures answer { Only (TakesBack self.old.used mark) result }
        ensures fill { MatchResult result (λ _. self.new.used ≡ mark) (λ _. self.new.used ≡ self.old.used) }
    {
        if mark > self.used {
            return Err(Fault {
                kind: FaultKind::MarkAboveFill,
                place: 0,
            });
        }
        self.used = mark;
        Ok(())
    }

    // Raises the fill by so many nodes. Refuses more than the rack has room for, and is then as it was.
    pub fn raise(&mut self, rack: &[Node], nodes: usize) -> Result<(), Fault>
        ensures answer { Only (Raises rack.now self.old.used nodes) result }
        ensures fill { MatchResult result (λ _. self.new.used ≡ self.old.used + nodes) (λ _. self.new.used ≡ self.old.used) }
    {
        self.used = self
            .used
            .checked_add(nodes)
            .filter(|&used| used <= room(rack))
            .ok_or(Fault {
                kind: FaultKind::RackFull,
                place: self.used,
            })?;
        Ok(())
    }
}
