// Whether the nodes up to a root obey the rack's rules.
ghost use Rattle.std.specs.Prelude.{◌≡◌, ℕ, ◌+◌, ◌<◌, length, IfOk, MatchBool, MatchResult};
ghost use Rattle.tokens.specs.Faults.{fault};
ghost use Rattle.tokens.specs.InOrder.{Only, Accepted};
ghost use Rattle.rack.specs.Nodes.{size, room};
ghost use Rattle.rack.specs.Racks.{SoundBelow, FirstUnsound};
ghost use Rattle.rack.specs.Roots.{NoRoot, AtTree, Rooted};

use crate::fill::Fill;
use crate::node::Node;
use crate::sound::SoundNodes;
use tokens::{Fault, FaultKind};

// Refuses a node up to the root that breaks the rules, at its place: the first there is. The root comes beside the rack, as what
// is promised is a fact about the rack and not about its part up to the root.
fn check_nodes(rack: &[Node], root: usize) -> Result<(), Fault>
    requires { root < length rack.now }
    ensures { MatchResult result (λ _. SoundBelow rack.now (root + 1)) (λ f. FirstUnsound rack.now root f.place × (f ≡ fault FaultKind.MalformedRack f.place)) }
{
    for (place, node) in rack[..=root].iter().enumerate() {
        let earlier = SoundNodes {
            nodes: &rack[..place],
        };
        if earlier.headed_size(node.item) != Some(node.size) {
            return Err(Fault {
                kind: FaultKind::MalformedRack,
                place,
            });
        }
    }
    Ok(())
}

// Whether the root is among the nodes in use and before the rack's end.
fn has_root(rack: &[Node], fill: &Fill, root: usize) -> bool
    ensures { MatchBool result ((root < fill.now.used) × (root < room rack.now)) (NoRoot rack.now fill.now.used root) }
{
    root < fill.used && root < rack.len()
}

// The size of the tree at the root. Refuses a root that is not among the nodes in use or past the
// rack's end, then the first node up to it that breaks the rules. Here and in `reckon` and `functions` rack, fill and root come
// apart, as a caller has them: a struct of the three would be made for a call and taken apart in it.
pub fn check_tree(rack: &[Node], fill: &Fill, root: usize) -> Result<usize, Fault>
    ensures answer { Only (AtTree rack.now fill.now.used root (λ tree. Accepted (size tree))) result }
    ensures tree { IfOk result (Rooted rack.now fill.now.used root) }
{
    if !has_root(rack, fill, root) {
        return Err(Fault {
            kind: FaultKind::NoSuchRoot,
            place: 0,
        });
    }
    check_nodes(rack, root)?;
    Ok(rack[root].size)
}
