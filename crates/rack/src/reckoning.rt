// Reckoning: working a value out over a tree, node by node.
ghost use Rattle.std.specs.Prelude.{◌≡◌, ◌<◌, ◌≤◌, ◌++◌, length, drop, MatchResult};
ghost use Rattle.tokens.specs.InOrder.{Only};
ghost use Rattle.grammar.specs.Trees.{Tree};
ghost use Rattle.rack.specs.Nodes.{size, nodes_of};
ghost use Rattle.rack.specs.Racks.{ProperTree, Heads};
ghost use Rattle.rack.specs.Roots.{AtTree};
ghost use Rattle.rack.specs.Reckoning.{values_of, ValueOf, Valued, ComesFrom};

use crate::checking::check_tree;
use crate::fill::Fill;
use crate::node::{Item, Node};
use crate::rules::Rules;
use crate::sound::SoundNodes;
use notation::FIRST_OF_TWO;
use tokens::{Fault, FaultKind};

// The value of a node that comes next after sound ones, from their values.
fn next_value<R: Rules>(
    rules: &R,
    earlier: &SoundNodes<'_>,
    node: &Node,
    values: &[R::Value],
) -> R::Value
    requires sound { Heads earlier.now (length earlier.now) node.now.item node.now.size }
    requires values { length values.now ≡ length earlier.now }
    ensures { ComesFrom (R.Rules.meaning rules.now) earlier.now (length earlier.now) node.now.item values.now result }
{
    match &node.item {
        Item::Name(name) => rules.name(name),
        Item::Function(function) => {
            let second = values.len() - 1;
            if *function < FIRST_OF_TWO {
                return rules.one(*function, values[second]);
            }
            let first = second - earlier.nodes[second].size;
            rules.two(*function, values[first], values[second])
        }
    }
}

// Stores the value of each node, given the nodes of a tree. By place, and into a list that the caller lends: each value comes
// from those stored before it, and no call wants memory.
fn store_values<R: Rules>(rules: &R, tree: &SoundNodes<'_>, values: &mut [R::Value])
    requires { length tree.now ≤ length values.old }
    ensures { (t : Tree) → ProperTree t → tree.now ≡ nodes_of t → values.new ≡ values_of (R.Rules.meaning rules.now) t ++ drop (size t) values.old }
{
    for (place, node) in tree.nodes.iter().enumerate() {
        let earlier = SoundNodes {
            nodes: &tree.nodes[..place],
        };
        values[place] = next_value(rules, &earlier, node, &values[..place]);
    }
}

// The value of the tree at the root. The list then begins with the values of the tree's nodes, in
// order. Refuses what `check_tree` does, then a list that is shorter than the tree.
pub fn reckon<R: Rules>(
    rules: &R,
    rack: &[Node],
    fill: &Fill,
    root: usize,
    values: &mut [R::Value],
) -> Result<R::Value, Fault>
    ensures answer { Only (AtTree rack.now fill.now.used root (ValueOf (R.Rules.meaning rules.now) (length values.old))) result }
    ensures values { MatchResult result (λ _. Valued (R.Rules.meaning rules.now) rack.now root values.old values.new) (λ _. values.new ≡ values.old) }
{
    let size = check_tree(rack, fill, root)?;
    if values.len() < size {
        return Err(Fault {
            kind: FaultKind::TooFewValues,
            place: 0,
        });
    }
    let tree = SoundNodes {
        nodes: &rack[root + 1 - size..=root],
    };
    store_values(rules, &tree, values);
    Ok(values[size - 1])
}
