// A line: digits, a tab, a tree's text and a line end, put to any outlet.
ghost use Rattle.std.specs.Prelude.{◌≡◌, ◌-◌, ◌<◌, IfOk, MatchResult, Some, length, vec_len};
ghost use Rattle.tokens.specs.InOrder.{Only};
ghost use Rattle.grammar.specs.Trees.{Tree};
ghost use Rattle.grammar.specs.Writing.{Fewest};
ghost use Rattle.rack.specs.Racks.{Lies};
ghost use Rattle.writing.specs.Puts.{line_puts, put_all, PutsTo};
ghost use Rattle.writing.specs.Lines.{LineAnswered, KeptAfter};
ghost use Rattle.writing.specs.Written.{ToWrite};

use crate::outlet::Outlet;
use crate::put_kind::PutKind;
use crate::shape::Shape;
use crate::weighing::weigh;
use crate::writable::{are_digits, check_writable};
use crate::written::Written;
use notation::Notation;
use rack::{Fill, Node, RACK_NODES};
use std::alloc::{AllocError, Global};
use tokens::{Fault, FaultKind, MAX_EXPRESSION_BYTES, MAX_TOKENS};

// Puts lines to outlets. Its working memory is reserved when it is made, so that no later call wants any.
#[derive(Drop)]
pub struct LineWriter {
    shapes: Vec<Shape>,
    ghost reserved: { vec_len shapes ≡ 4096 },
}

// Puts the digits, a tab, the tree and a line end.
fn put_whole<N: Notation, O: Outlet>(
    outlet: &mut O,
    digits: &[u8],
    tree: &Written<'_, N>,
) -> Result<(), Fault>
    requires some { 0 < length tree.now.nodes.now }
    requires ready { ToWrite (N.table tree.now.notation.now) tree.now.nodes.now tree.now.shapes.now }
    ensures answer { (t : Tree) → Lies tree.now.nodes.now (length tree.now.nodes.now - 1) t → PutsTo tt (put_all O.rule (line_puts (N.table tree.now.notation.now) digits.now t) (Some (O.holding outlet.old))) (O.holding outlet.new) result }
    ensures kept { O.kept outlet.new ≡ O.kept outlet.old }
{
    outlet.put(PutKind::Margin, digits)?;
    outlet.put(PutKind::Tab, b"\t")?;
    tree.put_tree(outlet, tree.nodes.len() - 1, None)?;
    outlet.put(PutKind::LineEnd, b"\n")
}

impl LineWriter {
    // With the memory for every line, or the error that there is not so much.
    pub fn new(alloc: Global) -> Result<LineWriter, AllocError>
        ensures { IfOk result (λ writer. vec_len writer.shapes ≡ 4096) }
    {
        let shapes = vec![in alloc; Shape::EMPTY; RACK_NODES]?;
        Ok(LineWriter { shapes })
    }

    // Puts the line with these digits and the tree at the root, and answers its pairs, the fewest there are. Refuses digits
    // that are not 1 to 8, then what `weigh` refuses, then the tree's first node whose function is absent in the notation or
    // whose name it lists, then a text that is too long; and puts nothing then. After a refused Put it strikes what it put.
    pub fn put_line<N: Notation, O: Outlet>(
        &mut self,
        rack: &[Node],
        fill: &Fill,
        digits: &[u8],
        root: usize,
        notation: &N,
        outlet: &mut O,
    ) -> Result<u64, Fault>
        ensures answer { Only (LineAnswered O.rule (N.table notation.now) digits.now rack.now fill.now.used root (O.holding outlet.old)) result }
        ensures holding { MatchResult result (λ _. (tree : Tree) → Lies rack.now root tree → put_all O.rule (line_puts (N.table notation.now) digits.now tree) (Some (O.holding outlet.old)) ≡ Some (O.holding outlet.new)) (λ _. O.holding outlet.new ≡ O.holding outlet.old) }
        ensures kept { KeptAfter result (O.kept outlet.old) (O.holding outlet.old) (O.kept outlet.new) }
        ensures fewest { IfOk result (λ n. (tree : Tree) → Lies rack.now root tree → Fewest (N.table notation.now) tree n) }
    {
        if !are_digits(digits) {
            return Err(Fault {
                kind: FaultKind::MalformedLine,
                place: 0,
            });
        }
        let shapes = self.shapes.as_mut_slice();
        let shape = weigh(notation, rack, fill, root, shapes)?;
        let start = root + 1 - rack[root].size;
        let nodes = &rack[start..root + 1];
        check_writable(notation, nodes, start)?;
        if shape.bytes > MAX_EXPRESSION_BYTES as u64 || shape.tokens > MAX_TOKENS as u64 {
            return Err(Fault {
                kind: FaultKind::TextTooLong,
                place: 0,
            });
        }
        outlet.start();
        let tree = Written {
            notation,
            nodes,
            shapes: self.shapes.as_slice(),
        };
        let put = put_whole(outlet, digits, &tree);
        if put.is_err() {
            outlet.strike();
        }
        put.map(|()| shape.pairs)
    }
}
