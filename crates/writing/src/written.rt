// A tree as it is written: its nodes, with the shapes of the texts of their trees.
ghost use Rattle.std.specs.Prelude.{◌≡◌, ◌<◌, length, ◌+◌, ◌*◌};
ghost use Rattle.grammar.specs.Trees.{Tree};
ghost use Rattle.grammar.specs.Writing.{write, paired};
ghost use Rattle.rack.specs.Racks.{Lies};
ghost use Rattle.writing.specs.Written.{ToWrite, PutsTokens};

use crate::outlet::Outlet;
use crate::put_kind::PutKind;
use crate::putting::{put_sign, put_token};
use crate::shape::Shape;
use crate::weighing::operator_of;
use notation::{Form, Notation};
use rack::{Item, Node};
use tokens::{Fault, TokenKind};

// The nodes of a tree that can be written, each with the shape of the text of the tree that it heads.
#[derive(Drop)]
pub(crate) struct Written<'a, N: Notation> {
    pub(crate) notation: &'a N,
    pub(crate) nodes: &'a [Node],
    pub(crate) shapes: &'a [Shape],
}

impl<N: Notation> Written<'_, N> {
    // Puts the tree at the node, in a pair of brackets if it is not admitted as it stands, after a token of kind `last`, if
    // there is one. Answers the kind of the last token.
    #[cycle(written)]
    fn put_operand<O: Outlet>(
        &self,
        outlet: &mut O,
        at: usize,
        admitted: bool,
        last: Option<TokenKind>,
    ) -> Result<TokenKind, Fault>
        requires within { at < length self.now.nodes.now }
        requires ready { ToWrite (N.table self.now.notation.now) self.now.nodes.now self.now.shapes.now }
        ensures answer { (tree : Tree) → Lies self.now.nodes.now at tree → PutsTokens O.rule (N.table self.now.notation.now) last (paired admitted (write (N.table self.now.notation.now) tree)) (O.holding outlet.old) (O.holding outlet.new) result }
        ensures kept { O.kept outlet.new ≡ O.kept outlet.old }
    {
        if admitted {
            return self.put_tree(outlet, at, last);
        }
        let open = put_token(outlet, last, PutKind::Open, TokenKind::Open, b"(")?;
        let end = self.put_tree(outlet, at, Some(open))?;
        put_token(outlet, Some(end), PutKind::Close, TokenKind::Close, b")")
    }

    // Puts the tree at the node, as it stands.
    #[cycle(written)]
    pub(crate) fn put_tree<O: Outlet>(
        &self,
        outlet: &mut O,
        at: usize,
        last: Option<TokenKind>,
    ) -> Result<TokenKind, Fault>
        requires within { at < length self.now.nodes.now }
        requires ready { ToWrite (N.table self.now.notation.now) self.now.nodes.now self.now.shapes.now }
        ensures answer { (tree : Tree) → Lies self.now.nodes.now at tree → PutsTokens O.rule (N.table self.now.notation.now) last (write (N.table self.now.notation.now) tree) (O.holding outlet.old) (O.holding outlet.new) result }
        ensures kept { O.kept outlet.new ≡ O.kept outlet.old }
    {
        let function = match &self.nodes[at].item {
            Item::Name(name) => {
                return put_token(outlet, last, PutKind::Name, TokenKind::Word, name.word());
            }
            Item::Function(function) => *function,
        };
        let operator = operator_of(self.notation, function);
        let near = at - 1;
        match operator.form {
            Form::Fx | Form::Fy => {
                let sign = put_sign(outlet, last, operator)?;
                let fits = self.shapes[near].left <= operator.right_limit();
                self.put_operand(outlet, near, fits, Some(sign))
            }
            Form::Xf | Form::Yf => {
                let fits = self.shapes[near].right <= operator.left_limit();
                let end = self.put_operand(outlet, near, fits, last)?;
                put_sign(outlet, Some(end), operator)
            }
            Form::Xfx | Form::Xfy | Form::Yfx => {
                let first = near - self.nodes[near].size;
                let first_fits = self.shapes[first].right <= operator.left_limit();
                let end = self.put_operand(outlet, first, first_fits, last)?;
                let sign = put_sign(outlet, Some(end), operator)?;
                let fits = self.shapes[near].left <= operator.right_limit();
                self.put_operand(outlet, near, fits, Some(sign))
            }
        }
    }
}
