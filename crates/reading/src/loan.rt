// The loan of a fill: while an expression is read, the fill follows the nodes that are put.
ghost use Rattle.std.specs.Prelude.{◌≡◌, ◌≤◌};

use rack::Fill;

// The fill on loan, and what it goes back to on every way out: where it was, until the tree is accepted.
pub(crate) struct FillLoan<'a> {
    pub(crate) fill: &'a mut Fill,
    pub(crate) back: usize,
}

impl Drop for FillLoan<'_> {
    fn drop(self)
        requires { self.back ≤ 4096 }
        ensures { self.exit.0.now.used ≡ self.entry.back }
    {
        let FillLoan { fill, back } = self;
        fill.used = back;
    }
}
