// Kinds of Puts: what the bytes are that go to an outlet.
ghost use Rattle.std.specs.Prelude.{◌≡◌, Decides};
ghost use Rattle.writing.specs.Outlets.{closed, LawfulLength};

// What the bytes of a Put are. A margin is the digits of a line, a tail or a fault.
#[derive(Clone, Copy, PartialEq, Eq)]
pub enum PutKind {
    Margin,
    Tab,
    Name,
    Operator,
    Open,
    Close,
    Blank,
    LineEnd,
}

// The most bytes of a Put.
pub const MAX_PUT_BYTES: usize = 31;

impl PutKind {
    // Whether a Put of the kind may carry so many bytes: 1 to 31 for a margin, a name or an operator, else just one.
    pub(crate) fn admits(self, length: usize) -> bool
        ensures { Decides result (LawfulLength self length) }
    {
        match self {
            PutKind::Margin | PutKind::Name | PutKind::Operator => (1..=MAX_PUT_BYTES).contains(
                &length,
            ),
            PutKind::Tab | PutKind::Open | PutKind::Close | PutKind::Blank | PutKind::LineEnd =>
                length == 1,
        }
    }

    // How many pairs of brackets a Put of the kind closes.
    pub(crate) fn pairs_closed(self) -> u64
        ensures { result ≡ closed self }
    {
        u64::from(self == PutKind::Close)
    }
}
