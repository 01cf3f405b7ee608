// The one fault type of the product: what was refused, and where.
ghost use Rattle.std.specs.Prelude.{◌≡◌};
ghost use Rattle.tokens.specs.Faults.{letter_of, number_of};

// Each reason for a refusal, by the layer that finds it, with its number. docs/FAULTS.md says when each is given.
#[derive(Clone, Copy, PartialEq, Eq)]
pub enum FaultKind {
    // D: declaring operators.
    MalformedDeclaration = 10,
    UnknownType = 11,
    WrongFunction = 12,
    PriorityOutOfRange = 13,
    MalformedSpelling = 14,
    FunctionListed = 15,
    SpellingTaken = 16,
    MixedLevel = 17,
    // R: reading an expression.
    ExpressionTooLong = 20,
    UnlawfulByte = 21,
    TooManyTokens = 22,
    WordTooLong = 23,
    UnlistedSymbol = 24,
    OperandExpected = 25,
    OperatorExpected = 26,
    UnmatchedBracket = 27,
    PriorityClash = 28,
    RackFull = 30,
    // W: writing a tree.
    NoSuchRoot = 31,
    MarkAboveFill = 32,
    FunctionAbsent = 33,
    NameListed = 34,
    TextTooLong = 35,
    OutletRefused = 36,
    MalformedRack = 37,
    TooFewValues = 38,
    // P: lines of a plan.
    MalformedLine = 40,
    PlanFull = 41,
}

// A refusal: its kind, and the place where it was found.
#[derive(Clone, Copy, PartialEq, Eq)]
pub struct Fault {
    pub kind: FaultKind,
    // A number, of a byte, a field or a node, and 0 where no place is meant, as the fault line prints it.
    pub place: usize,
}

impl FaultKind {
    // The letter of the layer that gives the fault, as a byte.
    pub fn letter(self) -> u8
        ensures { result ≡ letter_of self }
    {
        match self.number() {
            ..20 => b'D',
            20..=30 => b'R',
            31..40 => b'W',
            40.. => b'P',
        }
    }

    // The number of the fault, two digits long.
    pub fn number(self) -> u8
        ensures { result ≡ number_of self }
    {
        self as u8
    }
}
