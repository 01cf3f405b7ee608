// Declarations: a line of function, priority, type and spelling, parted by single spaces.
ghost use Rattle.std.specs.Prelude.{◌≡◌, ℕ, List, ◌∷◌, ◌++◌, Decides, MatchOption, ◌≢◌};
ghost use Rattle.notation.specs.Lines.{Field, Fields, Parted, Number};
ghost use Rattle.notation.specs.Declarations.{LineRules};
ghost use Rattle.notation.specs.Views.{fields_of, DeclarationOf};

use crate::form::Form;
use tokens::{Fault, FaultKind};

// The most digits of a number.
const MAX_DIGITS: usize = 4;

// The place of a fault is a field, counted from 1, or the whole line.
// Numbers: a place is told as one, so an enum would only be turned back into these.
const WHOLE_LINE: usize = 0;

pub(crate) const FUNCTION_FIELD: usize = 1;

pub(crate) const PRIORITY_FIELD: usize = 2;

const TYPE_FIELD: usize = 3;

pub(crate) const SPELLING_FIELD: usize = 4;

// The four fields of a line.
#[derive(Clone, Copy)]
pub(crate) struct RawFields<'a> {
    pub(crate) function: &'a [u8],
    pub(crate) priority: &'a [u8],
    pub(crate) word: &'a [u8],
    pub(crate) spelling: &'a [u8],
}

// What a line declares: an operator for a function.
#[derive(Clone, Copy)]
pub(crate) struct Declaration<'a> {
    pub(crate) function: u16,
    pub(crate) priority: u16,
    pub(crate) form: Form,
    pub(crate) spelling: &'a [u8],
}

// Whether the bytes are a field: some bytes, and no space among them.
fn is_field(bytes: &[u8]) -> bool
    ensures { Decides result (Field bytes.now) }
{
    !bytes.is_empty() && !bytes.contains(&b' ')
}

// The field that the text begins with, and what stands after the space that ends it.
fn split_field(text: &[u8]) -> Option<(&[u8], &[u8])>
    ensures { MatchOption result ((x y : List ℕ) → Field x → text.now ≢ x ++ (32 ∷ y)) (λ x. Field x.0.now × (text.now ≡ x.0.now ++ (32 ∷ x.1.now))) }
{
    let place = text.iter().position(|byte| *byte == b' ')?;
    if place == 0 {
        return None;
    }
    Some((&text[..place], &text[place + 1..]))
}

// The four fields of the line, if it has four.
fn fields_of(line: &[u8]) -> Option<RawFields<'_>>
    ensures { MatchOption result ((x : Fields) → Parted line.now x → ⊥) (λ x. Parted line.now (fields_of x)) }
{
    let (function, rest) = split_field(line)?;
    let (priority, rest) = split_field(rest)?;
    let (word, spelling) = split_field(rest)?;
    if !is_field(spelling) {
        return None;
    }
    Some(RawFields {
        function,
        priority,
        word,
        spelling,
    })
}

// The value of a number of one to four digits.
fn number_of(digits: &[u8]) -> Option<u16>
    ensures { MatchOption result ((n : ℕ) → Number digits.now n → ⊥) (Number digits.now) }
{
    if digits.is_empty() || digits.len() > MAX_DIGITS {
        return None;
    }
    // A `for`: a `try_fold` with checked sums is no plainer, and the check found nothing of what it promises.
    let mut value = 0;
    for digit in digits {
        if !digit.is_ascii_digit() {
            return None;
        }
        value = value * 10 + u16::from(*digit - b'0');
    }
    Some(value)
}

// What the line declares. Refuses a line without four fields or with a number out of form, and a
// type word that is none of the seven.
pub(crate) fn read_declaration(line: &[u8]) -> Result<Declaration<'_>, Fault>
    ensures { LineRules line.now DeclarationOf result }
{
    let malformed = Fault {
        kind: FaultKind::MalformedDeclaration,
        place: WHOLE_LINE,
    };
    let fields = fields_of(line).ok_or(malformed)?;
    let function = number_of(fields.function).ok_or(malformed)?;
    let priority = number_of(fields.priority).ok_or(malformed)?;
    let form = Form::try_from(fields.word).map_err(|kind| Fault {
        kind,
        place: TYPE_FIELD,
    })?;
    Ok(Declaration {
        function,
        priority,
        form,
        spelling: fields.spelling,
    })
}
