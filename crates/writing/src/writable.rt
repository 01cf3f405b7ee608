// Whether a tree can be written in a notation.
ghost use Rattle.std.specs.Prelude.{◌≡◌, ℕ, ◌+◌, ◌-◌, ◌<◌, ◌^◌, length, MatchBool, MatchResult};
ghost use Rattle.writing.specs.Lines.{Digits, unwritable};
ghost use Rattle.writing.specs.Unwritables.{FirstIn, NoneIn};

use notation::{Notation, Position};
use rack::{Item, Node};
use tokens::{Fault, FaultKind};

// The most digits of a line.
pub const MAX_DIGITS: usize = 8;

// Whether the bytes are 1 to 8 digits.
pub(crate) fn are_digits(bytes: &[u8]) -> bool
    ensures { MatchBool result (Digits bytes.now) (Digits bytes.now → ⊥) }
{
    (1..=MAX_DIGITS).contains(&bytes.len()) && bytes.iter().all(|byte| byte.is_ascii_digit())
}

// Why what stands at a node cannot be written, if it cannot.
fn fault_of<N: Notation>(notation: &N, item: &Item) -> Option<FaultKind>
    ensures { result ≡ unwritable (N.table notation.now) item.now }
{
    match item {
        Item::Name(name) => {
            let word = name.word();
            (notation.listed(Position::Before, word).is_some()
                || notation.listed(Position::After, word).is_some()).then_some(
                FaultKind::NameListed,
            )
        }
        Item::Function(function) => match notation.operator(*function) {
            Some(_) => None,
            None => Some(FaultKind::FunctionAbsent),
        },
    }
}

// Refuses a node that cannot be written: the first of these, which begin at this place of the rack.
pub(crate) fn check_writable<N: Notation>(
    notation: &N,
    nodes: &[Node],
    start: usize,
) -> Result<(), Fault>
    requires { start + length nodes.now < 2 ^ 64 }
    ensures { MatchResult result (λ _. NoneIn (N.table notation.now) nodes.now) (FirstIn (N.table notation.now) nodes.now start) }
{
    for (index, node) in nodes.iter().enumerate() {
        if let Some(kind) = fault_of(notation, &node.item) {
            return Err(Fault {
                kind,
                place: start + index,
            });
        }
    }
    Ok(())
}
