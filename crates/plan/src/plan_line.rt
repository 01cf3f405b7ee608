// A plan line: digits, a tab, and an expression.
ghost use Rattle.std.specs.Prelude.{◌≡◌, List, ℕ, IfOk, MatchResult};
ghost use Rattle.std.specs.List.{prefix_len};
ghost use Rattle.tokens.specs.Bytes.{is_digit};
ghost use Rattle.tokens.specs.Faults.{fault};
ghost use Rattle.tokens.specs.declared.fault.FaultKind.TheVariants.{MalformedLine};
ghost use Rattle.plan.specs.PlanLines.{IsPlanLine, NoPlanLine};

use tokens::{Fault, FaultKind};

// The most digits of a plan line.
pub const MAX_DIGITS: usize = 8;

// The parts of a plan line, borrowed from it.
#[derive(Clone, Copy)]
pub struct PlanLine<'a> {
    pub digits: &'a [u8],
    pub expression: &'a [u8],
}

// How many digits the line begins with.
fn leading_digits(line: &[u8]) -> usize
    ensures { result ≡ prefix_len is_digit line.now }
{
    line.iter().take_while(|b| b.is_ascii_digit()).count()
}

impl<'a> PlanLine<'a> {
    // Takes a line apart at the tab after its 1 to 8 digits; what follows the tab is the expression.
    // Refuses a line that has no such digits, or no tab after them.
    // `parse`, and no `TryFrom`: what it promises by two clauses would be one member of a trait, and read no plainer.
    pub fn parse(line: &'a [u8]) -> Result<PlanLine<'a>, Fault>
        ensures answer { MatchResult result (λ p. IsPlanLine line.now p.digits.now p.expression.now) (λ f. NoPlanLine line.now × (f ≡ fault MalformedLine 0)) }
        ensures only { IfOk result (λ p. (ds es : List ℕ) → IsPlanLine line.now ds es → (ds ≡ p.digits.now) × (es ≡ p.expression.now)) }
    {
        let (digits, rest) = line.split_at(leading_digits(line));
        match rest {
            [b'\t', expression @ ..] if (1..=MAX_DIGITS).contains(&digits.len()) => {
                Ok(PlanLine { digits, expression })
            }
            _ => Err(Fault {
                kind: FaultKind::MalformedLine,
                place: 0,
            }),
        }
    }
}
