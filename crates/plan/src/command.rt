// The command: from a line to what it becomes, and from the whole input to the whole output.
ghost use Rattle.std.specs.Prelude.{◌≡◌, ℕ, ◌+◌, ◌≤◌, true, List, ◌∷◌, ◌++◌, length, is_ok, IfOk, vec_len, vec_capacity, MatchResult, OnOk};
ghost use Rattle.tokens.specs.InOrder.{Only};
ghost use Rattle.tokens.specs.Spacing.{respaced, pairs_of};
ghost use Rattle.plan.specs.Appends.{Appended, WithinRoom};
ghost use Rattle.plan.specs.Command.{Output};
ghost use Rattle.plan.specs.InputLines.{counted_lines};
ghost use Rattle.plan.specs.NumberedAhead.{numbered_ahead};
ghost use Rattle.plan.specs.Plans.{ComesOutAs, up_to_tail, PlanOutput, room_for};
ghost use Rattle.plan.specs.Sections.{TwoNotations};
ghost use Rattle.plan.specs.SectionViews.{both_read};
ghost use Rattle.plan.specs.AnyNotations.{any_table};
ghost use Rattle.plan.specs.Reports.{line_end};

use crate::any_notation::AnyNotation;
use crate::input_fault::InputFault;
use crate::numbered_lines::{NumberedLine, NumberedLines};
use crate::outcome::Outcome;
use crate::plan_line::PlanLine;
use crate::plan_lines::PlanLines;
use crate::report::{push_fault_line, push_tail};
use crate::sections::read_notation;
use crate::tally::Tally;
use crate::workspace::Workspace;
use notation::Notation;
use std::alloc::AllocError;
use tokens::push_respaced;

// Appends the digits, a tab, the expression by the spacing rule, and a line end; answers the pairs.
fn push_plan_line(out: &mut Vec<u8>, line: PlanLine<'_>) -> Result<usize, AllocError>
    requires { (length line.digits.now ≤ 8) × (length line.expression.now ≤ 4096) }
    ensures bytes { Appended (line.entry.digits.now ++ (9 ∷ (respaced line.entry.expression.now ++ line_end))) out.old out.new result }
    ensures pairs { IfOk result (λ n. n ≡ pairs_of line.entry.expression.now) }
    ensures room { WithinRoom (length line.entry.digits.now + length line.entry.expression.now + 2) out.old out.new result }
{
    out.reserve(line.digits.len() + line.expression.len() + 2)?;
    // There is room for the whole line, so nothing below fails, though two of the calls could.
    let _ = out.extend_from_slice(line.digits);
    out.push_reserved(b'\t');
    let pairs = push_respaced(out, line.expression)?;
    out.push_reserved(b'\n');
    Ok(pairs)
}

// Appends what the line of the input becomes under the notation: the line by the spacing rule, or a fault line.
// Without the memory for it `out` stays as it is.
pub fn translate_line<N: Notation>(
    work: &mut Workspace,
    out: &mut Vec<u8>,
    line: NumberedLine<'_>,
    notation: &N,
) -> Result<Outcome, AllocError>
    ensures answer { MatchResult result (λ o. (bytes : List ℕ) × (out.new.items ≡ out.old.items ++ bytes) × Only (ComesOutAs (N.table notation.now) line.entry.number line.entry.bytes.now) (record { outcome = o; bytes = bytes })) (λ _. out.new.items ≡ out.old.items) }
    ensures room { WithinRoom (length line.entry.bytes.now + 65) out.old out.new result }
{
    match work.read_line(line.bytes, notation) {
        Ok(plan_line) => Ok(Ok(push_plan_line(out, plan_line)?)),
        Err(fault) => {
            let refused = InputFault {
                line: line.number,
                fault,
            };
            push_fault_line(out, refused)?;
            Ok(Err(fault))
        }
    }
}

// Appends what each line of the plan becomes, up to one that begins its tail, and then the tail of the output.
fn translate_plan(
    work: &mut Workspace,
    out: &mut Vec<u8>,
    lines: NumberedLines<'_>,
    notation: &AnyNotation,
) -> Result<(), AllocError>
    ensures answer { (added : List ℕ) × (out.new.items ≡ out.old.items ++ added) × OnOk result (PlanOutput (any_table notation.now) lines.entry.count (up_to_tail (numbered_ahead lines.entry)) added) }
    ensures succeeds { vec_len out.old + room_for (up_to_tail (numbered_ahead lines.entry)) ≤ vec_capacity out.old → is_ok result ≡ true }
{
    let mut tally = Tally::default();
    for line in PlanLines::new(lines) {
        let outcome = translate_line(work, out, line, notation)?;
        tally.count(outcome);
    }
    push_tail(out, tally)
}

// The two notations that the input begins with.
#[derive(Drop)]
struct Notations {
    from: AnyNotation,
    into: AnyNotation,
}

// Reads the two notations, or tells the first line that may not stand there, and why.
fn read_notations(lines: &mut NumberedLines<'_>) -> Result<Notations, InputFault>
    ensures { TwoNotations lines.old.count (numbered_ahead lines.old) (both_read result lines.new) }
{
    let from = read_notation(lines)?;
    let into = read_notation(lines)?;
    Ok(Notations { from, into })
}

// Appends what comes after the notations that the input begins with, or the fault line of the first that is refused.
fn translate_input(work: &mut Workspace, out: &mut Vec<u8>, input: &[u8]) -> Result<(), AllocError>
    ensures answer { (added : List ℕ) × (out.new.items ≡ out.old.items ++ added) × OnOk result (Output input.now added) }
    ensures succeeds { vec_len out.old + room_for (counted_lines input.now) ≤ vec_capacity out.old → is_ok result ≡ true }
{
    let mut lines = NumberedLines::new(input);
    match read_notations(&mut lines) {
        Ok(notations) => translate_plan(work, out, lines, &notations.from),
        Err(refused) => push_fault_line(out, refused),
    }
}

// Appends the whole output of the whole input: after its two notations what each line of its plan becomes, and the
// tail. Without the memory for it `out` stays as it is.
pub fn translate(work: &mut Workspace, out: &mut Vec<u8>, input: &[u8]) -> Result<(), AllocError>
    ensures answer { MatchResult result (λ _. (added : List ℕ) × (out.new.items ≡ out.old.items ++ added) × Only (Output input.now) added) (λ _. out.new.items ≡ out.old.items) }
    ensures succeeds { vec_len out.old + room_for (counted_lines input.now) ≤ vec_capacity out.old → is_ok result ≡ true }
{
    let mark = out.len();
    let done = translate_input(work, out, input);
    if done.is_err() {
        out.truncate(mark);
    }
    done
}
