// Read: an expression as a tree in a rack.
ghost use Rattle.std.specs.Prelude.{◌≡◌, Err, IfErr, IfOk, is_ok};
ghost use Rattle.std.specs.Result.{result_ok};
ghost use Rattle.tokens.specs.Faults.{fault};
ghost use Rattle.tokens.specs.Limits.{WithinLimits};
ghost use Rattle.tokens.specs.Spacing.{lexemes_of};
ghost use Rattle.tokens.specs.Tokens.{lexeme, placed};
ghost use Rattle.grammar.specs.Refusals.{Answered, fault_at, fault_at_end};
ghost use Rattle.reading.specs.Outside.{SameOutside};
ghost use Rattle.reading.specs.Readings.{OnlyReading};
ghost use Rattle.reading.specs.Yard.{ended, finished, run, site_of, started, step, stepped, yard_of, HasRoom, SameLoans};

use crate::loan::FillLoan;
use crate::reader::Reader;
use crate::reading::Reading;
use crate::refusals::{fault_at, fault_at_end};
use grammar::Due;
use notation::Notation;
use rack::{Fill, Node, RACK_NODES};
use tokens::{Cutter, Fault, FaultKind, Token, check_expression};

impl<N: Notation> Reading<'_, N> {
    // Takes the next token, or answers the fault of one that fails.
    fn step(&mut self, token: Token<'_>) -> Result<(), Fault>
        requires { HasRoom (site_of self.old) }
        ensures state { stepped (is_ok result) (yard_of self.new) self.new.rack.now ≡ step (N.table self.old.notation.now) (yard_of self.old) (lexeme (placed token.entry)) }
        ensures fault { IfErr result (λ f. f ≡ fault (fault_at (N.table self.old.notation.now) self.old.due (lexeme (placed token.entry))) (placed token.entry).place) }
        ensures same { SameLoans self.old self.new }
    {
        let due = self.due;
        let next = match due {
            Due::Operand => self.operand(token),
            Due::Operator => self.operator(token),
        };
        let Some(next) = next else {
            return Err(Fault {
                kind: fault_at(self.notation, due, token),
                place: token.place(),
            });
        };
        self.due = next;
        Ok(())
    }

    // Takes the text's tokens, from the beginning, and lets the fill follow; or answers the fault of the first that fails.
    // Not within `read`: past a loop, a proof of the function that made the reading knows of the rack its length alone.
    fn run(&mut self, text: &[u8], fill: &mut Fill) -> Result<(), Fault>
        requires begun { yard_of self.old ≡ started self.old.mark self.old.rack.now }
        requires within { WithinLimits text.now }
        ensures state { IfOk result (λ _. yard_of self.new ≡ run (N.table self.old.notation.now) (started self.old.mark self.old.rack.now) (lexemes_of text.now)) }
        ensures fault { IfErr result (λ f. Answered (N.table self.old.notation.now) text.now (Err f) × SameOutside self.old.mark self.old.rack.now self.new.rack.now) }
        ensures same { SameLoans self.old self.new }
    {
        for token in Cutter::new(text) {
            self.step(token)?;
            fill.used = self.at.min(RACK_NODES);
        }
        Ok(())
    }

    // The end, at this place: where the tree's nodes end, or the fault of an end that fails.
    fn finish(&mut self, place: usize) -> Result<usize, Fault>
        ensures state { ended (result_ok result) (site_of self.new) ≡ finished (yard_of self.old) }
        ensures fault { IfErr result (λ f. f ≡ fault (fault_at_end self.old.due) place) }
        ensures same { SameLoans self.old self.new }
    {
        let kind = fault_at_end(self.due);
        if self.due == Due::Operand {
            return Err(Fault { kind, place });
        }
        self.unwind();
        if self.reader.top().is_some() {
            return Err(Fault { kind, place });
        }
        Ok(self.at)
    }
}

impl Reader {
    // Reads the expression as a tree, puts its nodes behind those in use, raises the fill by them and answers the root.
    // An expression that is refused leaves the fill and the nodes in use as they were.
    pub fn read<N: Notation>(
        &mut self,
        rack: &mut [Node],
        fill: &mut Fill,
        text: &[u8],
        notation: &N,
    ) -> Result<usize, Fault>
        ensures { OnlyReading (N.table notation.now) text.now rack.old fill.old.used result rack.new fill.new.used }
    {
        let mark = fill.used;
        let mut loan = FillLoan { fill, back: mark };
        check_expression(text)?;
        self.clear();
        let mut reading = Reading {
            reader: self,
            rack,
            notation,
            mark,
            at: mark,
            due: Due::Operand,
        };
        reading.run(text, loan.fill)?;
        let end = reading.finish(text.len())?;
        if end > reading.room() {
            return Err(Fault {
                kind: FaultKind::RackFull,
                place: mark,
            });
        }
        loan.back = end;
        Ok(end - 1)
    }
}
