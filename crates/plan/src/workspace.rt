// The working memory of the command.
ghost use Rattle.std.specs.Prelude.{◌≡◌, vec_len};

use crate::plan_line::PlanLine;
use notation::Notation;
use rack::{Fill, Node, RACK_NODES};
use reading::Reader;
use std::alloc::{AllocError, Global};
use tokens::Fault;

// A reader, and a rack for the tree of one line. No call wants memory for them once they are made.
#[derive(Drop)]
pub struct Workspace {
    reader: Reader,
    rack: Vec<Node>,
    ghost whole: { vec_len rack ≡ 4096 },
}

impl Workspace {
    ghost use Rattle.std.specs.Prelude.{IfOk, MatchResult};
    ghost use Rattle.plan.specs.Plans.{LineFault, LineReads};

    // The memory for every line, or the error that there is not so much.
    pub fn new(alloc: Global) -> Result<Workspace, AllocError>
        ensures { IfOk result (λ work. vec_len work.rack ≡ 4096) }
    {
        let reader = Reader::new(alloc)?;
        let rack = vec![in alloc; Node::BLANK; RACK_NODES]?;
        Ok(Workspace { reader, rack })
    }

    // Takes a line apart, and refuses one that is no plan line or whose expression does not read under the notation.
    pub(crate) fn read_line<'a, N: Notation>(
        &mut self,
        line: &'a [u8],
        notation: &N,
    ) -> Result<PlanLine<'a>, Fault>
        ensures { MatchResult result (λ p. LineReads (N.table notation.now) line.now p.digits.now p.expression.now) (LineFault (N.table notation.now) line.now) }
    {
        let plan_line = PlanLine::parse(line)?;
        let mut fill = Fill::new();
        self.reader.read(
            self.rack.as_mut_slice(),
            &mut fill,
            plan_line.expression,
            notation,
        )?;
        Ok(plan_line)
    }
}
