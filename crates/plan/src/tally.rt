// What a plan has come to.
ghost use Rattle.std.specs.Prelude.{◌≡◌, ◌+◌, ◌^◌, ◌<◌};
ghost use Rattle.plan.specs.Plans.{line_in, pairs_in};

use crate::outcome::Outcome;

// The lines that were put out, and their pairs together.
#[derive(Clone, Copy, Default)]
pub struct Tally {
    pub lines: usize,
    pub pairs: usize,
}

impl Tally {
    // Counts what became of one line more.
    pub(crate) fn count(&mut self, outcome: Outcome)
        requires lines { self.old.lines + line_in outcome < 2 ^ 64 }
        requires pairs { self.old.pairs + pairs_in outcome < 2 ^ 64 }
        ensures lines { self.new.lines ≡ self.old.lines + line_in outcome }
        ensures pairs { self.new.pairs ≡ self.old.pairs + pairs_in outcome }
    {
        if let Ok(pairs) = outcome {
            self.lines += 1;
            self.pairs += pairs;
        }
    }
}
