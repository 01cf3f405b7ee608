// An outlet that counts.
ghost use Rattle.std.specs.Prelude.{◌≡◌, ◌≤◌};

use crate::outlet::Outlet;
use crate::put_kind::PutKind;
use tokens::{Fault, FaultKind};

// No outlet that counts takes more bytes.
pub const MAX_COUNTED_BYTES: u64 = 1_000_000;

// How many Puts, bytes and pairs there were.
#[derive(Clone, Copy)]
pub struct Tally {
    pub puts: u64,
    pub bytes: u64,
    pub pairs: u64,
    ghost few: { bytes ≤ 1000000 },
    ghost carried: { puts ≤ bytes },
    ghost closed: { pairs ≤ puts },
}

impl Tally {
    ghost use Rattle.writing.specs.CountViews.{counts_of};

    // Of nothing.
    pub fn new() -> Tally
        ensures { counts_of result ≡ record { puts = 0; bytes = 0; pairs = 0 } }
    {
        Tally {
            puts: 0,
            bytes: 0,
            pairs: 0,
        }
    }
}

// Counts what is put, and keeps nothing of it.
#[derive(Clone, Copy)]
pub struct CountingOutlet {
    pub counts: Tally,
    pub kept: Tally,
}

impl CountingOutlet {
    ghost use Rattle.writing.specs.CountViews.{counts_of};

    // An outlet that has counted nothing.
    pub fn new() -> CountingOutlet
        ensures counts { counts_of result.counts ≡ record { puts = 0; bytes = 0; pairs = 0 } }
        ensures kept { result.kept ≡ result.counts }
    {
        let nothing = Tally::new();
        CountingOutlet {
            counts: nothing,
            kept: nothing,
        }
    }
}

impl Outlet for CountingOutlet {
    ghost use Rattle.writing.specs.Counts.{Counts, count_rule, count_laws};
    ghost use Rattle.writing.specs.CountViews.{counts_of};

    ghost Holding = { Counts };

    ghost holding = { λ o. counts_of o.counts };

    ghost kept = { λ o. counts_of o.kept };

    ghost rule = { count_rule };

    ghost told = { λ h. h.pairs };

    ghost laws = { count_laws };

    fn start(&mut self) {
        self.kept = self.counts;
    }

    fn put(&mut self, kind: PutKind, bytes: &[u8]) -> Result<(), Fault> {
        let Tally {
            puts,
            bytes: before,
            pairs,
        } = self.counts;
        let length = bytes.len() as u64;
        if !kind.admits(bytes.len()) || length > MAX_COUNTED_BYTES - before {
            return Err(Fault {
                kind: FaultKind::OutletRefused,
                place: 0,
            });
        }
        self.counts = Tally {
            puts: puts + 1,
            bytes: before + length,
            pairs: pairs + kind.pairs_closed(),
        };
        Ok(())
    }

    fn strike(&mut self) {
        self.counts = self.kept;
    }

    fn pairs(&self) -> u64 {
        self.counts.pairs
    }
}
