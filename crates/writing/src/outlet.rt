// What writers put their text into.
ghost use Rattle.std.specs.Prelude.{◌≡◌, ℕ};
ghost use Rattle.writing.specs.Outlets.{Rule, OutletLaws, Puts};

use crate::put_kind::PutKind;
use tokens::Fault;

// An outlet has a holding, and the holding that it kept at the latest Start, at first the one that it begins with. By its
// rule a Put makes a new holding of the old one, or is refused. The pairs that it tells are worked out from its holding.
pub trait Outlet {
    ghost Holding: { Type 0 };

    ghost holding: { Self → Holding };

    ghost kept: { Self → Holding };

    ghost rule: { Rule Holding };

    ghost told: { Holding → ℕ };

    // Keeps the holding.
    fn start(&mut self)
        ensures holding { holding self.new ≡ holding self.old }
        ensures kept { kept self.new ≡ holding self.old };

    // Puts bytes of a kind, or refuses them. What is held after a refusal is not told: Strike comes next, or Start.
    fn put(&mut self, kind: PutKind, bytes: &[u8]) -> Result<(), Fault>
        ensures answer { Puts (rule (holding self.old) kind bytes.now) (holding self.new) result }
        ensures kept { kept self.new ≡ kept self.old };

    // Makes the kept holding the holding.
    fn strike(&mut self)
        ensures holding { holding self.new ≡ kept self.old }
        ensures kept { kept self.new ≡ kept self.old };

    // The pairs of brackets in what is held.
    fn pairs(&self) -> u64
        ensures { result ≡ told (holding self.now) };

    ghost laws: { OutletLaws Holding rule told };
}
