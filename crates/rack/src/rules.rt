// The rules by which a value is worked out over a tree.
ghost use Rattle.std.specs.Prelude.{◌≡◌};
ghost use Rattle.rack.specs.Names.{spelt};
ghost use Rattle.rack.specs.Reckoning.{Meaning};

use crate::name::Name;

// Rules for a kind of value: what a name has, and what a function has with the value of its one
// operand or those of its two.
pub trait Rules {
    type Value: Copy;

    ghost meaning: { Self → Meaning Self.Value };

    // The value of a name.
    fn name(&self, name: &Name) -> Self::Value
        ensures { result ≡ (meaning self.now).named (spelt name.now.bytes) };

    // The value of a function with one operand.
    fn one(&self, function: u8, operand: Self::Value) -> Self::Value
        ensures { result ≡ (meaning self.now).single function operand };

    // The value of a function with two operands.
    fn two(&self, function: u8, first: Self::Value, second: Self::Value) -> Self::Value
        ensures { result ≡ (meaning self.now).double function first second };
}
