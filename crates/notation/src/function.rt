// Functions: numbers from 0 to 63.
ghost use Rattle.std.specs.Prelude.{◌≡◌};
ghost use Rattle.notation.specs.Tables.{operands_of_function};

// How many functions there are: a function is a number below this.
pub const FUNCTIONS: usize = 64;

// Functions below this take one operand, the others two.
pub const FIRST_OF_TWO: u8 = 32;

// How many operands the function takes.
pub fn operands_of(function: u8) -> u8
    ensures { result ≡ operands_of_function function }
{
    if function < FIRST_OF_TWO { 1 } else { 2 }
}
