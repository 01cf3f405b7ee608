// The functions in a tree.
ghost use Rattle.std.specs.Prelude.{◌≡◌, length, MatchResult};
ghost use Rattle.tokens.specs.InOrder.{Only};
ghost use Rattle.rack.specs.FunctionSets.{SetAnswered, bit_of, bits_meaning};
ghost use Rattle.rack.specs.Roots.{AtTree};
ghost use Rattle.rack.specs.Reckoning.{Valued};

use crate::fill::Fill;
use crate::function_set::FunctionSet;
use crate::name::Name;
use crate::node::Node;
use crate::reckoning::reckon;
use crate::rules::Rules;
use tokens::Fault;

// The set of just this function, or of none where there is no such function.
fn bit(function: u8) -> u64
    ensures { result ≡ bit_of function }
{
    1u64.checked_shl(function.into()).unwrap_or(0)
}

// Rules for the functions in a tree, as bits.
struct FunctionBits;

impl Rules for FunctionBits {
    type Value = u64;

    ghost meaning = { λ _. bits_meaning };

    fn name(&self, _name: &Name) -> u64 {
        0
    }

    fn one(&self, function: u8, operand: u64) -> u64 {
        operand | bit(function)
    }

    fn two(&self, function: u8, first: u64, second: u64) -> u64 {
        first | second | bit(function)
    }
}

// The set of the functions in the tree at the root, worked out in the lent list of values. Refuses
// what `reckon` does.
pub fn functions(
    rack: &[Node],
    fill: &Fill,
    root: usize,
    values: &mut [u64],
) -> Result<FunctionSet, Fault>
    ensures answer { Only (AtTree rack.now fill.now.used root (SetAnswered (length values.old))) result }
    ensures values { MatchResult result (λ _. Valued bits_meaning rack.now root values.old values.new) (λ _. values.new ≡ values.old) }
{
    let bits = reckon(&FunctionBits, rack, fill, root, values)?;
    Ok(FunctionSet {
        bits,
        count: bits.count_ones(),
    })
}
