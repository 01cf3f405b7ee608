// Lists of declared operators: open, and then sealed.
ghost use Rattle.std.specs.Prelude.{◌≡◌, ℕ, ◌+◌, ◌-◌, ◌<◌, true, None, slice_index_or};
ghost use Rattle.notation.specs.Chains.{begins_with, seek};
ghost use Rattle.notation.specs.Slots.{table_in};
ghost use Rattle.notation.specs.Tables.{LawfulTable};

use crate::entry::Entry;
use crate::function::FUNCTIONS;

// How many bytes there are.
pub(crate) const BYTES: usize = 256;

// A list that operators can be declared into. It is no notation until it is sealed.
// An array, with a slot for each function: declaring may not want memory. No model, though its table is what callers see: a
// table is a function, and functions have no code.
#[derive(Drop)]
pub struct OpenList {
    pub(crate) slots: [Option<Entry>; FUNCTIONS],
    ghost lawful: { ∥ LawfulTable (table_in slots) ∥₁ },
}

// A list of operators that does not change any more. For each byte `firsts` has the first function whose
// spelling begins with it, if there is one, and for each function `nexts` has the next one whose spelling begins as
// its own does. So a spelling is compared only with those that begin as it does.
// Arrays, and no map: sealing may not want memory.
#[derive(Drop)]
pub struct SealedList {
    pub(crate) list: OpenList,
    pub(crate) firsts: [Option<u8>; BYTES],
    pub(crate) nexts: [Option<u8>; FUNCTIONS],
    ghost first: { (b : ℕ) → b < 256 → slice_index_or firsts b None ≡ seek (table_in list.slots) b 0 64 },
    ghost next: { (f b : ℕ) → begins_with b (table_in list.slots f) ≡ true → slice_index_or nexts f None ≡ seek (table_in list.slots) b (f + 1) (63 - f) },
}
