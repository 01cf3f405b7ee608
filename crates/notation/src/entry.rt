// Entries of a declared list.
ghost use Rattle.std.specs.Prelude.{◌≤◌};

use crate::form::Form;

// The longest spelling, in bytes.
pub const MAX_SPELLING_BYTES: usize = 12;

// An operator of a declared list. Its spelling is the first `length` of the bytes.
// Bytes with a length: declaring may not want memory.
#[derive(Clone, Copy)]
pub(crate) struct Entry {
    pub(crate) priority: u16,
    pub(crate) form: Form,
    pub(crate) length: u8,
    pub(crate) bytes: [u8; MAX_SPELLING_BYTES],
    ghost short: { length ≤ 12 },
}
