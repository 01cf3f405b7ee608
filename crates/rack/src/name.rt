// Names, as they lie in the nodes of a rack.

use tokens::MAX_WORD_BYTES;

// The longest name, in bytes: a name is a word.
pub const MAX_NAME_BYTES: usize = MAX_WORD_BYTES;

// A name: 1 to 16 word bytes, and zeros in the bytes that it does not use. Sixteen bytes, and no `Vec`: a node holds its
// name whole, and putting one there may not want memory.
#[derive(Clone, Copy, PartialEq, Eq)]
pub struct Name {
    pub bytes: [u8; MAX_NAME_BYTES],
}
